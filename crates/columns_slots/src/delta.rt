// A delta of an event and the target that it names, event minus delta, in numbers of 64 bits.
ghost use Rattle.std.specs.Prelude.{◌≡◌, true, nat_abs};
ghost use Rattle.columns.specs.EdgeSet.{target_of, allowed, sound};
ghost use Rattle.columns.specs.Answers.{named};

// How far a delta reaches, whichever way.
fn magnitude(delta: i64) -> u64
    ensures { result ≡ nat_abs delta }
{
    delta.unsigned_abs()
}

// The number event minus delta.
pub(crate) fn target(event: u64, delta: i64) -> u64
    requires { named event delta ≡ true }
    ensures { result ≡ target_of event delta }
{
    let far = magnitude(delta);
    if delta < 0 {
        return event + far;
    }
    event - far
}

// Whether a target lies on the side of a set, which is given by its number.
fn is_allowed(set: u64, end: u64, event: u64, target: u64) -> bool
    ensures { result ≡ allowed set end event target }
{
    if set == 0 {
        return target < event;
    }
    if set == 1 {
        if target <= event {
            return false;
        }
        return target < end;
    }
    end <= target
}

// Whether a delta names a number on its set's side. A delta below 0 leads up, and may lead past the greatest number.
pub(crate) fn is_sound(set: u64, end: u64, event: u64, delta: i64) -> bool
    ensures { result ≡ sound set end event delta }
{
    let far = magnitude(delta);
    if delta < 0 {
        if event <= u64::MAX - far {
            return is_allowed(set, end, event, event + far);
        }
        return false;
    }
    if far <= event {
        return is_allowed(set, end, event, event - far);
    }
    false
}
