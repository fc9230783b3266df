// What is asked of a run that is resolved: the old-to-new map of numbers.
ghost use Rattle.std.specs.Prelude.{◌≡◌, true, ◌+◌, ◌^◌, ◌-◌, ◌≤◌, ◌<◌, length};
ghost use Rattle.columns.specs.Limits.{kinds};
ghost use Rattle.cleaning.specs.Cleaning.{mapped};
ghost use Rattle.cleaning.specs.Held.{archive_held};
ghost use Rattle.run_state.specs.View.{held_in};
ghost use Rattle.run_state.specs.Valid.{held_ok};
ghost use Rattle.run_state.specs.order.Ordered.{ordered};
ghost use Rattle.run_resolve.specs.Map.{mapped_of, row_number};

use run_state::Held;

// The new number of a row, by the flags of all rows.
fn row_number(flags: &[u8], start: u64, i: usize) -> Option<u64>
    requires { (i < length flags.now) × ((length flags.now ≤ 1024) × (start + length flags.now ≤ 2 ^ 64 - 1)) }
    ensures { result ≡ mapped_of (row_number start flags.now i) }
{
    if flags[i] != 0 {
        return None;
    }
    let numbers = crate::sheet::renewed::new_numbers(flags, start);
    Some(numbers[i])
}

// The new number of the event of an old number: nothing where no event has it, or where the event is erased.
pub fn new_number(h: Held, old: u64) -> Option<u64>
    requires { (held_ok h ≡ true) × (ordered h.sheet ≡ true) }
    ensures { result ≡ mapped_of (mapped (archive_held kinds (held_in h)) old) }
{
    run_state::order::long::held_long(h);
    let start = h.sheet.start;
    if old < start {
        return None;
    }
    let i = arrays::index(old - start);
    let n = h.sheet.rows.count;
    if n <= i {
        return None;
    }
    let f = h.erased;
    row_number(&f[..n], start, i)
}
