// The listing of an archive's bytes. The steps are made on what a run holds, and no run is made.
#![tactic(auto)]

ghost use Rattle.std.specs.Prelude.{◌≡◌, true};
ghost use Rattle.cleaning.specs.Runs.{taking};
ghost use Rattle.run_state.specs.View.{held_in};
ghost use Rattle.run_state.specs.Valid.{held_ok};
ghost use Rattle.run_state.specs.order.Ordered.{ordered};
ghost use Rattle.cleaning.specs.Step.{printed};
ghost use Rattle.run_write.specs.Answers.{Gives};
ghost use Rattle.run_print.specs.Whole.{resolved_list, listing_from};

use columns::refusal::Refusal;
use run_state::Held;

// Resolves what is held of sources, and lists it.
fn list_held(h: Held, out: &mut [u8]) -> Result<usize, Refusal>
    requires { (held_ok h ≡ true) × (ordered h.sheet ≡ true) }
    ensures { Gives printed (resolved_list (taking (held_in h))) out.old out.new result }
{
    let s = run_resolve::resolve(h)?;
    run_list::list(h, s, out)
}

// The listing in lent bytes: how long it is, or why there is none.
pub fn listing(bytes: &[u8], out: &mut [u8]) -> Result<usize, Refusal>
    ensures { Gives printed (listing_from bytes.now) out.old out.new result }
{
    if 65536 < bytes.len() {
        return Err(Refusal::SliceShort);
    }
    let h = run_state::empty::fresh();
    run_state::order::long::held_long(h);
    list_held(run_take::take(h, bytes)?, out)
}
