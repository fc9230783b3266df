// Resolving what a run holds: the sheet of its survivors, or the first refusal; and new numbers.
#![tactic(auto)]

pub mod asked;
pub mod links;
pub mod parents;
pub mod records;
pub mod sheet;
pub mod survivor_sheet;

ghost use Rattle.std.specs.Prelude.{◌≡◌, true};
ghost use Rattle.run_state.specs.Valid.{held_ok};
ghost use Rattle.run_state.specs.order.Ordered.{ordered};
ghost use Rattle.run_resolve.specs.parents.Renewal.{EdgesKept};
ghost use Rattle.run_resolve.specs.Outcome.{flags_in, new_in, ListsRenewed, SurvivorsIn, ResolvedBy};

use columns::refusal::Refusal;
use run_state::{Edges, Held, Sheet};

// The new lists of the survivors, unless those of all rows are over the limit.
fn new_lists(h: Held) -> Option<Edges>
    requires { (held_ok h ≡ true) × (ordered h.sheet ≡ true) }
    ensures { ListsRenewed h result }
{
    run_state::order::long::held_long(h);
    let f = h.erased;
    crate::parents::new_edges(h.sheet.start, h.sheet.rows.count, &f, h.sheet.edges)
}

// The sheet of the survivors, with their lists.
fn survivors(h: Held, e: Edges) -> Sheet
    requires h_value { (held_ok h ≡ true) × (ordered h.sheet ≡ true) }
    requires edges_kept { EdgesKept (flags_in h) (new_in h) e }
    ensures { SurvivorsIn h result }
{
    run_state::order::long::held_long(h);
    let f = h.erased;
    let n = h.sheet.rows.count;
    let s = crate::survivor_sheet::kept_sheet(h.sheet, &f[..n], e);
    run_state::order::long::sheet_long(s);
    s
}

// The sheet of the survivors of a run: 24 where it has no source, 43 where all new lists are over the limit, 27 where a group has no survivor.
// Not inlined, so that its answer is moved to where it stays, and no column of its steps has a place beside those of a run.
#[inline(never)]
pub fn resolve(h: Held) -> Result<Sheet, Refusal>
    requires { (held_ok h ≡ true) × (ordered h.sheet ≡ true) }
    ensures { ResolvedBy h result }
{
    if h.sheet.groups.count == 0 {
        return Err(Refusal::GroupOrder);
    }
    let Some(e) = new_lists(h) else {
        return Err(Refusal::OverNumbers);
    };
    let s = survivors(h, e);
    if !run_state::order::is_filled(s) {
        return Err(Refusal::NoSurvivor);
    }
    Ok(s)
}
