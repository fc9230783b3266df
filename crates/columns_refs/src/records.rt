// Unresolved records out of references, a column for each part.
ghost use Rattle.std.specs.Prelude.{[], ◌∷◌, ◌+◌, ◌≤◌, length};
ghost use Rattle.std.proofs.Math.Seq.{slice};
ghost use Rattle.columns.specs.Limits.{end64};
ghost use Rattle.columns.specs.EdgeSet.{cut};
ghost use Rattle.columns_refs.specs.Lent.{references};
ghost use Rattle.columns_refs.specs.References.{records_from, unresolved_from};
ghost use Rattle.columns_refs.specs.Resolved.{RowsForm, RecordsRoom, Noted};

use crate::refs::{Lent, Reference, is_unresolved, reference_at};
use arrays::index;

// Writes the record of a reference, if it is unresolved; answers the place after it.
fn note(
    x: Reference,
    event: u64,
    place: usize,
    children: &mut [u64],
    ukinds: &mut [u64],
    handles: &mut [u64],
    at: usize,
) -> usize
    requires { RecordsRoom (at + length (records_from event place (x ∷ []))) children.old ukinds.old handles.old }
    ensures { Noted (records_from event place (x ∷ [])) at result children.old ukinds.old handles.old children.new
        ukinds.new handles.new }
{
    if !is_unresolved(x) {
        return at;
    }
    children[at] = event;
    ukinds[at] = x.kind as u64;
    handles[at] = place as u64;
    at + 1
}

// The same for each reference from place `from` up to `to`.
fn note_row(
    lent: Lent,
    from: usize,
    to: usize,
    event: u64,
    children: &mut [u64],
    ukinds: &mut [u64],
    handles: &mut [u64],
    at: usize,
) -> usize
    requires to_in_bounds { to ≤ length (references lent) }
    requires records_room { RecordsRoom (at + length (records_from event from (slice from to (references lent))))
        children.old ukinds.old handles.old }
    ensures { Noted (records_from event from (slice from to
        (references lent.entry))) at result children.old
        ukinds.old handles.old children.new ukinds.new handles.new }
{
    let mut p = at;
    for i in from..to {
        let x = reference_at(lent, i);
        p = note(x, event, i, children, ukinds, handles, p);
    }
    p
}

// Writes the records of all rows, of which the first is the event `first`; answers how many there are.
pub(crate) fn note_rows(
    first: u64,
    rows: usize,
    starts: &[u64],
    lent: Lent,
    children: &mut [u64],
    ukinds: &mut [u64],
    handles: &mut [u64],
) -> usize
    requires rows_bound { first + rows ≤ end64 }
    requires rows_form { RowsForm rows starts.now (references lent) }
    requires records_room { RecordsRoom (length (unresolved_from first 0 (cut starts.now (references lent))))
        children.old ukinds.old handles.old }
    ensures { Noted (unresolved_from first 0 (cut starts.now
        (references lent.entry))) 0 result children.old
        ukinds.old handles.old children.new ukinds.new handles.new }
{
    let mut p = 0;
    for r in 0..rows {
        let from = index(starts[r]);
        let to = index(starts[r + 1]);
        let event = first + (r as u64);
        p = note_row(lent, from, to, event, children, ukinds, handles, p);
    }
    p
}
