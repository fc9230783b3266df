// `resolve_graph`: parent lists and unresolved records out of the references of a file's rows.
#![tactic(auto)]

mod parents;
mod records;
mod refs;
mod rules;

ghost use Rattle.std.specs.Prelude.{length, Ok};
ghost use Rattle.columns.specs.Refusal.{accepted};
ghost use Rattle.columns_refs.specs.References.{resolution_of, resolve_graph};
ghost use Rattle.columns_refs.specs.Lent.{referred_lent};
ghost use Rattle.columns_refs.specs.Resolved.{referred, slices_of, Ready, Answers};

use columns::refusal::Refusal;
use parents::write_lists;
use records::note_rows;
use refs::Lent;
use rules::resolve_rules;

// How many targets the parent lists have, and how many unresolved records there are.
#[derive(Clone, Copy)]
pub struct Made {
    pub parents: usize,
    pub unresolved: usize,
}

// Writes the parent lists and the unresolved records of references that nothing refuses.
fn write_all(
    first: u64,
    rows: usize,
    starts: &[u64],
    lent: Lent,
    offsets: &mut [u64],
    parents: &mut [u64],
    children: &mut [u64],
    ukinds: &mut [u64],
    handles: &mut [u64],
) -> Made
    requires { Ready (referred_lent first rows starts.now lent) offsets.old parents.old children.old ukinds.old handles.old }
    ensures { Answers (accepted (resolution_of (referred_lent first rows starts.now lent.entry))) (Ok result) offsets.old parents.old children.old ukinds.old
        handles.old offsets.new parents.new children.new ukinds.new handles.new }
{
    let made = write_lists(rows, starts, lent, offsets, parents);
    let noted = note_rows(first, rows, starts, lent, children, ukinds, handles);
    Made {
        parents: made,
        unresolved: noted,
    }
}

// Makes parent lists of the references of a file's rows, slot offsets into `offsets` and targets into `parents`, and a record of each prev or
// auth reference that names nothing into `children`, `ukinds` and `handles`. Row r has the references from place starts[r] up to
// starts[r + 1]; each has a kind, a space and a target, and beside them the answer of its lookup: whether it is known, 0 for no, and its
// number. A refusal leaves all five slices as they were.
pub fn resolve_graph(
    first: u64,
    rows: usize,
    starts: &[u64],
    kinds: &[u8],
    spaces: &[u8],
    targets: &[u64],
    known: &[u8],
    numbers: &[u64],
    offsets: &mut [u64],
    parents: &mut [u64],
    children: &mut [u64],
    ukinds: &mut [u64],
    handles: &mut [u64],
) -> Result<Made, Refusal>
    ensures { Answers (resolve_graph (referred first rows starts.now kinds.now spaces.now targets.now
        known.now numbers.now) (slices_of (length offsets.old) (length parents.old) (length children.old)
        (length ukinds.old) (length handles.old))) result offsets.old parents.old children.old ukinds.old
        handles.old offsets.new parents.new children.new ukinds.new handles.new }
{
    let lent = Lent {
        kinds,
        spaces,
        targets,
        known,
        numbers,
    };
    resolve_rules(
        first,
        rows,
        starts,
        lent,
        offsets.len(),
        parents.len(),
        children.len(),
        ukinds.len(),
        handles.len(),
    )?;
    Ok(write_all(
        first, rows, starts, lent, offsets, parents, children, ukinds, handles,
    ))
}
