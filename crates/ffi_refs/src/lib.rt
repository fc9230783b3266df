// Parent lists and unresolved records out of references, for programs in C or Rust, answered by numbers.
#![tactic(auto)]

ghost use Rattle.std.specs.Prelude.{◌≡◌, length};
ghost use Rattle.columns_refs.specs.References.{resolve_graph};
ghost use Rattle.columns_refs.specs.Resolved.{referred, slices_of};
ghost use Rattle.ffi_refs.specs.Numbers.{told_of, Told};

use columns::refusal::Refusal;
use columns_refs::Made;

// How many targets the parent lists have, and how many unresolved records there are.
#[repr(C)]
#[derive(Clone, Copy)]
pub struct Resolved {
    pub refusal: u64,
    pub parents: usize,
    pub unresolved: usize,
}

impl From<Result<Made, Refusal>> for Resolved {
    ghost from_gives = { λ made resolved. resolved ≡ told_of made };

    fn from(made: Result<Made, Refusal>) -> Resolved {
        match made {
            Ok(made) => Resolved {
                refusal: 0,
                parents: made.parents,
                unresolved: made.unresolved,
            },
            Err(why) => Resolved {
                refusal: why.number(),
                parents: 0,
                unresolved: 0,
            },
        }
    }
}

// The parent lists of a file's rows as slot offsets and targets, and the unresolved records in three columns. Row r has the references from place
// starts[r] up to starts[r + 1]; beside each stands the answer of its lookup, whether it is known, 0 for no, and its number.
pub fn ridgeoven_resolve_graph(
    first: u64,
    rows: usize,
    starts: &[u64],
    kinds: &[u8],
    spaces: &[u8],
    targets: &[u64],
    known: &[u8],
    numbers: &[u64],
    offsets: &mut [u64],
    parents: &mut [u64],
    children: &mut [u64],
    ukinds: &mut [u64],
    handles: &mut [u64],
) -> Resolved
    ensures { Told (resolve_graph (referred first rows starts.now kinds.now spaces.now targets.now
        known.now numbers.now) (slices_of (length offsets.old) (length parents.old) (length children.old)
        (length ukinds.old) (length handles.old))) result offsets.old parents.old children.old ukinds.old
        handles.old offsets.new parents.new children.new ukinds.new handles.new }
{
    Resolved::from(columns_refs::resolve_graph(
        first, rows, starts, kinds, spaces, targets, known, numbers, offsets, parents, children,
        ukinds, handles,
    ))
}
