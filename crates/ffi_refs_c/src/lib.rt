// The functions of `ffi_refs` for programs in C or Rust: each calls the proved function of its name, and promises what that promises.
#![tactic(auto)]

ghost use Rattle.std.specs.Prelude.{length};
ghost use Rattle.columns_refs.specs.References.{resolve_graph};
ghost use Rattle.columns_refs.specs.Resolved.{referred, slices_of};
ghost use Rattle.ffi_refs.specs.Numbers.{Told};

use ffi_refs::Resolved;

// The parent lists of a file's rows as slot offsets and targets, and the unresolved records in three columns. Row r has the references from place
// starts[r] up to starts[r + 1]; beside each stands the answer of its lookup, whether it is known, 0 for no, and its number.
#[unsafe(no_mangle)]
pub extern "C" fn ridgeoven_resolve_graph(
    first: u64,
    rows: usize,
    starts: &[u64],
    kinds: &[u8],
    spaces: &[u8],
    targets: &[u64],
    known: &[u8],
    numbers: &[u64],
    offsets: &mut [u64],
    parents: &mut [u64],
    children: &mut [u64],
    ukinds: &mut [u64],
    handles: &mut [u64],
) -> Resolved
    ensures { Told (resolve_graph (referred first rows starts.now kinds.now spaces.now targets.now
        known.now numbers.now) (slices_of (length offsets.old) (length parents.old) (length children.old)
        (length ukinds.old) (length handles.old))) result offsets.old parents.old children.old ukinds.old
        handles.old offsets.new parents.new children.new ukinds.new handles.new }
{
    ffi_refs::ridgeoven_resolve_graph(
        first, rows, starts, kinds, spaces, targets, known, numbers, offsets, parents, children,
        ukinds, handles,
    )
}
