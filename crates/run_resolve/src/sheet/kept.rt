// The rows and records of a run without its erased rows.
ghost use Rattle.std.specs.Prelude.{◌≡◌, ◌≤◌, length, take};
ghost use Rattle.run_compact.specs.Columns.{flags_of};
ghost use Rattle.run_state.specs.ByColumns.{rows_of, unresolved_of, roots_of};
ghost use Rattle.run_resolve.specs.sheet.Kept.{RowsKept, UnresolvedKept, RootsKept};

use run_compact::following::put_flags;
use run_compact::keep::keep;
use run_state::Rows;

// The rows whose flags are 0, in place; answers how many they are.
pub fn keep_rows(
    groups: &mut [u8; 1024],
    tags: &mut [u64; 1024],
    chains: &mut [u32; 1024],
    seqs: &mut [u32; 1024],
    flags: &[u8],
) -> usize
    requires { length flags.now ≤ 1024 }
    ensures { RowsKept flags.now (rows_of (length flags.now) groups.old tags.old chains.old seqs.old)
        (rows_of result groups.new tags.new chains.new seqs.new) }
{
    keep(groups, flags);
    keep(tags, flags);
    keep(chains, flags);
    keep(seqs, flags)
}

// The rows whose flags are 0.
pub fn kept_rows(r: Rows, flags: &[u8]) -> Rows
    requires { (length flags.now ≡ r.count) × (r.count ≤ 1024) }
    ensures { RowsKept flags.now r result }
{
    let mut groups = r.groups;
    let mut tags = r.tags;
    let mut chains = r.chains;
    let mut seqs = r.seqs;
    let n = keep_rows(&mut groups, &mut tags, &mut chains, &mut seqs, flags);
    Rows {
        count: n,
        groups,
        tags,
        chains,
        seqs,
    }
}

// The unresolved records whose own flags are 0, in place; answers how many they are.
fn compact_unresolved(
    children: &mut [u64; 1024],
    kinds: &mut [u8; 1024],
    handles: &mut [u32; 1024],
    gone: &[u8],
) -> usize
    requires { length gone.now ≤ 1024 }
    ensures unresolved_kept { UnresolvedKept gone.now (unresolved_of (length gone.now) children.old kinds.old handles.old)
        (unresolved_of result children.new kinds.new handles.new) }
    ensures children_len { length children.new ≡ 1024 }
{
    keep(kinds, gone);
    keep(handles, gone);
    keep(children, gone)
}

// The unresolved records of rows that survive, by the flags of the rows, in place; answers how many they are.
pub fn keep_unresolved(
    children: &mut [u64; 1024],
    kinds: &mut [u8; 1024],
    handles: &mut [u32; 1024],
    count: usize,
    flags: &[u8],
    start: u64,
) -> usize
    requires { count ≤ 1024 }
    ensures unresolved_kept { UnresolvedKept (flags_of start flags.now (take count children.old)) (unresolved_of count children.old kinds.old handles.old)
        (unresolved_of result children.new kinds.new handles.new) }
    ensures children_len { length children.new ≡ 1024 }
{
    let mut gone = [0u8; 1024];
    put_flags(&mut gone, children, count, flags, start);
    compact_unresolved(children, kinds, handles, &gone[..count])
}

// The roots whose own flags are 0, in place; answers how many they are.
fn compact_roots(rows: &mut [u64; 1024], handles: &mut [u64; 1024], gone: &[u8]) -> usize
    requires { length gone.now ≤ 1024 }
    ensures roots_kept { RootsKept gone.now (roots_of (length gone.now) rows.old handles.old)
        (roots_of result rows.new handles.new) }
    ensures rows_len { length rows.new ≡ 1024 }
{
    keep(handles, gone);
    keep(rows, gone)
}

// The roots of rows that survive, by the flags of the rows, in place; answers how many they are.
pub fn keep_roots(
    rows: &mut [u64; 1024],
    handles: &mut [u64; 1024],
    count: usize,
    flags: &[u8],
) -> usize
    requires { count ≤ 1024 }
    ensures roots_kept { RootsKept (flags_of 0 flags.now (take count rows.old)) (roots_of count rows.old handles.old)
        (roots_of result rows.new handles.new) }
    ensures rows_len { length rows.new ≡ 1024 }
{
    let mut gone = [0u8; 1024];
    put_flags(&mut gone, rows, count, flags, 0);
    compact_roots(rows, handles, &gone[..count])
}
