// The parts of a whole cleaning: each fills columns of zeros from the files of an archive, and keeps of them what survives. `h` holds nothing and is
// what the contracts speak of: no column of it is read.
ghost use Rattle.std.specs.Prelude.{◌≡◌, true, ◌+◌, ◌^◌, ◌-◌, ◌≤◌, length, take};
ghost use Rattle.columns.specs.Limits.{kinds};
ghost use Rattle.lists.specs.Lists.{all};
ghost use Rattle.lists.specs.Order.{not_falling};
ghost use Rattle.columns.specs.Building.{in_file};
ghost use Rattle.run_renumber.specs.NewLists.{new_lists};
ghost use Rattle.cleaning.specs.Survivors.{keep_unresolved, keep_roots, sort_groups};
ghost use Rattle.run_state.specs.Blank.{zeros};
ghost use Rattle.run_state.specs.View.{listed, unresolved_at, root_at, link_at, slots_in};
ghost use Rattle.run_state.specs.Valid.{edges_ok, below};
ghost use Rattle.run_compact.specs.Columns.{gone};
ghost use Rattle.run_state.specs.order.Long.{LongLinks};
ghost use Rattle.run_state.specs.ByColumns.{rows_of, unresolved_of, roots_of, links_of};
ghost use Rattle.run_resolve.specs.parents.Renewal.{Renewal, renewed_of};
ghost use Rattle.run_store.specs.turns.Parts.{stored};
ghost use Rattle.run_clean.specs.Survived.{Alone};

use run_resolve::links::sort_into;
use run_resolve::parents::renew;
use run_resolve::records::{renew_roots, renew_unresolved};
use run_state::Held;
use run_store::links::grow_links;
use run_store::records::{grow_roots, grow_unresolved};
use run_store::rows::{grow_flags, grow_rows};
use run_store::sets::{Side, grow_set};

// The rows of the files and which of them are erased; answers how many rows there are.
pub fn fill_rows(
    h: Held,
    bytes: &[u8],
    groups: &mut [u8; 1024],
    tags: &mut [u64; 1024],
    chains: &mut [u32; 1024],
    seqs: &mut [u32; 1024],
    flags: &mut [u8; 1024],
) -> usize
    requires alone { Alone h bytes.now }
    requires groups_value { (groups.old ≡ zeros 1024) × ((tags.old ≡ zeros 1024) × ((chains.old ≡ zeros 1024) × ((seqs.old ≡ zeros 1024) × (flags.old ≡ zeros 1024)))) }
    ensures seqs_after { rows_of result groups.new tags.new chains.new seqs.new ≡ (stored h bytes.now).rows }
    ensures flags_after { flags.new ≡ (stored h bytes.now).erased }
{
    let n = grow_rows(h, groups, tags, chains, seqs, 0, bytes);
    grow_flags(h, flags, 0, bytes);
    n
}

// The new lists of the rows that survive, of n rows; the last three arrays are work space.
pub fn fill_lists(
    h: Held,
    bytes: &[u8],
    start: u64,
    n: usize,
    flags: &[u8],
    offsets: &mut [u64; 2049],
    targets: &mut [u64; 4096],
    offs: &mut [u64; 2049],
    all: &mut [u64; 4096],
    deltas: &mut [i64; 4096],
) -> Option<usize>
    requires alone { Alone h bytes.now }
    requires offsets_value { (offsets.old ≡ zeros 2049) × (targets.old ≡ zeros 4096) }
    requires n_bound { (n ≤ 1024) × ((length flags.now ≡ 1024) × (start + n ≤ 2 ^ 64 - 1)) }
    requires bytes_value { edges_ok n (stored h bytes.now).edges ≡ true }
    ensures { Renewal (take n flags.now) (new_lists kinds start (take n flags.now) (slots_in n (stored h bytes.now).edges))
        (renewed_of result offsets.new targets.new) }
{
    let m = grow_set(
        h,
        Side::Forward,
        offsets,
        targets,
        0,
        0,
        offs,
        deltas,
        bytes,
    );
    renew(start, n, m, flags, offsets, targets, offs, all)
}

// The unresolved records of the rows that survive, by the flags of all rows; answers how many they are.
pub fn fill_unresolved(
    h: Held,
    bytes: &[u8],
    start: u64,
    flags: &[u8],
    children: &mut [u64; 1024],
    kinds: &mut [u8; 1024],
    handles: &mut [u32; 1024],
) -> usize
    requires alone { Alone h bytes.now }
    requires children_value { (children.old ≡ zeros 1024) × ((kinds.old ≡ zeros 1024) × (handles.old ≡ zeros 1024)) }
    requires bytes_bound { ((stored h bytes.now).unresolved.count ≤ 1024) × ((length flags.now ≤ 1024) × (start + length flags.now ≤ 2 ^ 64 - 1)) }
    requires bytes_value { all (in_file start (start + length flags.now)) (take (stored h bytes.now).unresolved.count (stored h bytes.now).unresolved.children) ≡ true }
    ensures result_after { listed (unresolved_at (unresolved_of result children.new kinds.new handles.new)) result
        ≡ keep_unresolved start (gone flags.now) (listed (unresolved_at (stored h bytes.now).unresolved) (stored h bytes.now).unresolved.count) }
    ensures upper_bound { result ≤ (stored h bytes.now).unresolved.count }
{
    let n = grow_unresolved(h, children, kinds, handles, 0, bytes);
    renew_unresolved(children, kinds, handles, n, flags, start)
}

// The roots of the rows that survive, by the flags of all rows; answers how many they are.
pub fn fill_roots(
    h: Held,
    bytes: &[u8],
    start: u64,
    flags: &[u8],
    rows: &mut [u64; 1024],
    handles: &mut [u64; 1024],
) -> usize
    requires alone { Alone h bytes.now }
    requires rows_value { (rows.old ≡ zeros 1024) × (handles.old ≡ zeros 1024) }
    requires bytes_bound { ((stored h bytes.now).roots.count ≤ 1024) × ((length flags.now ≤ 1024) × (start + length flags.now ≤ 2 ^ 64 - 1)) }
    requires bytes_value { all (below (length flags.now)) (take (stored h bytes.now).roots.count (stored h bytes.now).roots.rows) ≡ true }
    ensures result_after { listed (root_at (roots_of result rows.new handles.new)) result
        ≡ keep_roots (gone flags.now) (listed (root_at (stored h bytes.now).roots) (stored h bytes.now).roots.count) }
    ensures upper_bound { result ≤ (stored h bytes.now).roots.count }
{
    let n = grow_roots(h, rows, handles, 0, 0, bytes);
    renew_roots(rows, handles, n, flags, start)
}

// The links of `count` groups, each group's sorted, repeats dropped; answers how many they are.
pub fn fill_links(
    h: Held,
    bytes: &[u8],
    count: usize,
    out: &mut [u8; 1024],
    x: &mut [u32; 1024],
    y: &mut [u32; 1024],
    z: &mut [u32; 1024],
    w: &mut [u32; 1024],
) -> usize
    requires alone { Alone h bytes.now }
    requires long_links { LongLinks (stored h bytes.now).links }
    requires bytes_bound { ((stored h bytes.now).links.count ≤ 1024) × ((count ≤ 16) × (not_falling (take (stored h bytes.now).links.count (stored h bytes.now).links.groups) ≡ true)) }
    ensures { (result ≤ 1024) × (listed (link_at (links_of result out.new x.new y.new z.new w.new)) result
        ≡ sort_groups count (listed (link_at (stored h bytes.now).links) (stored h bytes.now).links.count)) }
{
    let mut groups = [0u8; 1024];
    let mut a = [0u32; 1024];
    let mut b = [0u32; 1024];
    let mut c = [0u32; 1024];
    let mut d = [0u32; 1024];
    let n = grow_links(h, &mut groups, &mut a, &mut b, &mut c, &mut d, 0, bytes);
    sort_into(&groups, &a, &b, &c, &d, n, count, out, x, y, z, w)
}
