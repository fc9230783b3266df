// The unresolved records and the roots of the survivors, under the survivors' numbers.
ghost use Rattle.std.specs.Prelude.{◌≡◌, true, ◌+◌, ◌^◌, ◌-◌, ◌≤◌, length, take};
ghost use Rattle.lists.specs.Lists.{all};
ghost use Rattle.columns.specs.Building.{in_file};
ghost use Rattle.cleaning.specs.Survivors.{keep_unresolved, keep_roots};
ghost use Rattle.run_state.specs.View.{listed, unresolved_at, root_at};
ghost use Rattle.run_state.specs.Valid.{below};
ghost use Rattle.run_state.specs.ByColumns.{unresolved_of, roots_of};
ghost use Rattle.run_compact.specs.Columns.{gone};

use run_state::{Roots, Unresolved};

// The unresolved records of rows that survive, their children under new numbers, in place; answers how many they are.
pub fn renew_unresolved(
    children: &mut [u64; 1024],
    kinds: &mut [u8; 1024],
    handles: &mut [u32; 1024],
    count: usize,
    flags: &[u8],
    start: u64,
) -> usize
    requires count_bound { (count ≤ 1024) × ((length flags.now ≤ 1024) × (start + length flags.now ≤ 2 ^ 64 - 1)) }
    requires children_value { all (in_file start (start + length flags.now)) (take count children.old) ≡ true }
    ensures result_after { listed (unresolved_at (unresolved_of result children.new kinds.new handles.new)) result
        ≡ keep_unresolved start (gone flags.now) (listed (unresolved_at (unresolved_of count children.old kinds.old handles.old)) count) }
    ensures upper_bound { result ≤ count }
{
    if count == 0 {
        return 0;
    }
    let numbers = crate::sheet::renewed::new_numbers(flags, start);
    let n = crate::sheet::kept::keep_unresolved(children, kinds, handles, count, flags, start);
    run_compact::following::move_rows(children, n, &numbers, start, 0);
    n
}

// The unresolved records of rows that survive, their children under new numbers.
pub fn new_unresolved(u: Unresolved, flags: &[u8], start: u64) -> Unresolved
    requires count_bound { (u.count ≤ 1024) × ((length flags.now ≤ 1024) × (start + length flags.now ≤ 2 ^ 64 - 1)) }
    requires children_len { (length u.children ≡ 1024) × (all (in_file start (start + length flags.now)) (take u.count u.children) ≡ true) }
    ensures count_value { listed (unresolved_at result) result.count ≡ keep_unresolved start (gone flags.now) (listed (unresolved_at u) u.count) }
    ensures count_le_count { result.count ≤ u.count }
{
    let mut children = u.children;
    let mut kinds = u.kinds;
    let mut handles = u.handles;
    let n = renew_unresolved(
        &mut children,
        &mut kinds,
        &mut handles,
        u.count,
        flags,
        start,
    );
    Unresolved {
        count: n,
        children,
        kinds,
        handles,
    }
}

// The roots of rows that survive, at their new rows, in place; answers how many they are.
pub fn renew_roots(
    rows: &mut [u64; 1024],
    handles: &mut [u64; 1024],
    count: usize,
    flags: &[u8],
    start: u64,
) -> usize
    requires count_bound { (count ≤ 1024) × ((length flags.now ≤ 1024) × (start + length flags.now ≤ 2 ^ 64 - 1)) }
    requires rows_value { all (below (length flags.now)) (take count rows.old) ≡ true }
    ensures result_after { listed (root_at (roots_of result rows.new handles.new)) result
        ≡ keep_roots (gone flags.now) (listed (root_at (roots_of count rows.old handles.old)) count) }
    ensures upper_bound { result ≤ count }
{
    if count == 0 {
        return 0;
    }
    let numbers = crate::sheet::renewed::new_numbers(flags, start);
    let n = crate::sheet::kept::keep_roots(rows, handles, count, flags);
    run_compact::following::move_rows(rows, n, &numbers, 0, start);
    n
}

// The roots of rows that survive, at their new rows.
pub fn new_roots(r: Roots, flags: &[u8], start: u64) -> Roots
    requires count_bound { (r.count ≤ 1024) × ((length flags.now ≤ 1024) × (start + length flags.now ≤ 2 ^ 64 - 1)) }
    requires rows_len { (length r.rows ≡ 1024) × (all (below (length flags.now)) (take r.count r.rows) ≡ true) }
    ensures count_value { listed (root_at result) result.count ≡ keep_roots (gone flags.now) (listed (root_at r) r.count) }
    ensures count_le_count { result.count ≤ r.count }
{
    let mut rows = r.rows;
    let mut handles = r.handles;
    let n = renew_roots(&mut rows, &mut handles, r.count, flags, start);
    Roots {
        count: n,
        rows,
        handles,
    }
}
