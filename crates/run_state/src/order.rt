// Whether a sheet is in order: groups, roots and records that stand one after the other, every group with a row.
pub mod long;

ghost use Rattle.std.specs.Prelude.{◌≡◌, true, ◌≤◌, length, take};
ghost use Rattle.lists.specs.Lists.{all};
ghost use Rattle.lists.specs.Order.{not_falling};
ghost use Rattle.cleaning.specs.Sections.{reaches};
ghost use Rattle.run_state.specs.Valid.{below, counts_ok};
ghost use Rattle.run_state.specs.order.Ordered.{groups_ordered, counts_in, columns_ordered, ordered, filled};

use crate::Sheet;
use archive_store::order::{is_level, rises};
use long::sheet_long;

// Whether none of the first n groups falls.
fn groups_level(groups: &[u8], n: usize) -> bool
    requires { n ≤ length groups.now }
    ensures { result ≡ not_falling (take n groups.now) }
{
    let mut low: u8 = 0;
    for i in 0..n {
        let g = groups[i];
        if g < low {
            return false;
        }
        low = g;
    }
    true
}

// Whether each group is below the count of groups.
fn groups_there(groups: &[u8], count: usize) -> bool
    ensures { result ≡ all (below count) groups.now }
{
    groups.iter().all(|&g| usize::from(g) < count)
}

// Both.
fn groups_ordered(groups: &[u8], n: usize, count: usize) -> bool
    requires { n ≤ length groups.now }
    ensures { result ≡ groups_ordered count n groups.now }
{
    groups_level(groups, n) && groups_there(&groups[..n], count)
}

// Whether every group up to the count has one of the first n rows, whose groups don't fall.
fn reaches_all(groups: &[u8], n: usize, count: usize) -> bool
    requires { n ≤ length groups.now }
    ensures { result ≡ reaches count 0 (take n groups.now) }
{
    let mut seen: usize = 0;
    for i in 0..n {
        if usize::from(groups[i]) == seen {
            seen += 1;
        }
    }
    seen == count
}

// The numbers that the tests of a sheet's columns go by.
#[derive(Clone, Copy)]
struct Counts {
    groups: usize,
    rows: usize,
    links: usize,
    roots: usize,
    unresolved: usize,
}

fn counts_of(s: Sheet) -> Counts
    ensures { result ≡ counts_in s }
{
    Counts {
        groups: s.groups.count,
        rows: s.rows.count,
        links: s.links.count,
        roots: s.roots.count,
        unresolved: s.unresolved.count,
    }
}

// Whether the groups of rows and of links, the rows of roots and the children of unresolved records are in order.
fn columns_ordered(z: Counts, rows: &[u8], links: &[u8], roots: &[u64], children: &[u64]) -> bool
    requires rows_bound { (z.rows ≤ 1024) × ((z.links ≤ 1024) × ((z.roots ≤ 1024) × (z.unresolved ≤ 1024))) }
    requires rows_len { (length rows.now ≡ 1024) × (length links.now ≡ 1024) }
    requires roots_len { (length roots.now ≡ 1024) × (length children.now ≡ 1024) }
    ensures { result ≡ columns_ordered z rows.now links.now roots.now children.now }
{
    if !groups_ordered(rows, z.rows, z.groups) {
        return false;
    }
    if !groups_ordered(links, z.links, z.groups) {
        return false;
    }
    if !rises(roots, z.roots) {
        return false;
    }
    is_level(children, z.unresolved)
}

// Whether a sheet's columns are in order. Each column is copied by itself: to lend one of a parameter would copy the parameter whole.
pub fn is_ordered(s: Sheet) -> bool
    requires { counts_ok s ≡ true }
    ensures { result ≡ ordered s }
{
    sheet_long(s);
    let rows = s.rows.groups;
    let links = s.links.groups;
    let roots = s.roots.rows;
    let children = s.unresolved.children;
    columns_ordered(counts_of(s), &rows, &links, &roots, &children)
}

// Whether every group of a sheet has a row.
pub fn is_filled(s: Sheet) -> bool
    requires { counts_ok s ≡ true }
    ensures { result ≡ filled s }
{
    sheet_long(s);
    let rows = s.rows.groups;
    reaches_all(&rows, s.rows.count, s.groups.count)
}
