// Whether columns are those of a run: a run is tested before it is used. A function that lends a column of a parameter would copy the parameter whole,
// so that each column is copied by itself.
ghost use Rattle.std.specs.Prelude.{◌≡◌, true, ◌+◌, ◌≤◌, ◌<◌, length};
ghost use Rattle.columns.specs.Limits.{end64};
ghost use Rattle.run_state.specs.Valid.{table_ok, counts_ok, sizes_of, columns_ok, sheet_ok, held_ok, once_ok};

use crate::tests::{are_below, are_in_file, once_ok, order_ok, table_ok};
use crate::{Edges, Held, Roots, Sheet, Unresolved};

// The numbers that the tests of a sheet's columns go by.
#[derive(Clone, Copy)]
struct Sizes {
    start: u64,
    rows: usize,
    numbers: usize,
    unresolved: usize,
    roots: usize,
}

fn counts_ok(s: Sheet) -> bool
    ensures { result ≡ counts_ok s }
{
    if 255 < s.subject.length {
        return false;
    }
    if 16 < s.groups.count {
        return false;
    }
    if 1024 < s.rows.count {
        return false;
    }
    if 1024 < s.unresolved.count {
        return false;
    }
    if 1024 < s.roots.count {
        return false;
    }
    if 1024 < s.links.count {
        return false;
    }
    s.start <= 18446744073709551615 - (s.rows.count as u64)
}

// How long the columns are that are tested: these functions do nothing.
fn edges_long(e: Edges)
    ensures { (length e.offsets ≡ 2049) × (length e.targets ≡ 4096) }
{}

fn children_long(u: Unresolved)
    ensures { length u.children ≡ 1024 }
{}

fn roots_long(r: Roots)
    ensures { length r.rows ≡ 1024 }
{}

fn sizes_of(s: Sheet) -> Sizes
    ensures { result ≡ sizes_of s }
{
    Sizes {
        start: s.start,
        rows: s.rows.count,
        numbers: s.edges.count,
        unresolved: s.unresolved.count,
        roots: s.roots.count,
    }
}

// Whether the lists of n rows are in form.
fn edges_ok(n: usize, count: usize, offsets: &[u64]) -> bool
    requires { (n ≤ 1024) × (length offsets.now ≡ 2049) }
    ensures { result ≡ table_ok n count offsets.now }
{
    if 4096 < count {
        return false;
    }
    table_ok(n, count, offsets)
}

// Whether lists are in form, records belong to rows that are there, and every number is below its event.
fn columns_ok(z: Sizes, offsets: &[u64], targets: &[u64], children: &[u64], roots: &[u64]) -> bool
    requires rows_bound { (z.rows ≤ 1024) × ((z.unresolved ≤ 1024) × ((z.roots ≤ 1024) × (z.start + z.rows < end64))) }
    requires offsets_len { (length offsets.now ≡ 2049) × (length targets.now ≡ 4096) }
    requires children_len { (length children.now ≡ 1024) × (length roots.now ≡ 1024) }
    ensures { result ≡ columns_ok z offsets.now targets.now children.now roots.now }
{
    if !edges_ok(z.rows, z.numbers, offsets) {
        return false;
    }
    if !are_in_file(z.start, z.rows, &children[..z.unresolved]) {
        return false;
    }
    if !are_below(z.rows as u64, &roots[..z.roots]) {
        return false;
    }
    order_ok(z.start, z.rows, z.numbers, offsets, targets)
}

// Whether a sheet is one of a run.
pub fn sheet_ok(s: Sheet) -> bool
    ensures { result ≡ sheet_ok s }
{
    if !counts_ok(s) {
        return false;
    }
    edges_long(s.edges);
    children_long(s.unresolved);
    roots_long(s.roots);
    let offsets = s.edges.offsets;
    let targets = s.edges.targets;
    let children = s.unresolved.children;
    let roots = s.roots.rows;
    columns_ok(sizes_of(s), &offsets, &targets, &children, &roots)
}

// Whether the lists of a sheet name each parent once, and none at or above its event.
pub fn is_once(s: Sheet) -> bool
    requires { sheet_ok s ≡ true }
    ensures { result ≡ once_ok s }
{
    edges_long(s.edges);
    let offsets = s.edges.offsets;
    let targets = s.edges.targets;
    once_ok(s.start, s.rows.count, s.edges.count, &offsets, &targets)
}

// Whether what is held is what a run holds.
pub fn ok(h: Held) -> bool
    ensures { result ≡ held_ok h }
{
    if !counts_ok(h.sheet) {
        return false;
    }
    edges_long(h.sheet.edges);
    children_long(h.sheet.unresolved);
    roots_long(h.sheet.roots);
    let offsets = h.sheet.edges.offsets;
    let targets = h.sheet.edges.targets;
    let children = h.sheet.unresolved.children;
    let roots = h.sheet.roots.rows;
    if !columns_ok(sizes_of(h.sheet), &offsets, &targets, &children, &roots) {
        return false;
    }
    let n = h.sheet.rows.count;
    edges_long(h.reverse);
    let reverse = h.reverse.offsets;
    if !edges_ok(n, h.reverse.count, &reverse) {
        return false;
    }
    edges_long(h.inbound);
    let inbound = h.inbound.offsets;
    edges_ok(n, h.inbound.count, &inbound)
}
