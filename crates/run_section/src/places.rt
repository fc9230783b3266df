// Where the records of a group stand. In each table the first number of a record is its key, and keys do not fall.
ghost use Rattle.std.specs.Prelude.{◌≡◌, ◌+◌, ◌≤◌, ◌<◌};
ghost use Rattle.columns.specs.Limits.{end64};
ghost use Rattle.cleaning.specs.Sections.{place};
ghost use Rattle.run_section.specs.Tables.{keys};
ghost use Rattle.run_section.specs.Sections.{SortedTable, Sorted, SpanAt, SectionAt};

use crate::{Counts, Section, Span};

// A place between two others.
fn between(low: usize, high: usize) -> usize
    requires { low < high }
    ensures { (low ≤ result) × (result < high) }
{
    low + (high - low) / 2
}

// How many of the n records of a table have a key below x.
fn place_of(table: &[u64], width: usize, n: usize, x: u64) -> usize
    requires { SortedTable width n table.now }
    ensures { result ≡ place x (keys width n table.now) }
{
    let mut low = 0;
    let mut high = n;
    // No `for`: what is left is halved.
    while low < high {
        let middle = between(low, high);
        if table[middle * width] < x {
            low = middle + 1;
        } else {
            high = middle;
        }
    }
    low
}

// The records whose key is from low up to high.
fn span_of(table: &[u64], width: usize, n: usize, low: u64, high: u64) -> Span
    requires { (SortedTable width n table.now) × (low ≤ high) }
    ensures { SpanAt width n table.now low high result }
{
    let from = place_of(table, width, n, low);
    let to = place_of(table, width, n, high);
    Span { from, to }
}

// The rows of group g.
pub fn rows_of(z: Counts, g: usize, rows: &[u64]) -> Span
    requires { (g < 16) × (SortedTable 4 z.rows rows.now) }
    ensures { SpanAt 4 z.rows rows.now g (g + 1) result }
{
    let low = g as u64;
    span_of(rows, 4, z.rows, low, low + 1)
}

// The section of group g.
pub fn section_of(
    z: Counts,
    g: usize,
    rows: &[u64],
    unresolved: &[u64],
    roots: &[u64],
    links: &[u64],
) -> Section
    requires g_bound { (g < 16) × (z.start + z.rows < end64) }
    requires sorted { Sorted z rows.now unresolved.now roots.now links.now }
    ensures { SectionAt z g rows.now unresolved.now roots.now links.now result }
{
    let low = g as u64;
    let high = low + 1;
    let r = span_of(rows, 4, z.rows, low, high);
    let a = r.from as u64;
    let b = r.to as u64;
    let u = span_of(unresolved, 3, z.unresolved, z.start + a, z.start + b);
    let k = span_of(roots, 2, z.roots, a, b);
    let l = span_of(links, 5, z.links, low, high);
    Section {
        rows: r,
        unresolved: u,
        roots: k,
        links: l,
    }
}
