// The covers of all groups: whether the labels of each keep rule 10, and their ranges, which stand one after the other in one table of records of three
// numbers: chain, least seq, greatest seq.
ghost use Rattle.std.specs.Prelude.{◌≡◌, [], ◌+◌, ◌*◌, ◌≤◌, ◌<◌, length, take, drop};
ghost use Rattle.columns.specs.Reading.{labels_of};
ghost use Rattle.columns.specs.Building.{seqs_rise};
ghost use Rattle.cover.specs.Chains.{ranges_of};
ghost use Rattle.archive_bytes.specs.Bytes.{several};
ghost use Rattle.run_section.specs.Tables.{field};
ghost use Rattle.run_section.specs.Sections.{SortedTable};
ghost use Rattle.run_section.specs.Covers.{Narrow, Labelled, labels_from, start_at, ranges_at, rises_at, ranges_in, laid, AddedTo, CoversAt};

use crate::places::rows_of;
use crate::{Counts, Span};
use columns_rules::seqs::seqs_rise;
use cover_sort::labels::ranges_of;
use run_state::Groups;

// Where the ranges of each group start in the table and those of the last end, and whether each group's seqs rise along each chain.
#[derive(Clone, Copy)]
pub struct Covers {
    pub ends: [usize; 17],
    pub rises: [bool; 16],
}

// The labels of rows, a column for each part.
#[derive(Clone, Copy)]
struct Labels {
    chains: [u32; 1024],
    seqs: [u32; 1024],
}

// The ranges of labels, a column for each part.
#[derive(Clone, Copy)]
struct Ranges {
    count: usize,
    ids: [u32; 1024],
    minima: [u32; 1024],
    maxima: [u32; 1024],
}

// How many ranges a group has, and whether its seqs rise.
#[derive(Clone, Copy)]
struct Added {
    count: usize,
    rises: bool,
}

// The numbers at place k of n rows from row a on.
fn column_of(rows: &[u64], a: usize, n: usize, k: usize) -> [u32; 1024]
    requires n_bound { (n ≤ 1024) × ((k < 4) × ((a + n) * 4 ≤ length rows.now)) }
    requires narrow { Narrow k (a + n) rows.now }
    ensures { take n result ≡ several 4 (field k) n (drop (a * 4) rows.now) }
{
    let mut out = [0u32; 1024];
    for i in 0..n {
        out[i] = rows[(a + i) * 4 + k] as u32;
    }
    out
}

// The labels of n rows from row a on.
fn labels_of(rows: &[u64], a: usize, n: usize) -> Labels
    requires n_bound { (n ≤ 1024) × ((a + n) * 4 ≤ length rows.now) }
    requires labelled { Labelled (a + n) rows.now }
    ensures { labels_of (take n result.chains) (take n result.seqs) ≡ labels_from rows.now a n }
{
    let chains = column_of(rows, a, n, 2);
    let seqs = column_of(rows, a, n, 3);
    Labels { chains, seqs }
}

// Whether the seqs of n labels rise along each chain.
fn labels_rise(l: Labels, n: usize) -> bool
    requires { n ≤ 1024 }
    ensures { result ≡ seqs_rise [] (labels_of (take n l.chains) (take n l.seqs)) }
{
    let chains = l.chains;
    let seqs = l.seqs;
    seqs_rise(&chains[..n], &seqs[..n])
}

// The ranges of n labels.
fn label_ranges(l: Labels, n: usize) -> Ranges
    requires { n ≤ 1024 }
    ensures { (ranges_in result ≡ ranges_of (labels_of (take n l.chains) (take n l.seqs))) × (result.count ≤ n) }
{
    let chains = l.chains;
    let seqs = l.seqs;
    let mut ids = [0u32; 1024];
    let mut minima = [0u32; 1024];
    let mut maxima = [0u32; 1024];
    let count = ranges_of(&chains[..n], &seqs[..n], &mut ids, &mut minima, &mut maxima);
    Ranges {
        count,
        ids,
        minima,
        maxima,
    }
}

// Stores ranges from record `at` of the table on.
fn lay_ranges(r: Ranges, table: &mut [u64; 3072], at: usize)
    requires { at + r.count ≤ 1024 }
    ensures { table.new ≡ laid at (ranges_in r) table.old }
{
    for i in 0..r.count {
        let p = 3 * (at + i);
        table[p] = r.ids[i] as u64;
        table[p + 1] = r.minima[i] as u64;
        table[p + 2] = r.maxima[i] as u64;
    }
}

// Stores the ranges of n rows from row a on.
fn add_ranges(rows: &[u64], a: usize, n: usize, table: &mut [u64; 3072], at: usize) -> Added
    requires n_bound { (at + n ≤ 1024) × ((a + n) * 4 ≤ length rows.now) }
    requires labelled { Labelled (a + n) rows.now }
    ensures { AddedTo (ranges_of (labels_from rows.now a n)) (seqs_rise [] (labels_from rows.now a n)) table.old table.new at result }
{
    let labels = labels_of(rows, a, n);
    let rises = labels_rise(labels, n);
    let ranges = label_ranges(labels, n);
    lay_ranges(ranges, table, at);
    Added {
        count: ranges.count,
        rises,
    }
}

// Stores the ranges of group g, if it has a cover, from record `at` of the table on.
fn add_group(
    z: Counts,
    groups: Groups,
    g: usize,
    rows: &[u64],
    table: &mut [u64; 3072],
    at: usize,
) -> Added
    requires rows_bound { (z.rows ≤ 1024) × ((g < 16) × (at ≤ start_at z rows.now g)) }
    requires sorted_table { SortedTable 4 z.rows rows.now }
    requires labelled { Labelled z.rows rows.now }
    ensures { AddedTo (ranges_at z groups rows.now g) (rises_at z groups rows.now g) table.old table.new at result }
{
    if groups.covered[g] == 0 {
        return Added {
            count: 0,
            rises: true,
        };
    }
    let s = rows_of(z, g, rows);
    add_ranges(rows, s.from, s.to - s.from, table, at)
}

// The covers of all groups.
pub fn covers_of(z: Counts, groups: Groups, rows: &[u64], ranges: &mut [u64; 3072]) -> Covers
    requires rows_bound { (z.rows ≤ 1024) × ((groups.count ≤ 16) × (length ranges.old ≡ 3072)) }
    requires sorted_table { SortedTable 4 z.rows rows.now }
    requires labelled { Labelled z.rows rows.now }
    ensures covers_at { CoversAt z groups rows.now ranges.new result }
    ensures ranges_len { length ranges.new ≡ 3072 }
{
    let mut ends = [0usize; 17];
    let mut rises = [true; 16];
    for g in 0..groups.count {
        let at = ends[g];
        let added = add_group(z, groups, g, rows, ranges, at);
        ends[g + 1] = at + added.count;
        rises[g] = added.rises;
    }
    Covers { ends, rises }
}
