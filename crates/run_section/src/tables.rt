// The columns of a run's survivors side by side as tables: each function fills the first n records of one, column by column.
ghost use Rattle.std.specs.Prelude.{◌*◌, ◌^◌, ◌≤◌, ◌<◌, length};
ghost use Rattle.columns.specs.Limits.{end64};
ghost use Rattle.run_section.specs.Laid.{ColumnPut, RowsLaid, UnresolvedLaid, RootsLaid, LinksLaid};

use archive_bytes::{long, wide};

// A column as number k of each of the first n records of width w: one function for each width of its numbers.
fn put_bytes(column: &[u8], w: usize, k: usize, n: usize, out: &mut [u64])
    requires { (k < w) × (n ≤ length column.now) × (n * w ≤ length out.old) }
    ensures { ColumnPut w k n 256 column.now out.old out.new }
{
    let mut p = k;
    for i in 0..n {
        out[p] = wide(column[i]);
        p += w;
    }
}

fn put_longs(column: &[u32], w: usize, k: usize, n: usize, out: &mut [u64])
    requires { (k < w) × (n ≤ length column.now) × (n * w ≤ length out.old) }
    ensures { ColumnPut w k n (2 ^ 32) column.now out.old out.new }
{
    let mut p = k;
    for i in 0..n {
        out[p] = long(column[i]);
        p += w;
    }
}

fn put_numbers(column: &[u64], w: usize, k: usize, n: usize, out: &mut [u64])
    requires { (k < w) × (n ≤ length column.now) × (n * w ≤ length out.old) }
    ensures { ColumnPut w k n end64 column.now out.old out.new }
{
    let mut p = k;
    for i in 0..n {
        out[p] = column[i];
        p += w;
    }
}

pub fn rows_table(
    groups: &[u8],
    tags: &[u64],
    chains: &[u32],
    seqs: &[u32],
    n: usize,
    out: &mut [u64; 4096],
)
    requires { (n ≤ 1024) × (n ≤ length groups.now) × (n ≤ length tags.now) × (n ≤ length chains.now) × (n ≤ length seqs.now) }
    ensures { RowsLaid n groups.now tags.now chains.now seqs.now out.new }
{
    put_bytes(groups, 4, 0, n, out);
    put_numbers(tags, 4, 1, n, out);
    put_longs(chains, 4, 2, n, out);
    put_longs(seqs, 4, 3, n, out);
}

pub fn unresolved_table(
    children: &[u64],
    kinds: &[u8],
    handles: &[u32],
    n: usize,
    out: &mut [u64; 3072],
)
    requires { (n ≤ 1024) × (n ≤ length children.now) × (n ≤ length kinds.now) × (n ≤ length handles.now) }
    ensures { UnresolvedLaid n children.now kinds.now handles.now out.new }
{
    put_numbers(children, 3, 0, n, out);
    put_bytes(kinds, 3, 1, n, out);
    put_longs(handles, 3, 2, n, out);
}

pub fn roots_table(rows: &[u64], handles: &[u64], n: usize, out: &mut [u64; 2048])
    requires { (n ≤ 1024) × (n ≤ length rows.now) × (n ≤ length handles.now) }
    ensures { RootsLaid n rows.now handles.now out.new }
{
    put_numbers(rows, 2, 0, n, out);
    put_numbers(handles, 2, 1, n, out);
}

// The ends of a link are a and b, c and d: chain and seq of each.
pub fn links_table(
    groups: &[u8],
    a: &[u32],
    b: &[u32],
    c: &[u32],
    d: &[u32],
    n: usize,
    out: &mut [u64; 5120],
)
    requires { (n ≤ 1024) × (n ≤ length groups.now) × (n ≤ length a.now) × (n ≤ length b.now) × (n ≤ length c.now) × (n ≤ length d.now) }
    ensures { LinksLaid n groups.now a.now b.now c.now d.now out.new }
{
    put_bytes(groups, 5, 0, n, out);
    put_longs(a, 5, 1, n, out);
    put_longs(b, 5, 2, n, out);
    put_longs(c, 5, 3, n, out);
    put_longs(d, 5, 4, n, out);
}
