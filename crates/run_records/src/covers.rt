// The cover of a file: labels, ranges and links.
ghost use Rattle.std.specs.Prelude.{◌≡◌, map, ◌+◌, ◌*◌, ◌≤◌, ◌<◌, ◌^◌, length, drop};
ghost use Rattle.std.proofs.lemmas.List.Edits.{sets};
ghost use Rattle.columns.specs.Limits.{max_records};
ghost use Rattle.cover.specs.Cover.{columns_of};
ghost use Rattle.archive_bytes.specs.Bytes.{several};
ghost use Rattle.archive.specs.Encode.{record_bytes, range_bytes, links_bytes, cover_bytes, counted_bytes};
ghost use Rattle.archive_store.specs.Lent.{links_size};
ghost use Rattle.archive_store.specs.records.Sizes.{cover_body};
ghost use Rattle.run_section.specs.Tables.{link_in};
ghost use Rattle.run_records.specs.Stored.{range_in, cover_in};
ghost use Rattle.run_records.specs.Narrow.{LabelTable, RangeTable, LinkTable};

use crate::strided::{store_differences, store_halves, store_two};
use archive_bytes::store_u32;
use archive_store::heads::store_start;

// The number of ranges, and the ranges.
fn store_ranges(out: &mut [u8], at: usize, ranges: &[u64], q: usize, n: usize)
    requires { (at + (4 + 12 * n) ≤ length out.old) × (n < 2 ^ 32) × RangeTable n q ranges.now }
    ensures { out.new ≡ sets out.old at (counted_bytes range_bytes (several 3 range_in n (drop q ranges.now))) }
{
    store_u32(out, at, n as u64);
    store_halves(out, at + 4, ranges, q, 1, 0, 3 * n);
}

// The number of links, and their four columns, the first as differences.
fn store_links(out: &mut [u8], at: usize, links: &[u64], q: usize, n: usize)
    requires { (at + links_size n n n n ≤ length out.old) × (n < 2 ^ 32) × LinkTable n q links.now }
    ensures { out.new ≡ sets out.old at (links_bytes (columns_of (map (λ x. x.link) (several 5 link_in n (drop q links.now))))) }
{
    store_u32(out, at, n as u64);
    store_differences(out, at + 4, links, q, 5, 1, n);
    store_halves(out, at + 4 + 4 * n, links, q, 5, 2, n);
    store_two(out, at + 4 + 8 * n, links, q, 5, 3, n);
}

// The body: the labels of n rows, k ranges and l links, each from a place of its table on.
fn store_cover(
    out: &mut [u8],
    at: usize,
    rows: &[u64],
    a: usize,
    n: usize,
    ranges: &[u64],
    p: usize,
    k: usize,
    links: &[u64],
    u: usize,
    l: usize,
)
    requires l_in_bounds { (at + cover_body n n k l l l l ≤ length out.old) × (k < 2 ^ 32) × (l < 2 ^ 32) }
    requires label_table { LabelTable n a rows.now × RangeTable k p ranges.now × LinkTable l u links.now }
    ensures { out.new ≡ sets out.old at (cover_bytes (cover_in n (drop a rows.now) k (drop p ranges.now) l (drop u links.now))) }
{
    store_two(out, at, rows, a, 4, 2, n);
    store_ranges(out, at + 8 * n, ranges, p, k);
    store_links(out, at + 8 * n + 4 + 12 * k, links, u, l);
}

// The cover of the n rows from row a on: their labels, k ranges from record p on and l links from record u on.
pub fn put_cover(
    out: &mut [u8],
    at: usize,
    rows: &[u64],
    a: usize,
    n: usize,
    ranges: &[u64],
    p: usize,
    k: usize,
    links: &[u64],
    u: usize,
    l: usize,
) -> usize
    requires l_in_bounds { (at + (6 + cover_body n n k l l l l) ≤ length out.old) × (n ≤ max_records) × (k ≤ max_records) × (l ≤ max_records) }
    requires label_table { LabelTable n (a * 4) rows.now × RangeTable k (p * 3) ranges.now × LinkTable l (u * 5) links.now }
    ensures out_after { out.new ≡ sets out.old at
        (record_bytes 6 (cover_bytes (cover_in n (drop (a * 4) rows.now) k (drop (p * 3) ranges.now) l (drop (u * 5) links.now)))) }
    ensures value { result ≡ at + (6 + cover_body n n k l l l l) }
{
    let b = 8 + 8 * n + 12 * k + 16 * l;
    store_start(out, at, b, 6);
    store_cover(
        out,
        at + 6,
        rows,
        a * 4,
        n,
        ranges,
        p * 3,
        k,
        links,
        u * 5,
        l,
    );
    at + 6 + b
}
