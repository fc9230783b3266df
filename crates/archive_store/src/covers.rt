// The body of record 6: labels, ranges and links.
ghost use Rattle.std.specs.Prelude.{◌≡◌, ◌+◌, ◌*◌, ◌^◌, ◌<◌, ◌≤◌, ◌++◌, length};
ghost use Rattle.std.proofs.lemmas.List.Edits.{sets};
ghost use Rattle.archive.specs.Encode.{column_bytes, counted_bytes, range_bytes, links_bytes, cover_bytes};
ghost use Rattle.archive_store.specs.Lent.{zip3, range_from, links_from, cover_from, links_size, cover_size};

use crate::tables::store_ranges;
use archive_bytes::number_columns::store_u32s;
use archive_bytes::store_u32;

// A cover that is to be stored: the labels' columns, the ranges' and the links'.
#[derive(Clone, Copy)]
pub struct CoverOut<'a> {
    pub chains: &'a [u32],
    pub seqs: &'a [u32],
    pub ids: &'a [u32],
    pub minima: &'a [u32],
    pub maxima: &'a [u32],
    pub from_chains: &'a [u32],
    pub from_seqs: &'a [u32],
    pub to_chains: &'a [u32],
    pub to_seqs: &'a [u32],
}

// Two columns, one after the other.
pub fn store_two(out: &mut [u8], at: usize, a: &[u32], b: &[u32])
    requires { at + (4 * length a.now + 4 * length b.now) ≤ length out.old }
    ensures { out.new ≡ sets out.old at (column_bytes 4 a.now ++ column_bytes 4 b.now) }
{
    let n = a.len();
    store_u32s(a, n, out, at);
    store_u32s(b, b.len(), out, at + 4 * n);
}

// The number of ranges, and the ranges.
pub fn store_counted(out: &mut [u8], at: usize, c: &CoverOut<'_>)
    requires { (length c.now.minima.now ≡ length c.now.ids.now) × (length c.now.maxima.now ≡ length c.now.ids.now) × (at
        + (4 + length c.now.ids.now * 12) ≤ length out.old) × (length c.now.ids.now < 2 ^ 32) }
    ensures { out.new ≡ sets out.old at (counted_bytes range_bytes (zip3 range_from c.now.ids.now c.now.minima.now c.now.maxima.now)) }
{
    store_u32(out, at, c.ids.len() as u64);
    store_ranges(out, at + 4, c.ids, c.minima, c.maxima);
}

// The number of links, and their four columns.
pub fn store_links(out: &mut [u8], at: usize, c: &CoverOut<'_>)
    requires { (at + links_size (length c.now.from_chains.now) (length c.now.from_seqs.now) (length c.now.to_chains.now)
        (length c.now.to_seqs.now) ≤ length out.old) × (length c.now.from_chains.now < 2 ^ 32) }
    ensures { out.new ≡ sets out.old at (links_bytes (links_from c.now.from_chains.now c.now.from_seqs.now c.now.to_chains.now c.now.to_seqs.now)) }
{
    let n = c.from_chains.len();
    let m = c.from_seqs.len();
    store_u32(out, at, n as u64);
    store_two(out, at + 4, c.from_chains, c.from_seqs);
    store_two(out, at + 4 + 4 * n + 4 * m, c.to_chains, c.to_seqs);
}

pub fn store_cover(out: &mut [u8], at: usize, c: &CoverOut<'_>)
    requires d_in_bounds { at + cover_size (length c.now.chains.now) (length c.now.seqs.now) (length c.now.ids.now) (links_size
        (length c.now.from_chains.now) (length c.now.from_seqs.now) (length c.now.to_chains.now) (length c.now.to_seqs.now)) ≤ length out.old }
    requires minima_len { (length c.now.minima.now ≡ length c.now.ids.now) × (length c.now.maxima.now ≡ length c.now.ids.now) ×
        (length c.now.ids.now < 2 ^ 32) × (length c.now.from_chains.now < 2 ^ 32) }
    ensures { out.new ≡ sets out.old at
        (cover_bytes (cover_from c.now.chains.now c.now.seqs.now (zip3 range_from c.now.ids.now c.now.minima.now c.now.maxima.now)
        (links_from c.now.from_chains.now c.now.from_seqs.now c.now.to_chains.now c.now.to_seqs.now))) }
{
    let p = at + 4 * c.chains.len() + 4 * c.seqs.len();
    let q = p + 4 + c.ids.len() * 12;
    store_two(out, at, c.chains, c.seqs);
    store_counted(out, p, c);
    store_links(out, q, c);
}
