// Each of a file's first six records stored whole in lent bytes, from a place on, and the place after it. Whoever calls has seen that there is
// room and that the columns of a record are equal in number.
ghost use Rattle.std.specs.Prelude.{◌≡◌, ◌+◌, ◌*◌, ◌^◌, ◌<◌, ◌≤◌, length};
ghost use Rattle.std.proofs.lemmas.List.Edits.{sets};
ghost use Rattle.lists.specs.Lists.{flat};
ghost use Rattle.archive.specs.Encode.{record_bytes, sets_bytes, row_bytes, unresolved_bytes, root_bytes, cover_bytes, counted_bytes};
ghost use Rattle.archive_store.specs.Lent.{zip2, zip3, head_from, set_from, row_from, unresolved_from, root_from, range_from, links_from, cover_from};
ghost use Rattle.archive_store.specs.records.Sizes.{head_size, sets_size, rows_size, unresolved_size, roots_size, cover_body};

use crate::covers::{CoverOut, store_cover};
use crate::edges::{SetOut, store_edges};
use crate::heads::{HeadOut, store_head, store_start};
use crate::tables::{store_roots, store_rows, store_unresolved};
use archive_bytes::store_u32;

pub fn record_head(out: &mut [u8], at: usize, h: HeadOut, s: &[u8]) -> usize
    requires { (at + head_size (length s.now) ≤ length out.old) × (length s.now < 256) }
    ensures out_after { out.new ≡ sets out.old at (record_bytes 1 (head_from h s.now)) }
    ensures value { result ≡ at + head_size (length s.now) }
{
    let n = 31 + s.len();
    store_start(out, at, n, 1);
    store_head(out, at + 6, h, s);
    at + 6 + n
}

pub fn sets_size(fo: usize, fd: usize, ro: usize, rd: usize, io: usize, id: usize) -> usize
    requires { sets_size fo fd ro rd io id < 2 ^ 63 }
    ensures { (result ≡ sets_size fo fd ro rd io id) × (result < 2 ^ 63) }
{
    12 + 8 * fo + 8 * fd + 8 * ro + 8 * rd + 8 * io + 8 * id
}

pub fn record_edges(
    out: &mut [u8],
    at: usize,
    forward: &SetOut<'_>,
    reverse: &SetOut<'_>,
    inbound: &SetOut<'_>,
) -> usize
    requires id_in_bounds { at + (6 + sets_size (length forward.now.offsets.now) (length forward.now.deltas.now)
        (length reverse.now.offsets.now) (length reverse.now.deltas.now) (length inbound.now.offsets.now) (length inbound.now.deltas.now)) ≤ length out.old }
    requires id_bound { 2 + sets_size (length forward.now.offsets.now) (length forward.now.deltas.now) (length reverse.now.offsets.now)
        (length reverse.now.deltas.now) (length inbound.now.offsets.now) (length inbound.now.deltas.now) < 2 ^ 32 }
    ensures out_after { out.new ≡ sets out.old at
        (record_bytes 2 (sets_bytes (set_from forward.now.offsets.now forward.now.deltas.now)
        (set_from reverse.now.offsets.now reverse.now.deltas.now) (set_from inbound.now.offsets.now inbound.now.deltas.now))) }
    ensures value { result ≡ at + (6 + sets_size (length forward.now.offsets.now) (length forward.now.deltas.now) (length reverse.now.offsets.now) (length reverse.now.deltas.now)
        (length inbound.now.offsets.now) (length inbound.now.deltas.now)) }
{
    let n = sets_size(
        forward.offsets.len(),
        forward.deltas.len(),
        reverse.offsets.len(),
        reverse.deltas.len(),
        inbound.offsets.len(),
        inbound.deltas.len(),
    );
    store_start(out, at, n, 2);
    store_edges(out, at + 6, forward, reverse, inbound);
    at + 6 + n
}

pub fn record_rows(out: &mut [u8], at: usize, flags: &[u8], tags: &[u64]) -> usize
    requires { (length flags.now ≡ length tags.now) × (at + rows_size (length tags.now) ≤ length out.old) × (2 + length tags.now * 9 < 2 ^ 32) }
    ensures out_after { out.new ≡ sets out.old at (record_bytes 3 (flat row_bytes (zip2 row_from flags.now tags.now))) }
    ensures value { result ≡ at + rows_size (length tags.now) }
{
    let n = tags.len() * 9;
    store_start(out, at, n, 3);
    store_rows(out, at + 6, flags, tags);
    at + 6 + n
}

pub fn record_unresolved(
    out: &mut [u8],
    at: usize,
    children: &[u64],
    kinds: &[u8],
    handles: &[u32],
) -> usize
    requires kinds_len { (length kinds.now ≡ length children.now) × (length handles.now ≡ length children.now) }
    requires children_in_bounds { (at + unresolved_size (length children.now) ≤ length out.old) × (2 + (4 + length children.now * 13) < 2 ^ 32) }
    ensures out_after { out.new ≡ sets out.old at
        (record_bytes 4 (counted_bytes unresolved_bytes (zip3 unresolved_from children.now kinds.now handles.now))) }
    ensures value { result ≡ at + unresolved_size (length children.now) }
{
    let n = children.len();
    store_start(out, at, 4 + n * 13, 4);
    store_u32(out, at + 6, n as u64);
    store_unresolved(out, at + 10, children, kinds, handles);
    at + 10 + n * 13
}

pub fn record_roots(out: &mut [u8], at: usize, rows: &[u64], handles: &[u64]) -> usize
    requires { (length handles.now ≡ length rows.now) × (at + roots_size (length rows.now) ≤ length out.old) × (2 + (4 + length rows.now * 16) < 2 ^ 32) }
    ensures out_after { out.new ≡ sets out.old at (record_bytes 5 (counted_bytes root_bytes (zip2 root_from rows.now handles.now))) }
    ensures value { result ≡ at + roots_size (length rows.now) }
{
    let n = rows.len();
    store_start(out, at, 4 + n * 16, 5);
    store_u32(out, at + 6, n as u64);
    store_roots(out, at + 10, rows, handles);
    at + 10 + n * 16
}

pub fn cover_body(
    chains: usize,
    seqs: usize,
    ranges: usize,
    a: usize,
    b: usize,
    c: usize,
    d: usize,
) -> usize
    requires { cover_body chains seqs ranges a b c d < 2 ^ 63 }
    ensures { (result ≡ cover_body chains seqs ranges a b c d) × (result < 2 ^ 63) }
{
    8 + 4 * chains + 4 * seqs + 12 * ranges + 4 * a + 4 * b + 4 * c + 4 * d
}

pub fn record_cover(out: &mut [u8], at: usize, c: &CoverOut<'_>) -> usize
    requires d_in_bounds { at + (6 + cover_body (length c.now.chains.now) (length c.now.seqs.now) (length c.now.ids.now)
        (length c.now.from_chains.now) (length c.now.from_seqs.now) (length c.now.to_chains.now) (length c.now.to_seqs.now)) ≤ length out.old }
    requires minima_len { (length c.now.minima.now ≡ length c.now.ids.now) × (length c.now.maxima.now ≡ length c.now.ids.now)
        × (2 + cover_body (length c.now.chains.now) (length c.now.seqs.now) (length c.now.ids.now) (length c.now.from_chains.now)
        (length c.now.from_seqs.now) (length c.now.to_chains.now) (length c.now.to_seqs.now) < 2 ^ 32) }
    ensures out_after { out.new ≡ sets out.old at
        (record_bytes 6 (cover_bytes (cover_from c.now.chains.now c.now.seqs.now (zip3 range_from c.now.ids.now c.now.minima.now c.now.maxima.now)
        (links_from c.now.from_chains.now c.now.from_seqs.now c.now.to_chains.now c.now.to_seqs.now)))) }
    ensures value { result ≡ at + (6 + cover_body (length c.now.chains.now) (length c.now.seqs.now) (length c.now.ids.now) (length c.now.from_chains.now)
        (length c.now.from_seqs.now) (length c.now.to_chains.now) (length c.now.to_seqs.now)) }
{
    let n = cover_body(
        c.chains.len(),
        c.seqs.len(),
        c.ids.len(),
        c.from_chains.len(),
        c.from_seqs.len(),
        c.to_chains.len(),
        c.to_seqs.len(),
    );
    store_start(out, at, n, 6);
    store_cover(out, at + 6, c);
    at + 6 + n
}
