// Each of a file's seven records, written into lent bytes at a place: the place after it, or a refusal that leaves the bytes as they were.
ghost use Rattle.std.specs.Prelude.{◌≡◌, ◌+◌, length};
ghost use Rattle.std.proofs.lemmas.List.Edits.{sets};
ghost use Rattle.lists.specs.Lists.{flat};
ghost use Rattle.archive_bytes.specs.After.{left};
ghost use Rattle.archive.specs.Encode.{record_bytes, sets_bytes, row_bytes, unresolved_bytes, root_bytes, cover_bytes, counted_bytes, references_bytes};
ghost use Rattle.archive_store.specs.Lent.{zip2, zip3, head_from, set_from, row_from, unresolved_from, root_from, range_from, links_from, cover_from, cited_from};
ghost use Rattle.archive_write.specs.Writes.{head_rules, edges_rules, rows_rules, unresolved_rules, roots_rules, cover_rules, references_rules, wrote};

use crate::references::references_rules;
use crate::rules::{
    cover_rules, edges_rules, head_rules, roots_rules, rows_rules, unresolved_rules,
};
use archive_store::covers::CoverOut;
use archive_store::edges::SetOut;
use archive_store::heads::HeadOut;
use archive_store::records::{
    record_cover, record_edges, record_head, record_roots, record_rows, record_unresolved,
};
use archive_store::references::record_references;
use columns::refusal::Refusal;

// 1: the file's numbers, its subject and its depth.
pub fn write_head(out: &mut [u8], at: usize, h: HeadOut, s: &[u8]) -> Result<usize, Refusal>
    ensures value { result ≡ wrote (head_rules h.rows (length s.now) (length out.old) at) (at + length (record_bytes 1 (head_from h s.now))) }
    ensures out_after { out.new ≡ left (head_rules h.rows (length s.now) (length out.old) at) out.old
        (sets out.old at (record_bytes 1 (head_from h s.now))) }
{
    head_rules(h.rows, s.len(), out.len(), at)?;
    Ok(record_head(out, at, h, s))
}

// 2: the forward, reverse and inbound sets, each of offsets and deltas.
pub fn write_edges(
    out: &mut [u8],
    at: usize,
    fo: &[u64],
    fd: &[i64],
    ro: &[u64],
    rd: &[i64],
    io: &[u64],
    id: &[i64],
) -> Result<usize, Refusal>
    ensures value { result ≡ wrote (edges_rules (length fo.now) (length fd.now) (length ro.now) (length rd.now)
        (length io.now) (length id.now) (length out.old) at)
        (at + length (record_bytes 2 (sets_bytes (set_from fo.now fd.now) (set_from ro.now rd.now) (set_from io.now id.now)))) }
    ensures out_after { out.new ≡ left (edges_rules (length fo.now) (length fd.now) (length ro.now) (length rd.now)
        (length io.now) (length id.now) (length out.old) at) out.old
        (sets out.old at (record_bytes 2 (sets_bytes (set_from fo.now fd.now) (set_from ro.now rd.now)
        (set_from io.now id.now)))) }
{
    edges_rules(
        fo.len(),
        fd.len(),
        ro.len(),
        rd.len(),
        io.len(),
        id.len(),
        out.len(),
        at,
    )?;
    let forward = SetOut {
        offsets: fo,
        deltas: fd,
    };
    let reverse = SetOut {
        offsets: ro,
        deltas: rd,
    };
    let inbound = SetOut {
        offsets: io,
        deltas: id,
    };
    Ok(record_edges(out, at, &forward, &reverse, &inbound))
}

// 3: rows, each of a flag and a tag.
pub fn write_rows(out: &mut [u8], at: usize, flags: &[u8], tags: &[u64]) -> Result<usize, Refusal>
    ensures value { result ≡ wrote (rows_rules (length flags.now) (length tags.now) (length out.old) at)
        (at + length (record_bytes 3 (flat row_bytes (zip2 row_from flags.now tags.now)))) }
    ensures out_after { out.new ≡ left (rows_rules (length flags.now) (length tags.now) (length out.old) at) out.old
        (sets out.old at (record_bytes 3 (flat row_bytes (zip2 row_from flags.now tags.now)))) }
{
    rows_rules(flags.len(), tags.len(), out.len(), at)?;
    Ok(record_rows(out, at, flags, tags))
}

// 4: unresolved references, each of a child, a kind and a handle.
pub fn write_unresolved(
    out: &mut [u8],
    at: usize,
    children: &[u64],
    kinds: &[u8],
    handles: &[u32],
) -> Result<usize, Refusal>
    ensures value { result ≡ wrote (unresolved_rules children.now (length kinds.now) (length handles.now) (length out.old) at)
        (at + length (record_bytes 4 (counted_bytes unresolved_bytes (zip3 unresolved_from children.now kinds.now handles.now)))) }
    ensures out_after { out.new ≡ left (unresolved_rules children.now (length kinds.now) (length handles.now)
        (length out.old) at) out.old (sets out.old at
        (record_bytes 4 (counted_bytes unresolved_bytes (zip3 unresolved_from children.now kinds.now handles.now)))) }
{
    unresolved_rules(children, kinds.len(), handles.len(), out.len(), at)?;
    Ok(record_unresolved(out, at, children, kinds, handles))
}

// 5: state roots, each of a row and a handle.
pub fn write_roots(
    out: &mut [u8],
    at: usize,
    rows: &[u64],
    handles: &[u64],
) -> Result<usize, Refusal>
    ensures value { result ≡ wrote (roots_rules rows.now (length handles.now) (length out.old) at)
        (at + length (record_bytes 5 (counted_bytes root_bytes (zip2 root_from rows.now handles.now)))) }
    ensures out_after { out.new ≡ left (roots_rules rows.now (length handles.now) (length out.old) at) out.old
        (sets out.old at (record_bytes 5 (counted_bytes root_bytes (zip2 root_from rows.now handles.now)))) }
{
    roots_rules(rows, handles.len(), out.len(), at)?;
    Ok(record_roots(out, at, rows, handles))
}

// 6: label columns, ranges as three columns and links as four, the first of those as stored: differences.
pub fn write_cover(
    out: &mut [u8],
    at: usize,
    chains: &[u32],
    seqs: &[u32],
    ids: &[u32],
    minima: &[u32],
    maxima: &[u32],
    a: &[u32],
    b: &[u32],
    c: &[u32],
    d: &[u32],
) -> Result<usize, Refusal>
    ensures value { result ≡ wrote (cover_rules (length chains.now) (length seqs.now) (length ids.now) (length minima.now)
        (length maxima.now) (length a.now) (length b.now) (length c.now) (length d.now)
        (length out.old) at) (at + length (record_bytes 6
        (cover_bytes (cover_from chains.now seqs.now (zip3 range_from ids.now minima.now maxima.now)
        (links_from a.now b.now c.now d.now))))) }
    ensures out_after { out.new ≡ left (cover_rules (length chains.now) (length seqs.now) (length ids.now)
        (length minima.now) (length maxima.now) (length a.now) (length b.now) (length c.now)
        (length d.now) (length out.old) at) out.old
        (sets out.old at (record_bytes 6 (cover_bytes
        (cover_from chains.now seqs.now (zip3 range_from ids.now minima.now maxima.now)
        (links_from a.now b.now c.now d.now))))) }
{
    cover_rules(
        chains.len(),
        seqs.len(),
        ids.len(),
        minima.len(),
        maxima.len(),
        a.len(),
        b.len(),
        c.len(),
        d.len(),
        out.len(),
        at,
    )?;
    let cover = CoverOut {
        chains,
        seqs,
        ids,
        minima,
        maxima,
        from_chains: a,
        from_seqs: b,
        to_chains: c,
        to_seqs: d,
    };
    Ok(record_cover(out, at, &cover))
}

// 7: references, each of a kind, a space and a target. Row r has those from place offsets[r] up to offsets[r + 1].
pub fn write_references(
    out: &mut [u8],
    at: usize,
    offsets: &[u64],
    kinds: &[u8],
    spaces: &[u8],
    targets: &[u64],
) -> Result<usize, Refusal>
    ensures value { result ≡ wrote (references_rules offsets.now kinds.now spaces.now targets.now (length out.old) at)
        (at + length (record_bytes 7 (references_bytes (cited_from offsets.now kinds.now spaces.now targets.now)))) }
    ensures out_after { out.new ≡ left (references_rules offsets.now kinds.now spaces.now targets.now
        (length out.old) at) out.old (sets out.old at
        (record_bytes 7 (references_bytes (cited_from offsets.now kinds.now spaces.now targets.now)))) }
{
    references_rules(offsets, kinds, spaces, targets, out.len(), at)?;
    Ok(record_references(out, at, offsets, kinds, spaces, targets))
}
