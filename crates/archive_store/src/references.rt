// Record 7: the references of a file's rows, row by row a count and as many references. They come out of three columns, side by side, which
// offsets cut into rows: row r has those from place offsets[r] up to offsets[r + 1].
ghost use Rattle.std.specs.Prelude.{◌≡◌, ◌+◌, ◌-◌, ◌*◌, ◌^◌, ◌<◌, ◌≤◌, length};
ghost use Rattle.std.proofs.Math.Seq.{slice};
ghost use Rattle.std.proofs.lemmas.List.Edits.{sets};
ghost use Rattle.lists.specs.Lists.{flat};
ghost use Rattle.columns.specs.Limits.{max_records, max_numbers};
ghost use Rattle.archive.specs.Encode.{record_bytes, counted_bytes, reference_bytes, references_bytes};
ghost use Rattle.archive_store.specs.Lent.{zip3, reference_from, cited_from, Cited};
ghost use Rattle.archive_store.specs.records.Sizes.{references_body, references_size};
ghost use Rattle.archive_store.specs.sizes.FileSize.{max_references_size};

use crate::heads::store_start;
use archive_bytes::{store_u8, store_u32, store_u64};
use arrays::index;

fn store_reference(out: &mut [u8], at: usize, kind: u8, space: u8, target: u64)
    requires { at + 10 ≤ length out.old }
    ensures { out.new ≡ sets out.old at (reference_bytes (reference_from kind space target)) }
{
    store_u8(out, at, kind);
    store_u8(out, at + 1, space);
    store_u64(out, at + 2, target);
}

// The references from place `from` up to `to`.
fn store_between(
    out: &mut [u8],
    at: usize,
    kinds: &[u8],
    spaces: &[u8],
    targets: &[u64],
    from: usize,
    to: usize,
)
    requires spaces_len { (length spaces.now ≡ length kinds.now) × (length targets.now ≡ length kinds.now) × (from ≤ to) × (to ≤ length kinds.now) }
    requires from_in_bounds { at + (to - from) * 10 ≤ length out.old }
    ensures { out.new ≡ sets out.old at
        (flat reference_bytes (slice from to (zip3 reference_from kinds.now spaces.now targets.now))) }
{
    let mut p = at;
    for i in from..to {
        store_reference(out, p, kinds[i], spaces[i], targets[i]);
        p += 10;
    }
}

// How many those are, and then they; answers the place after them.
fn store_row(
    out: &mut [u8],
    at: usize,
    kinds: &[u8],
    spaces: &[u8],
    targets: &[u64],
    from: usize,
    to: usize,
) -> usize
    requires spaces_len { (length spaces.now ≡ length kinds.now) × (length targets.now ≡ length kinds.now) × (from ≤ to) × (to ≤ length kinds.now) }
    requires kinds_len_bound { (length kinds.now < 2 ^ 32) × (at + (4 + (to - from) * 10) ≤ length out.old) }
    ensures out_after { out.new ≡ sets out.old at
        (counted_bytes reference_bytes (slice from to (zip3 reference_from kinds.now spaces.now targets.now))) }
    ensures value { result ≡ at + (4 + (to - from) * 10) }
{
    let n = to - from;
    store_u32(out, at, n as u64);
    store_between(out, at + 4, kinds, spaces, targets, from, to);
    at + 4 + n * 10
}

// Row by row.
fn store_references(
    out: &mut [u8],
    at: usize,
    offsets: &[u64],
    kinds: &[u8],
    spaces: &[u8],
    targets: &[u64],
)
    requires cited { Cited offsets.now kinds.now spaces.now targets.now }
    requires kinds_len_bound { (length kinds.now < 2 ^ 32) × (at + length (references_bytes (cited_from offsets.now kinds.now spaces.now targets.now)) ≤ length out.old) }
    ensures { out.new ≡ sets out.old at
        (references_bytes (cited_from offsets.now kinds.now spaces.now targets.now)) }
{
    let mut i = 0;
    let mut p = at;
    while i + 1 < offsets.len() {
        let from = index(offsets[i]);
        let to = index(offsets[i + 1]);
        p = store_row(out, p, kinds, spaces, targets, from, to);
        i += 1;
    }
}

pub fn record_references(
    out: &mut [u8],
    at: usize,
    offsets: &[u64],
    kinds: &[u8],
    spaces: &[u8],
    targets: &[u64],
) -> usize
    requires cited { Cited offsets.now kinds.now spaces.now targets.now }
    requires kinds_in_bounds { (at + references_size (length offsets.now - 1) (length kinds.now) ≤ length out.old)
        × (2 + references_body (length offsets.now - 1) (length kinds.now) < 2 ^ 32) }
    ensures out_after { out.new ≡ sets out.old at
        (record_bytes 7 (references_bytes (cited_from offsets.now kinds.now spaces.now targets.now))) }
    ensures value { result ≡ at + references_size (length offsets.now - 1) (length kinds.now) }
{
    let n = 4 * (offsets.len() - 1) + 10 * kinds.len();
    store_start(out, at, n, 7);
    store_references(out, at + 6, offsets, kinds, spaces, targets);
    at + 6 + n
}

// How many bytes the record has: known before a byte is written.
pub fn references_size(rows: usize, references: usize) -> usize
    requires { (rows ≤ max_records) × (references ≤ max_numbers) }
    ensures { (result ≡ references_size rows references) × (result ≤ max_references_size) }
{
    6 + 4 * rows + 10 * references
}
