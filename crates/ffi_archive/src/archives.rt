// Archive records: an archive read, and the records of a file's columns written into lent bytes from place `at` on.
ghost use Rattle.std.specs.Prelude.{◌≡◌, ◌+◌, length};
ghost use Rattle.std.proofs.lemmas.List.Edits.{sets};
ghost use Rattle.columns.specs.Limits.{kinds};
ghost use Rattle.lists.specs.Lists.{flat};
ghost use Rattle.archive_bytes.specs.After.{left};
ghost use Rattle.archive.specs.Parse.{parse};
ghost use Rattle.archive.specs.Encode.{record_bytes, sets_bytes, row_bytes, references_bytes};
ghost use Rattle.archive_read.specs.Sums.{totals_of};
ghost use Rattle.archive_store.specs.Lent.{zip2, set_from, row_from, cited_from};
ghost use Rattle.archive_write.specs.Writes.{edges_rules, rows_rules, references_rules, wrote};
ghost use Rattle.ffi_archive.specs.Records.{sums_of, wrote_of};

use archive_read::files::{Totals, sum_up};
use archive_write::writer;
use columns::refusal::Refusal;
use ffi::answer::Answer;

// How many files an archive has, and the sums of their counts; `refusal` is 23 where the bytes are no archive.
#[repr(C)]
#[derive(Clone, Copy)]
pub struct Sums {
    pub refusal: u64,
    pub files: usize,
    pub events: usize,
    pub roots: usize,
    pub unresolved: usize,
    pub ranges: usize,
    pub links: usize,
    pub forward: usize,
    pub reverse: usize,
    pub inbound: usize,
    pub references: usize,
}

impl From<Result<Totals, Refusal>> for Sums {
    ghost from_gives = { λ summed sums. sums ≡ sums_of summed };

    fn from(summed: Result<Totals, Refusal>) -> Sums {
        match summed {
            Ok(t) => Sums {
                refusal: 0,
                files: t.files,
                events: t.events,
                roots: t.roots,
                unresolved: t.unresolved,
                ranges: t.ranges,
                links: t.links,
                forward: t.forward,
                reverse: t.reverse,
                inbound: t.inbound,
                references: t.references,
            },
            Err(why) => Sums {
                refusal: why.number(),
                files: 0,
                events: 0,
                roots: 0,
                unresolved: 0,
                ranges: 0,
                links: 0,
                forward: 0,
                reverse: 0,
                inbound: 0,
                references: 0,
            },
        }
    }
}

// An archive, read in one pass.
pub fn ridgeoven_sums(bytes: &[u8]) -> Sums
    ensures { result ≡ sums_of (totals_of (parse kinds bytes.now)) }
{
    Sums::from(sum_up(bytes))
}

// 2: the forward, reverse and inbound sets, each of offsets and deltas.
pub fn ridgeoven_write_edges(
    out: &mut [u8],
    at: usize,
    fo: &[u64],
    fd: &[i64],
    ro: &[u64],
    rd: &[i64],
    io: &[u64],
    id: &[i64],
) -> Answer
    ensures value { result ≡ wrote_of (wrote (edges_rules (length fo.now) (length fd.now) (length ro.now) (length rd.now)
        (length io.now) (length id.now) (length out.old) at)
        (at + length (record_bytes 2 (sets_bytes (set_from fo.now fd.now) (set_from ro.now rd.now) (set_from io.now id.now))))) }
    ensures out_after { out.new ≡ left (edges_rules (length fo.now) (length fd.now) (length ro.now) (length rd.now)
        (length io.now) (length id.now) (length out.old) at) out.old
        (sets out.old at (record_bytes 2 (sets_bytes (set_from fo.now fd.now) (set_from ro.now rd.now)
        (set_from io.now id.now)))) }
{
    Answer::from(writer::write_edges(out, at, fo, fd, ro, rd, io, id))
}

// 3: rows, each of a flag and a tag.
pub fn ridgeoven_write_rows(out: &mut [u8], at: usize, flags: &[u8], tags: &[u64]) -> Answer
    ensures value { result ≡ wrote_of (wrote (rows_rules (length flags.now) (length tags.now) (length out.old) at)
        (at + length (record_bytes 3 (flat row_bytes (zip2 row_from flags.now tags.now))))) }
    ensures out_after { out.new ≡ left (rows_rules (length flags.now) (length tags.now) (length out.old) at) out.old
        (sets out.old at (record_bytes 3 (flat row_bytes (zip2 row_from flags.now tags.now)))) }
{
    Answer::from(writer::write_rows(out, at, flags, tags))
}

// 7: references, each of a kind, a space and a target. Row r has those from place offsets[r] up to offsets[r + 1].
pub fn ridgeoven_write_references(
    out: &mut [u8],
    at: usize,
    offsets: &[u64],
    kinds: &[u8],
    spaces: &[u8],
    targets: &[u64],
) -> Answer
    ensures value { result ≡ wrote_of (wrote (references_rules offsets.now kinds.now spaces.now targets.now (length out.old) at)
        (at + length (record_bytes 7 (references_bytes (cited_from offsets.now kinds.now spaces.now targets.now))))) }
    ensures out_after { out.new ≡ left (references_rules offsets.now kinds.now spaces.now targets.now
        (length out.old) at) out.old (sets out.old at
        (record_bytes 7 (references_bytes (cited_from offsets.now kinds.now spaces.now targets.now)))) }
{
    Answer::from(writer::write_references(out, at, offsets, kinds, spaces, targets))
}
