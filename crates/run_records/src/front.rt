// Records 1 and 2: the head of a group's file, and its three sets, stored out of the lists of parents and of children.
ghost use Rattle.std.specs.Prelude.{◌≡◌, true, ◌+◌, ◌-◌, ◌≤◌, ◌<◌, length};
ghost use Rattle.std.proofs.lemmas.List.Edits.{sets};
ghost use Rattle.columns.specs.Limits.{kinds, end64, max_records, max_subject, max_numbers};
ghost use Rattle.columns.specs.EdgeSet.{offsets_form};
ghost use Rattle.archive.specs.Encode.{record_bytes, head_fields, set_bytes};
ghost use Rattle.archive_store.specs.Lent.{start_bytes};
ghost use Rattle.archive_store.specs.records.Sizes.{head_size};
ghost use Rattle.archive_store.specs.sizes.FileSize.{edges_size};
ghost use Rattle.run_section.specs.Rules.{depth_in, Lists};
ghost use Rattle.run_section.specs.Files.{many, sets_at};
ghost use Rattle.run_section.specs.Sizes.{EdgesOf};
ghost use Rattle.run_records.specs.Front.{set_in, built_bytes, edges_body};

use archive_store::heads::{HeadOut, store_start};
use archive_store::records::{record_head, sets_size};
use archive_store::sections::store_lists;
use run_section::rules::Known;
use run_section::sizes::Edges;
use run_section::{Counts, Section};

// The head of group g's file.
pub fn put_head(
    out: &mut [u8],
    at: usize,
    z: Counts,
    g: usize,
    s: Section,
    k: Known,
    subject: &[u8],
) -> usize
    requires subject_in_bounds { (at + head_size (length subject.now) ≤ length out.old) × ((length subject.now ≤ max_subject) × (g < 16)) }
    requires rows_bound { (z.start + z.rows < end64) × ((z.rows ≤ max_records) × ((s.rows.from ≤ s.rows.to) × (s.rows.to ≤ z.rows))) }
    ensures out_after { out.new ≡ sets out.old at (record_bytes 1 (head_fields (z.start + s.rows.from) (many s.rows) g subject.now (depth_in k))) }
    ensures value { result ≡ at + head_size (length subject.now) }
{
    let a = s.rows.from;
    let n = s.rows.to - a;
    let h = HeadOut {
        first: z.start + (a as u64),
        rows: n as u32,
        group: g as u8,
        known: k.deep,
        least: k.least,
        greatest: k.greatest,
    };
    record_head(out, at, h, subject)
}

// The set of a section's rows out of a table of lists: their numbers from low up to high.
fn put_set(
    out: &mut [u8],
    at: usize,
    z: Counts,
    s: Section,
    offsets: &[u64],
    targets: &[u64],
    low: u64,
    high: u64,
) -> usize
    requires rows_bound { (z.rows ≤ 1024) × ((z.start + z.rows < end64) × ((s.rows.from ≤ s.rows.to) × (s.rows.to ≤ z.rows))) }
    requires offsets_value { (offsets_form kinds z.rows (length targets.now) offsets.now ≡ true) × (length targets.now ≤ max_numbers) }
    requires targets_in_bounds { at + length (set_bytes (set_in z s low high offsets.now targets.now)) ≤ length out.old }
    ensures out_after { out.new ≡ sets out.old at (set_bytes (set_in z s low high offsets.now targets.now)) }
    ensures value { result ≡ at + length (set_bytes (set_in z s low high offsets.now targets.now)) }
{
    let a = s.rows.from;
    let n = s.rows.to - a;
    let first = z.start + (a as u64);
    store_lists(out, at, first, n, offsets, targets, a, low, high)
}

// The sets of a section, one after the other.
fn put_sets(
    out: &mut [u8],
    at: usize,
    z: Counts,
    s: Section,
    offsets: &[u64],
    targets: &[u64],
    starts: &[u64],
    kids: &[u64],
) -> usize
    requires kids_in_bounds { at + length (built_bytes (sets_at z s offsets.now targets.now starts.now kids.now)) ≤ length out.old }
    requires rows_bound { (z.rows ≤ 1024) × ((z.start + z.rows < end64) × ((s.rows.from ≤ s.rows.to) × (s.rows.to ≤ z.rows))) }
    requires lists { Lists z.rows offsets.now targets.now starts.now kids.now }
    ensures out_after { out.new ≡ sets out.old at (built_bytes (sets_at z s offsets.now targets.now starts.now kids.now)) }
    ensures value { result ≡ at + length (built_bytes (sets_at z s offsets.now targets.now starts.now kids.now)) }
{
    let end = z.start + (s.rows.to as u64);
    let all = z.start + (z.rows as u64);
    let p = put_set(out, at, z, s, offsets, targets, 0, all);
    let q = put_set(out, p, z, s, starts, kids, 0, end);
    put_set(out, q, z, s, starts, kids, end, all)
}

// What stands before the sets of a section in their record.
fn start_edges(out: &mut [u8], at: usize, s: Section, e: Edges)
    requires at_in_bounds { (at + 6 ≤ length out.old) × ((s.rows.from ≤ s.rows.to) × (s.rows.to ≤ max_records)) }
    requires forward_le_max_numbers { (e.forward ≤ max_numbers) × ((e.reverse ≤ max_numbers) × (e.inbound ≤ max_numbers)) }
    ensures { out.new ≡ sets out.old at (start_bytes 2 (edges_body (many s.rows) e)) }
{
    let k = 2 * (s.rows.to - s.rows.from) + 1;
    let size = sets_size(k, e.forward, k, e.reverse, k, e.inbound);
    store_start(out, at, size, 2);
}

// The edges record of a section's file, whose edges are counted.
pub fn put_edges(
    out: &mut [u8],
    at: usize,
    z: Counts,
    s: Section,
    e: Edges,
    offsets: &[u64],
    targets: &[u64],
    starts: &[u64],
    kids: &[u64],
) -> usize
    requires inbound_in_bounds { at + edges_size (many s.rows) e.forward e.reverse e.inbound ≤ length out.old }
    requires rows_bound { (z.rows ≤ 1024) × ((z.start + z.rows < end64) × ((s.rows.from ≤ s.rows.to) × (s.rows.to ≤ z.rows))) }
    requires lists { Lists z.rows offsets.now targets.now starts.now kids.now }
    requires edges_of { EdgesOf (sets_at z s offsets.now targets.now starts.now kids.now) e }
    ensures out_after { out.new ≡ sets out.old at (record_bytes 2 (built_bytes (sets_at z s offsets.now targets.now starts.now kids.now))) }
    ensures value { result ≡ at + edges_size (many s.rows) e.forward e.reverse e.inbound }
{
    start_edges(out, at, s, e);
    put_sets(out, at + 6, z, s, offsets, targets, starts, kids)
}
