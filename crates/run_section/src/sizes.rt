// How long the file of a group is: the edges of its sets, then the size of its records.
ghost use Rattle.std.specs.Prelude.{◌≡◌, true, ◌+◌, ◌-◌, ◌≤◌, ◌<◌, length};
ghost use Rattle.lists.specs.Lists.{joined};
ghost use Rattle.columns.specs.Limits.{kinds, end64, max_records, max_subject, max_numbers};
ghost use Rattle.columns.specs.EdgeSet.{offsets_form};
ghost use Rattle.columns.specs.Building.{rows_within};
ghost use Rattle.archive_store.specs.sizes.FileSize.{max_file_size};
ghost use Rattle.run_section.specs.Rules.{Lists};
ghost use Rattle.run_section.specs.Files.{sets_over};
ghost use Rattle.run_section.specs.Sizes.{EdgesOf, size_at};

use crate::{Counts, Section};
use archive_store::sections::count_between;
use archive_store::sizes::file_size;
use arrays::index;

// How many edges each set has.
#[derive(Clone, Copy)]
pub struct Edges {
    pub forward: usize,
    pub reverse: usize,
    pub inbound: usize,
}

// How many of the numbers in the lists of the rows from row a up to row b are from low up to high.
fn count_rows(
    rows: usize,
    a: usize,
    b: usize,
    offsets: &[u64],
    targets: &[u64],
    low: u64,
    high: u64,
) -> usize
    requires a_le_b { (a ≤ b) × ((b ≤ rows) × ((rows ≤ 1024) × (length targets.now ≤ max_numbers))) }
    requires offsets_value { offsets_form kinds rows (length targets.now) offsets.now ≡ true }
    ensures value { result ≡ length (joined (rows_within kinds low high a (b - a) offsets.now targets.now)) }
    ensures upper_bound { result ≤ max_numbers }
{
    let from = index(offsets[2 * a]);
    let to = index(offsets[2 * b]);
    count_between(targets, from, to, low, high)
}

// The edges of the sets of the rows from row a up to row b: their parents, their children below row b, and those from it on.
pub fn edges_of(
    z: Counts,
    a: usize,
    b: usize,
    offsets: &[u64],
    targets: &[u64],
    starts: &[u64],
    kids: &[u64],
) -> Edges
    requires rows_bound { (z.rows ≤ 1024) × ((z.start + z.rows < end64) × ((a ≤ b) × (b ≤ z.rows))) }
    requires lists { Lists z.rows offsets.now targets.now starts.now kids.now }
    ensures { EdgesOf (sets_over z a b offsets.now targets.now starts.now kids.now) result }
{
    let end = z.start + (b as u64);
    let all = z.start + (z.rows as u64);
    let forward = count_rows(z.rows, a, b, offsets, targets, 0, all);
    let reverse = count_rows(z.rows, a, b, starts, kids, 0, end);
    let inbound = count_rows(z.rows, a, b, starts, kids, end, all);
    Edges {
        forward,
        reverse,
        inbound,
    }
}

// The size of a section's file.
pub fn section_size(subject: usize, s: Section, e: Edges, covered: bool, ranges: usize) -> usize
    requires subject_le_max_subject { (subject ≤ max_subject) × ((s.rows.from ≤ s.rows.to) × (s.rows.to ≤ max_records)) }
    requires forward_le_max_numbers { (e.forward ≤ max_numbers) × ((e.reverse ≤ max_numbers) × (e.inbound ≤ max_numbers)) }
    requires from_le_to { (s.unresolved.from ≤ s.unresolved.to) × (s.unresolved.to ≤ max_records) }
    requires from_le_to_2 { (s.roots.from ≤ s.roots.to) × (s.roots.to ≤ max_records) }
    requires from_le_to_3 { (s.links.from ≤ s.links.to) × ((s.links.to ≤ max_records) × (ranges ≤ max_records)) }
    ensures { (result ≡ size_at subject s e covered ranges) × (result ≤ max_file_size) }
{
    file_size(
        subject,
        s.rows.to - s.rows.from,
        e.forward,
        e.reverse,
        e.inbound,
        s.unresolved.to - s.unresolved.from,
        s.roots.to - s.roots.from,
        covered,
        ranges,
        s.links.to - s.links.from,
    )
}
