// How long the file of a group is, or the first rule that the group breaks, by its section.
ghost use Rattle.std.specs.Prelude.{◌≡◌, ◌≤◌};
ghost use Rattle.columns.specs.Limits.{max_records, max_subject};
ghost use Rattle.archive_store.specs.sizes.FileSize.{max_file_size};
ghost use Rattle.run_section.specs.Rules.{Lists};
ghost use Rattle.run_section.specs.Files.{sets_at};
ghost use Rattle.run_section.specs.Measures.{Inside, size_by, SectionMeasured};

use crate::rules::{Known, section_rules};
use crate::sizes::{edges_of, section_size};
use crate::{Counts, Section};
use columns::refusal::Refusal;

// How long the file of a section is.
fn file_length(
    z: Counts,
    size: usize,
    covered: bool,
    ranges: usize,
    s: Section,
    unresolved: &[u64],
    offsets: &[u64],
    targets: &[u64],
    starts: &[u64],
    kids: &[u64],
) -> usize
    requires inside { (Inside z s unresolved.now) × ((size ≤ max_subject) × (ranges ≤ max_records)) }
    requires lists { Lists z.rows offsets.now targets.now starts.now kids.now }
    ensures value { result ≡ size_by size s (sets_at z s offsets.now targets.now starts.now kids.now) covered ranges }
    ensures upper_bound { result ≤ max_file_size }
{
    let e = edges_of(z, s.rows.from, s.rows.to, offsets, targets, starts, kids);
    section_size(size, s, e, covered, ranges)
}

// How long the file is of a group with a subject of `size` bytes whose seqs rise or not, and which has so many ranges; or the first rule that it breaks.
pub fn measure_section(
    z: Counts,
    size: usize,
    k: Known,
    rises: bool,
    ranges: usize,
    s: Section,
    unresolved: &[u64],
    offsets: &[u64],
    targets: &[u64],
    starts: &[u64],
    kids: &[u64],
) -> Result<usize, Refusal>
    requires inside { (Inside z s unresolved.now) × ((size ≤ max_subject) × (ranges ≤ max_records)) }
    requires lists { Lists z.rows offsets.now targets.now starts.now kids.now }
    ensures { SectionMeasured z size k rises ranges s unresolved.now offsets.now targets.now starts.now kids.now result }
{
    section_rules(
        z, size, k, rises, s, unresolved, offsets, targets, starts, kids,
    )?;
    Ok(file_length(
        z, size, k.covered, ranges, s, unresolved, offsets, targets, starts, kids,
    ))
}
