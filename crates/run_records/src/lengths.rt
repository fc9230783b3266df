// The rules and the length of all groups' output files, by their sections in the tables.
ghost use Rattle.std.specs.Prelude.{◌<◌};
ghost use Rattle.run_section.specs.Tables.{sheet_of};
ghost use Rattle.run_section.specs.Ready.{Ready, Children};
ghost use Rattle.run_section.specs.Covers.{CoversCounted};
ghost use Rattle.run_section.specs.Measures.{MeasuredGroup};
ghost use Rattle.run_records.specs.Lengths.{MeasuredBy};

use columns::refusal::Refusal;
use run_section::Counts;
use run_section::covers::Covers;
use run_section::facts::facts_of;
use run_section::measures::measure_section;
use run_section::places::section_of;
use run_state::Groups;

// How long group g's file is, or the first rule that the group breaks.
fn measure_group(
    z: Counts,
    subject: &[u8],
    groups: Groups,
    covers: Covers,
    g: usize,
    rows: &[u64],
    unresolved: &[u64],
    roots: &[u64],
    links: &[u64],
    offsets: &[u64],
    targets: &[u64],
    starts: &[u64],
    kids: &[u64],
) -> Result<usize, Refusal>
    requires ready { Ready z subject.now groups rows.now unresolved.now roots.now links.now offsets.now targets.now }
    requires children { (Children z offsets.now targets.now starts.now kids.now) × (CoversCounted z groups rows.now covers) }
    requires g_lt_count { g < groups.count }
    ensures { MeasuredGroup (sheet_of z subject.now groups rows.now unresolved.now roots.now links.now
        offsets.now targets.now) g result }
{
    let f = facts_of(groups, covers, g);
    let s = section_of(z, g, rows, unresolved, roots, links);
    measure_section(
        z,
        subject.len(),
        f.known,
        f.rises,
        f.to - f.from,
        s,
        unresolved,
        offsets,
        targets,
        starts,
        kids,
    )
}

// Building's rules, group by group, and the length of all files.
pub fn measure(
    z: Counts,
    subject: &[u8],
    groups: Groups,
    covers: Covers,
    rows: &[u64],
    unresolved: &[u64],
    roots: &[u64],
    links: &[u64],
    offsets: &[u64],
    targets: &[u64],
    starts: &[u64],
    kids: &[u64],
) -> Result<usize, Refusal>
    requires ready { Ready z subject.now groups rows.now unresolved.now roots.now links.now offsets.now targets.now }
    requires children { (Children z offsets.now targets.now starts.now kids.now) × (CoversCounted z groups rows.now covers) }
    ensures { MeasuredBy (sheet_of z subject.now groups rows.now unresolved.now roots.now links.now
        offsets.now targets.now) result }
{
    let mut total = 0;
    for g in 0..groups.count {
        total += measure_group(
            z, subject, groups, covers, g, rows, unresolved, roots, links, offsets, targets,
            starts, kids,
        )?;
    }
    Ok(total)
}
