// The cleaned archive of a run's survivors: one file for each group, groups rising.
#![tactic(auto)]

ghost use Rattle.std.specs.Prelude.{◌≡◌, true};
ghost use Rattle.cleaning.specs.Sections.{Filled};
ghost use Rattle.run_state.specs.View.{sheet_in};
ghost use Rattle.run_state.specs.Valid.{sheet_ok, once_ok};
ghost use Rattle.run_state.specs.order.Ordered.{ordered, filled};
ghost use Rattle.run_section.specs.Tables.{sheet_of};
ghost use Rattle.run_section.specs.Ready.{Ready, Children};
ghost use Rattle.run_section.specs.Covers.{CoversAt};
ghost use Rattle.run_section.specs.Prepared.{PreparedBy};
ghost use Rattle.run_records.specs.Files.{Stores};
ghost use Rattle.run_write.specs.Answers.{Wrote};

use columns::refusal::Refusal;
use run_records::files::put_groups;
use run_records::lengths::measure;
use run_section::prepare::{Prepared, prepare};
use run_state::order::long::sheet_long;
use run_state::{Groups, Sheet};

// Writes the archive of survivors in tables, unless a rule refuses it or it has no room: every group's rules and the length of its file come first,
// so that a refusal leaves the lent bytes as they were.
fn write_tables(
    p: Prepared,
    subject: &[u8],
    groups: Groups,
    rows: &[u64],
    unresolved: &[u64],
    roots: &[u64],
    links: &[u64],
    ranges: &[u64],
    offsets: &[u64],
    targets: &[u64],
    starts: &[u64],
    kids: &[u64],
    out: &mut [u8],
) -> Result<usize, Refusal>
    requires ready { Ready p.counts subject.now groups rows.now unresolved.now roots.now links.now offsets.now targets.now }
    requires children { (Children p.counts offsets.now targets.now starts.now kids.now) × (CoversAt p.counts groups rows.now ranges.now p.covers) }
    requires stores { Stores p.counts rows.now unresolved.now links.now ranges.now }
    requires filled { Filled (sheet_of p.counts subject.now groups rows.now unresolved.now roots.now links.now offsets.now targets.now) }
    ensures { Wrote (sheet_of p.counts subject.now groups rows.now unresolved.now roots.now links.now
        offsets.now targets.now) out.old out.new result }
{
    let z = p.counts;
    let covers = p.covers;
    let n = measure(
        z, subject, groups, covers, rows, unresolved, roots, links, offsets, targets, starts, kids,
    )?;
    if out.len() < n {
        return Err(Refusal::SliceShort);
    }
    put_groups(
        z, subject, groups, covers, rows, unresolved, roots, links, ranges, offsets, targets,
        starts, kids, out,
    );
    Ok(n)
}

// The same of a sheet whose tables, children and ranges stand in lent arrays.
fn write_laid(
    s: Sheet,
    p: Prepared,
    rows: &[u64],
    unresolved: &[u64],
    roots: &[u64],
    links: &[u64],
    starts: &[u64],
    kids: &[u64],
    ranges: &[u64],
    out: &mut [u8],
) -> Result<usize, Refusal>
    requires s_value { (sheet_ok s ≡ true) × (filled s ≡ true) }
    requires prepared_by { PreparedBy s rows.now unresolved.now roots.now links.now starts.now kids.now ranges.now p }
    ensures { Wrote (sheet_in s) out.old out.new result }
{
    sheet_long(s);
    let name = s.subject.bytes;
    let offsets = s.edges.offsets;
    let targets = s.edges.targets;
    let size = s.subject.length;
    let k = 2 * s.rows.count + 1;
    let m = s.edges.count;
    let n = p.kids;
    write_tables(
        p,
        &name[..size],
        s.groups,
        rows,
        unresolved,
        roots,
        links,
        ranges,
        &offsets[..k],
        &targets[..m],
        &starts[..k],
        &kids[..n],
        out,
    )
}

// Writes the archive of a sheet, unless a rule refuses it or it has no room.
pub fn write_sheet(s: Sheet, out: &mut [u8]) -> Result<usize, Refusal>
    requires { (sheet_ok s ≡ true) × ((ordered s ≡ true) × ((filled s ≡ true) × (once_ok s ≡ true))) }
    ensures { Wrote (sheet_in s) out.old out.new result }
{
    let mut rows = [0u64; 4096];
    let mut unresolved = [0u64; 3072];
    let mut roots = [0u64; 2048];
    let mut links = [0u64; 5120];
    let mut starts = [0u64; 2049];
    let mut kids = [0u64; 4096];
    let mut ranges = [0u64; 3072];
    let p = prepare(
        s,
        &mut rows,
        &mut unresolved,
        &mut roots,
        &mut links,
        &mut starts,
        &mut kids,
        &mut ranges,
    );
    write_laid(
        s,
        p,
        &rows,
        &unresolved,
        &roots,
        &links,
        &starts,
        &kids,
        &ranges,
        out,
    )
}
