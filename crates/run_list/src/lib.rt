// The listing of a resolved run, in lent bytes: a line for each event, the lines of each output file, and how many survivors were reparented. It goes
// over the tables that the archive is written from, and is refused where that is.
#![tactic(auto)]

mod files;
mod maps;

ghost use Rattle.std.specs.Prelude.{◌≡◌, true, ◌+◌, ◌*◌, ◌≤◌, length};
ghost use Rattle.columns.specs.Limits.{kinds};
ghost use Rattle.cleaning.specs.Held.{archive_held};
ghost use Rattle.cleaning.specs.Sections.{Filled};
ghost use Rattle.run_state.specs.View.{sheet_in, held_in};
ghost use Rattle.run_state.specs.Valid.{held_ok};
ghost use Rattle.run_state.specs.order.Ordered.{ordered};
ghost use Rattle.run_text.specs.numbers.Wrote.{Wrote};
ghost use Rattle.run_section.specs.Tables.{sheet_of};
ghost use Rattle.run_section.specs.Ready as tables;
ghost use Rattle.run_section.specs.Ready.{Children};
ghost use Rattle.run_section.specs.Covers.{CoversCounted};
ghost use Rattle.run_section.specs.Laid.{counts_of};
ghost use Rattle.run_section.specs.Prepared.{LaidBy};
ghost use Rattle.run_list.specs.Groups.{lines_of, need_of, Tabled, Spanned};
ghost use Rattle.run_list.specs.Listed.{Ready, Lists, text_with};

use columns::refusal::Refusal;
use run_records::lengths::measure;
use run_section::Counts;
use run_section::prepare::{Prepared, prepare};
use run_state::order::long::{held_long, sheet_long};
use run_state::{Groups, Held, Sheet};
use run_text::lines::put_reparented;

// The text, which has room, of the first n groups' files.
fn put_listing(
    h: Held,
    z: Counts,
    n: usize,
    rows: &[u64],
    offsets: &[u64],
    targets: &[u64],
    starts: &[u64],
    kids: &[u64],
    out: &mut [u8],
) -> usize
    requires h_value { (held_ok h ≡ true) × (ordered h.sheet ≡ true) }
    requires tabled { (Tabled z n rows.now offsets.now targets.now starts.now kids.now) × (Spanned z n rows.now offsets.now targets.now starts.now kids.now) }
    requires kids_in_bounds { 46 * h.sheet.rows.count + (need_of z n rows.now offsets.now targets.now starts.now kids.now + 32) ≤ length out.old }
    ensures { Wrote (text_with (archive_held kinds (held_in h)) (lines_of z n rows.now offsets.now targets.now starts.now kids.now))
        (46 * h.sheet.rows.count + (need_of z n rows.now offsets.now targets.now starts.now kids.now + 32))
        out.old 0 out.new result }
{
    held_long(h);
    let p = maps::put_held(out, h);
    let q = files::put_files(out, p, z, n, rows, offsets, targets, starts, kids);
    put_reparented(out, q, run_resolve::sheet::asked::reparented(h))
}

// Writes the listing of survivors in tables, unless a rule refuses the writing or the listing has no room.
fn list_tables(
    h: Held,
    p: Prepared,
    subject: &[u8],
    groups: Groups,
    rows: &[u64],
    unresolved: &[u64],
    roots: &[u64],
    links: &[u64],
    offsets: &[u64],
    targets: &[u64],
    starts: &[u64],
    kids: &[u64],
    out: &mut [u8],
) -> Result<usize, Refusal>
    requires h_value { (held_ok h ≡ true) × (ordered h.sheet ≡ true) }
    requires ready { tables.Ready p.counts subject.now groups rows.now unresolved.now roots.now links.now offsets.now targets.now }
    requires children { (Children p.counts offsets.now targets.now starts.now kids.now) × (CoversCounted p.counts groups rows.now p.covers) }
    requires filled { Filled (sheet_of p.counts subject.now groups rows.now unresolved.now roots.now links.now offsets.now targets.now) }
    ensures { Lists (held_in h) (sheet_of p.counts subject.now groups rows.now unresolved.now roots.now links.now
        offsets.now targets.now) out.old out.new result }
{
    held_long(h);
    let z = p.counts;
    measure(
        z, subject, groups, p.covers, rows, unresolved, roots, links, offsets, targets, starts,
        kids,
    )?;
    let n = groups.count;
    let bytes = files::need_files(z, n, rows, offsets, targets, starts, kids);
    if out.len() < 46 * h.sheet.rows.count + (bytes + 32) {
        return Err(Refusal::SliceShort);
    }
    Ok(put_listing(h, z, n, rows, offsets, targets, starts, kids, out))
}

// The same of a sheet whose tables and children stand in lent arrays.
fn list_laid(
    h: Held,
    s: Sheet,
    p: Prepared,
    rows: &[u64],
    unresolved: &[u64],
    roots: &[u64],
    links: &[u64],
    starts: &[u64],
    kids: &[u64],
    out: &mut [u8],
) -> Result<usize, Refusal>
    requires ready { Ready h s }
    requires laid_by { (LaidBy s rows.now unresolved.now roots.now links.now starts.now kids.now p) × (CoversCounted (counts_of s) s.groups rows.now p.covers) }
    ensures { Lists (held_in h) (sheet_in s) out.old out.new result }
{
    sheet_long(s);
    let name = s.subject.bytes;
    let offsets = s.edges.offsets;
    let targets = s.edges.targets;
    let size = s.subject.length;
    let k = 2 * s.rows.count + 1;
    let m = s.edges.count;
    let n = p.kids;
    list_tables(
        h,
        p,
        &name[..size],
        s.groups,
        rows,
        unresolved,
        roots,
        links,
        &offsets[..k],
        &targets[..m],
        &starts[..k],
        &kids[..n],
        out,
    )
}

// Writes the listing, unless a rule refuses the writing or the listing has no room.
pub fn list(h: Held, s: Sheet, out: &mut [u8]) -> Result<usize, Refusal>
    requires { Ready h s }
    ensures { Lists (held_in h) (sheet_in s) out.old out.new result }
{
    let mut rows = [0u64; 4096];
    let mut unresolved = [0u64; 3072];
    let mut roots = [0u64; 2048];
    let mut links = [0u64; 5120];
    let mut starts = [0u64; 2049];
    let mut kids = [0u64; 4096];
    let mut ranges = [0u64; 3072];
    let p = prepare(
        s,
        &mut rows,
        &mut unresolved,
        &mut roots,
        &mut links,
        &mut starts,
        &mut kids,
        &mut ranges,
    );
    list_laid(
        h,
        s,
        p,
        &rows,
        &unresolved,
        &roots,
        &links,
        &starts,
        &kids,
        out,
    )
}
