// The output files of all groups, one after the other: each is written in two halves, its head and sets, then its records.
ghost use Rattle.std.specs.Prelude.{◌≡◌, ◌+◌, ◌≤◌, length};
ghost use Rattle.std.proofs.lemmas.List.Edits.{sets};
ghost use Rattle.columns.specs.Limits.{kinds};
ghost use Rattle.cleaning.specs.Sections.{section_bytes};
ghost use Rattle.run_section.specs.Tables.{sheet_of};
ghost use Rattle.run_section.specs.Files.{sets_at};
ghost use Rattle.run_section.specs.Ready.{Ready, Children};
ghost use Rattle.run_section.specs.Covers.{CoversAt};
ghost use Rattle.run_records.specs.Files.{Wrote, front_at, middle_at, last_at, back_at, FrontReady, MiddleReady, LastReady, Stores};

use crate::covers::put_cover;
use crate::front::{put_edges, put_head};
use crate::tables::{put_roots, put_rows, put_unresolved};
use run_section::covers::Covers;
use run_section::facts::{Facts, facts_of};
use run_section::places::section_of;
use run_section::rules::Known;
use run_section::sizes::edges_of;
use run_section::{Counts, Section};
use run_state::Groups;

// ── one group ────────────────────────────────────────────────────────────────────────────────

// Records 1 and 2 of group g's file.
fn put_front(
    out: &mut [u8],
    at: usize,
    z: Counts,
    g: usize,
    s: Section,
    k: Known,
    subject: &[u8],
    offsets: &[u64],
    targets: &[u64],
    starts: &[u64],
    kids: &[u64],
) -> usize
    requires front_ready { FrontReady z g s subject.now offsets.now targets.now starts.now kids.now }
    requires kids_in_bounds { at + length (front_at z g s k subject.now (sets_at z s offsets.now targets.now starts.now kids.now)) ≤ length out.old }
    ensures { Wrote (front_at z g s k subject.now (sets_at z s offsets.now targets.now starts.now kids.now))
        out.old out.new at result }
{
    let e = edges_of(z, s.rows.from, s.rows.to, offsets, targets, starts, kids);
    let p = put_head(out, at, z, g, s, k, subject);
    put_edges(out, p, z, s, e, offsets, targets, starts, kids)
}

// Records 3, 4 and 5.
fn put_middle(
    out: &mut [u8],
    at: usize,
    s: Section,
    rows: &[u64],
    unresolved: &[u64],
    roots: &[u64],
) -> usize
    requires middle_ready { MiddleReady s rows.now unresolved.now roots.now }
    requires roots_in_bounds { at + length (middle_at s rows.now unresolved.now roots.now) ≤ length out.old }
    ensures { Wrote (middle_at s rows.now unresolved.now roots.now) out.old out.new at result }
{
    let a = s.rows.from;
    let b = s.unresolved.from;
    let c = s.roots.from;
    let p = put_rows(out, at, rows, a, s.rows.to - a);
    let q = put_unresolved(out, p, unresolved, b, s.unresolved.to - b);
    put_roots(out, q, roots, c, s.roots.to - c, a as u64)
}

// Record 6, if the group has a cover, whose ranges are those from record `from` up to record `to`.
fn put_last(
    out: &mut [u8],
    at: usize,
    s: Section,
    covered: bool,
    from: usize,
    to: usize,
    rows: &[u64],
    ranges: &[u64],
    links: &[u64],
) -> usize
    requires last_ready { LastReady s from to rows.now ranges.now links.now }
    requires links_in_bounds { at + length (last_at covered s from to rows.now ranges.now links.now) ≤ length out.old }
    ensures { Wrote (last_at covered s from to rows.now ranges.now links.now) out.old out.new at result }
{
    if !covered {
        return at;
    }
    let a = s.rows.from;
    let u = s.links.from;
    put_cover(
        out,
        at,
        rows,
        a,
        s.rows.to - a,
        ranges,
        from,
        to - from,
        links,
        u,
        s.links.to - u,
    )
}

// Records 3 to 6.
fn put_back(
    out: &mut [u8],
    at: usize,
    s: Section,
    f: Facts,
    rows: &[u64],
    unresolved: &[u64],
    roots: &[u64],
    links: &[u64],
    ranges: &[u64],
) -> usize
    requires middle_ready { (MiddleReady s rows.now unresolved.now roots.now) × (LastReady s f.from f.to rows.now ranges.now links.now) }
    requires ranges_in_bounds { at + length (back_at s f rows.now unresolved.now roots.now links.now ranges.now) ≤ length out.old }
    ensures { Wrote (back_at s f rows.now unresolved.now roots.now links.now ranges.now) out.old out.new at result }
{
    let p = put_middle(out, at, s, rows, unresolved, roots);
    put_last(
        out,
        p,
        s,
        f.known.covered,
        f.from,
        f.to,
        rows,
        ranges,
        links,
    )
}

// ── all groups ───────────────────────────────────────────────────────────────────────────────

// The files of all groups, one after the other.
pub fn put_groups(
    z: Counts,
    subject: &[u8],
    groups: Groups,
    covers: Covers,
    rows: &[u64],
    unresolved: &[u64],
    roots: &[u64],
    links: &[u64],
    ranges: &[u64],
    offsets: &[u64],
    targets: &[u64],
    starts: &[u64],
    kids: &[u64],
    out: &mut [u8],
)
    requires ready { Ready z subject.now groups rows.now unresolved.now roots.now links.now offsets.now targets.now }
    requires children { (Children z offsets.now targets.now starts.now kids.now) × (CoversAt z groups rows.now ranges.now covers) }
    requires stores { Stores z rows.now unresolved.now links.now ranges.now }
    requires targets_in_bounds { length (section_bytes kinds (sheet_of z subject.now groups rows.now unresolved.now roots.now links.now offsets.now targets.now)) ≤ length out.old }
    ensures { out.new ≡ sets out.old 0
        (section_bytes kinds (sheet_of z subject.now groups rows.now unresolved.now roots.now links.now
        offsets.now targets.now)) }
{
    let mut at = 0;
    for g in 0..groups.count {
        let f = facts_of(groups, covers, g);
        let s = section_of(z, g, rows, unresolved, roots, links);
        let p = put_front(
            out, at, z, g, s, f.known, subject, offsets, targets, starts, kids,
        );
        at = put_back(out, p, s, f, rows, unresolved, roots, links, ranges);
    }
}
