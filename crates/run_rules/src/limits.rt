// 23 of a taking's references, and 42 and 43: what a run holds and what an archive adds, together.
ghost use Rattle.std.specs.Prelude.{◌≡◌, ◌+◌, ltb};
ghost use Rattle.columns.specs.Answers.{ruling};
ghost use Rattle.run_rules.specs.limits.Figures.{figures, many_records, many_numbers, limit_rules};

use archive_read::files::Totals;
use columns::refusal::Refusal;
use run_state::Held;

// Whether so many, and so many more, are over a limit.
fn is_over(most: usize, held: usize, more: usize) -> bool
    ensures { result ≡ ltb most (held + more) }
{
    if most < held {
        return true;
    }
    most - held < more
}

// What is held, counted as an archive's files are.
pub fn count(h: Held) -> Totals
    ensures { result ≡ figures h }
{
    Totals {
        files: 0,
        events: h.sheet.rows.count,
        roots: h.sheet.roots.count,
        unresolved: h.sheet.unresolved.count,
        ranges: h.ranges,
        links: h.sheet.links.count,
        forward: h.sheet.edges.count,
        reverse: h.reverse.count,
        inbound: h.inbound.count,
        references: 0,
    }
}

// 42, but for group numbers, of which the caller says whether there are too many.
fn many_records(a: Totals, b: Totals, groups: bool) -> bool
    ensures { result ≡ many_records a b groups }
{
    if is_over(1024, a.events, b.events) {
        return true;
    }
    if is_over(1024, a.roots, b.roots) {
        return true;
    }
    if is_over(1024, a.unresolved, b.unresolved) {
        return true;
    }
    if is_over(1024, a.ranges, b.ranges) {
        return true;
    }
    if is_over(1024, a.links, b.links) {
        return true;
    }
    groups
}

// 43: the deltas of each set.
fn many_numbers(a: Totals, b: Totals) -> bool
    ensures { result ≡ many_numbers a b }
{
    if is_over(4096, a.forward, b.forward) {
        return true;
    }
    if is_over(4096, a.reverse, b.reverse) {
        return true;
    }
    is_over(4096, a.inbound, b.inbound)
}

// 23 of references, which a run does not carry, then 42, then 43, by the figures of what is held, which itself is not read.
pub fn limit_rules(h: Held, a: Totals, t: Totals, groups: bool) -> Result<(), Refusal>
    requires { a ≡ figures h }
    ensures { result ≡ ruling (limit_rules h t groups) }
{
    if 0 < t.references {
        return Err(Refusal::RecordBroken);
    }
    if many_records(a, t, groups) {
        return Err(Refusal::OverRecords);
    }
    if many_numbers(a, t) {
        return Err(Refusal::OverNumbers);
    }
    Ok(())
}
