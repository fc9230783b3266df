// Of building's rules those that a run's survivors can break: 1, 7, 8, 10 and 15, of one group, in order.
ghost use Rattle.std.specs.Prelude.{◌≡◌, ◌&&◌, ◌+◌, ◌-◌, ◌*◌, ◌≤◌, ◌<◌, ltb, length, drop};
ghost use Rattle.lists.specs.Lists.{all};
ghost use Rattle.columns.specs.Limits.{end64};
ghost use Rattle.columns.specs.Building.{depth_ok};
ghost use Rattle.columns.specs.Answers.{ruling};
ghost use Rattle.archive_bytes.specs.Bytes.{several};
ghost use Rattle.run_section.specs.Tables.{unresolved_in};
ghost use Rattle.run_section.specs.Rules.{kind_fits, depth_in, KnownOf, faults, Lists, spans_in};

use crate::{Counts, Section};
use columns::refusal::Refusal;
use columns_rules::spans::reach::slots_fit;
use run_state::Groups;

// What is known of a group: its depth, and whether it has a cover.
#[derive(Clone, Copy)]
pub struct Known {
    pub deep: bool,
    pub least: u64,
    pub greatest: u64,
    pub covered: bool,
}

pub fn known_of(groups: Groups, g: usize) -> Known
    requires { g < 16 }
    ensures { KnownOf groups g result }
{
    Known {
        deep: groups.known[g] != 0,
        least: groups.least[g],
        greatest: groups.greatest[g],
        covered: groups.covered[g] != 0,
    }
}

fn depth_fits(k: Known) -> bool
    ensures { result ≡ depth_ok (depth_in k) }
{
    if !k.deep {
        return true;
    }
    k.least <= k.greatest
}

// Whether the kinds of the n unresolved references from record a on are kinds.
fn kinds_fit(unresolved: &[u64], a: usize, n: usize) -> bool
    requires { (a + n) * 3 ≤ length unresolved.now }
    ensures { result ≡ all kind_fits (several 3 unresolved_in n (drop (a * 3) unresolved.now)) }
{
    let mut p = a * 3;
    for i in 0..n {
        if 2 <= unresolved[p + 1] {
            return false;
        }
        p += 3;
    }
    true
}

// 15 of the parents, then of the children, of the n rows from row a on.
fn spans_fit(
    z: Counts,
    a: usize,
    n: usize,
    offsets: &[u64],
    targets: &[u64],
    starts: &[u64],
    kids: &[u64],
) -> bool
    requires rows_bound { (z.rows ≤ 1024) × ((z.start + z.rows < end64) × (a + n ≤ z.rows)) }
    requires lists { Lists z.rows offsets.now targets.now starts.now kids.now }
    ensures { result ≡ spans_in z.start a n offsets.now targets.now && spans_in z.start a n starts.now kids.now }
{
    if !slots_fit(z.start, z.rows, a, n, offsets, targets) {
        return false;
    }
    slots_fit(z.start, z.rows, a, n, starts, kids)
}

// The first rule that is broken, by the tests.
fn first_fault(
    named: bool,
    kinds: bool,
    depth: bool,
    seqs: bool,
    spans: bool,
) -> Result<(), Refusal>
    ensures { result ≡ ruling (faults named kinds depth seqs spans) }
{
    if !named {
        return Err(Refusal::SubjectLength);
    }
    if !kinds {
        return Err(Refusal::UnresolvedKind);
    }
    if !depth {
        return Err(Refusal::DepthOrder);
    }
    if !seqs {
        return Err(Refusal::SeqNotRising);
    }
    if !spans {
        return Err(Refusal::DeltaRange);
    }
    Ok(())
}

// The first rule that a group breaks: `size` is the length of the subject, `rises` says whether its seqs rise along each chain.
pub fn section_rules(
    z: Counts,
    size: usize,
    k: Known,
    rises: bool,
    s: Section,
    unresolved: &[u64],
    offsets: &[u64],
    targets: &[u64],
    starts: &[u64],
    kids: &[u64],
) -> Result<(), Refusal>
    requires rows_bound { (z.rows ≤ 1024) × ((z.start + z.rows < end64) × ((s.rows.from ≤ s.rows.to) × (s.rows.to ≤ z.rows))) }
    requires from_le_to { (s.unresolved.from ≤ s.unresolved.to) × (s.unresolved.to * 3 ≤ length unresolved.now) }
    requires lists { Lists z.rows offsets.now targets.now starts.now kids.now }
    ensures { result ≡ ruling (faults (ltb 0 size) (all kind_fits
        (several 3 unresolved_in (s.unresolved.to - s.unresolved.from) (drop (s.unresolved.from * 3) unresolved.now))) (depth_ok (depth_in k)) rises
        (spans_in z.start s.rows.from (s.rows.to - s.rows.from) offsets.now targets.now && spans_in z.start s.rows.from
        (s.rows.to - s.rows.from) starts.now kids.now)) }
{
    let a = s.rows.from;
    let p = s.unresolved.from;
    let kinds = kinds_fit(unresolved, p, s.unresolved.to - p);
    let spans = spans_fit(z, a, s.rows.to - a, offsets, targets, starts, kids);
    first_fault(0 < size, kinds, depth_fits(k), rises, spans)
}
