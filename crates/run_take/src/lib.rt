// A taking, whole: 23 over the archive's bytes, 42 and 43 over the run and the archive, the rules of the archive's files, and the files stored.
#![tactic(auto)]

ghost use Rattle.std.specs.Prelude.{◌≡◌, true, take};
ghost use Rattle.columns.specs.Limits.{kinds};
ghost use Rattle.columns.specs.Answers.{ruling};
ghost use Rattle.archive.specs.Parse.{parse};
ghost use Rattle.archive_read.specs.Sums.{totals_of};
ghost use Rattle.cleaning.specs.Taking.{files_rules};
ghost use Rattle.cleaning.specs.Held.{look_back, hold_rules, hold_more};
ghost use Rattle.cleaning.specs.History.{files_in};
ghost use Rattle.run_state.specs.View.{sheet_in, held_in};
ghost use Rattle.run_state.specs.Valid.{sheet_ok, held_ok};
ghost use Rattle.run_state.specs.order.Ordered.{ordered};
ghost use Rattle.run_rules.specs.parts.Back.{back_of};
ghost use Rattle.run_rules.specs.files.Archive.{Within};
ghost use Rattle.run_take.specs.Known.{KnownOf};
ghost use Rattle.run_take.specs.Took.{limits_over, archive_rules, TookBy};

use archive_groups::groups_over;
use archive_read::files::{Totals, sum_up};
use columns::refusal::Refusal;
use run_rules::files::all::files_rules;
use run_rules::limits::{count, limit_rules};
use run_rules::parts::heads::Back;
use run_state::order::long::{held_long, sheet_long, subject_long};
use run_state::{Held, Sheet, Subject};
use run_store::store;

// What the first file looks back at, besides the subject.
fn look_back(s: Sheet) -> Back
    requires { sheet_ok s ≡ true }
    ensures { back_of result (take s.subject.length s.subject.bytes) ≡ look_back (sheet_in s) }
{
    sheet_long(s);
    let g = s.groups;
    let n = g.count;
    if n == 0 {
        return Back {
            known: false,
            group: 0,
            end: 0,
            covered: false,
        };
    }
    let covered = g.covered;
    let last = n - 1;
    Back {
        known: true,
        group: last as u64,
        end: s.start + (s.rows.count as u64),
        covered: covered[last] != 0,
    }
}

// What the rules of an archive look at of what is held: its figures, the number of its groups, what the first file looks back at, and the subject.
#[derive(Clone, Copy)]
pub struct Known {
    pub figures: Totals,
    pub groups: usize,
    pub back: Back,
    pub subject: Subject,
}

pub fn known_of(h: Held) -> Known
    requires { held_ok h ≡ true }
    ensures { KnownOf h result }
{
    let figures = count(h);
    let back = look_back(h.sheet);
    let subject = h.sheet.subject;
    Known {
        figures,
        groups: h.sheet.groups.count,
        back,
        subject,
    }
}

// The rules of an archive's files, the first of which looks back at the rows that are held.
fn known_rules(h: Held, k: Known, bytes: &[u8]) -> Result<(), Refusal>
    requires { (KnownOf h k) × Within (totals_of (parse kinds bytes.now)) }
    ensures { result ≡ ruling (files_rules kinds (look_back (sheet_in h.sheet)) (files_in (parse kinds bytes.now))) }
{
    let subject = k.subject;
    subject_long(subject);
    let n = subject.length;
    let name = subject.bytes;
    let back = k.back;
    files_rules(bytes, back, &name[..n])
}

// 23 of references, then 42, then 43: what a run holds and an archive of those sums together.
fn limits(h: Held, k: Known, bytes: &[u8], t: Totals) -> Result<(), Refusal>
    requires { (held_ok h ≡ true) × ((KnownOf h k) × (totals_of (parse kinds bytes.now) ≡ Ok t)) }
    ensures { result ≡ ruling (limits_over (held_in h) (files_in (parse kinds bytes.now))) }
{
    held_long(h);
    let many = groups_over(bytes, k.groups);
    let figures = k.figures;
    limit_rules(h, figures, t, many)
}

// 23 of references, 42, 43, then file by file.
fn hold_rules(h: Held, k: Known, bytes: &[u8], t: Totals) -> Result<(), Refusal>
    requires { (held_ok h ≡ true) × ((KnownOf h k) × (totals_of (parse kinds bytes.now) ≡ Ok t)) }
    ensures { result ≡ ruling (hold_rules kinds (held_in h) (files_in (parse kinds bytes.now))) }
{
    limits(h, k, bytes, t)?;
    known_rules(h, k, bytes)
}

// 23, then the others, by what is known of what is held, which itself is not read.
// Not inlined, so that its columns and those of the steps beside it do not stand on the stack at once.
#[inline(never)]
pub fn rules_by(h: Held, k: Known, bytes: &[u8]) -> Result<(), Refusal>
    requires { (held_ok h ≡ true) × (KnownOf h k) }
    ensures { result ≡ ruling (archive_rules (held_in h) (parse kinds bytes.now)) }
{
    let t = sum_up(bytes)?;
    hold_rules(h, k, bytes, t)
}

// What a run holds with an archive more, or the first rule that is broken.
pub fn take(h: Held, bytes: &[u8]) -> Result<Held, Refusal>
    requires { (held_ok h ≡ true) × (ordered h.sheet ≡ true) }
    ensures { TookBy (hold_more kinds (held_in h) (parse kinds bytes.now)) result }
{
    rules_by(h, known_of(h), bytes)?;
    Ok(store(h, bytes))
}
