// The rules of a file: its subject, its slot offsets, its numbers and its parents (1 to 5), in order.
ghost use Rattle.std.specs.Prelude.{◌≡◌, ◌≤◌};
ghost use Rattle.columns.specs.Building.{subject_ok, numbers_ok};
ghost use Rattle.columns.specs.Answers.{ruling};
ghost use Rattle.columns_rules.specs.Ruled.{file_rules};

use crate::slots::slot_rules;
use columns::kind::KINDS;
use columns::refusal::Refusal;
use columns_slots::sets::is_form;

fn subject_fits(subject: &[u8]) -> bool
    ensures { result ≡ subject_ok subject.now }
{
    if subject.len() == 0 {
        return false;
    }
    subject.len() <= 255
}

// Whether the file's numbers, and the one past them, have 64 bits.
fn numbers_fit(first: u64, rows: usize) -> bool
    ensures { result ≡ numbers_ok first rows }
{
    first <= 18446744073709551615 - (rows as u64)
}

// 1 to 5: the subject, the slot offsets, the numbers, the parents.
pub fn file_rules(
    subject: &[u8],
    first: u64,
    rows: usize,
    offsets: &[u64],
    targets: &[u64],
) -> Result<(), Refusal>
    requires { rows ≤ 1024 }
    ensures { result ≡ ruling (file_rules subject.now first rows offsets.now targets.now) }
{
    if !subject_fits(subject) {
        return Err(Refusal::SubjectLength);
    }
    if !is_form(KINDS, rows, targets.len() as u64, offsets) {
        return Err(Refusal::EdgeEntries);
    }
    if !numbers_fit(first, rows) {
        return Err(Refusal::NumberRange);
    }
    slot_rules(first, rows, offsets, targets)
}
