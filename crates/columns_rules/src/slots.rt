// Building's rules on a file's parents, each in turn (4, 5).
ghost use Rattle.std.specs.Prelude.{◌≡◌, true, [], ◌+◌, ◌*◌, ◌≤◌, ◌<◌, length, get_or};
ghost use Rattle.std.proofs.Math.Seq.{slice};
ghost use Rattle.columns.specs.Limits.{kinds, end64};
ghost use Rattle.columns.specs.EdgeSet.{offsets_form, cut, event_of};
ghost use Rattle.columns.specs.Building.{parent_rules, slot_rules};
ghost use Rattle.columns.specs.Answers.{ruling};

use arrays::index;
use arrays::searching::among;
use columns::refusal::Refusal;

// Each parent of one slot in turn: below its event, and not one of those before it.
fn parent_rules(event: u64, targets: &[u64], from: usize, to: usize) -> Result<(), Refusal>
    requires { (from ≤ to) × (to ≤ length targets.now) }
    ensures { result ≡ ruling (parent_rules event [] (slice from to targets.now)) }
{
    for j in from..to {
        let p = targets[j];
        if event <= p {
            return Err(Refusal::ParentNotEarlier);
        }
        if among(targets, from, j, p) {
            return Err(Refusal::ParentTwice);
        }
    }
    Ok(())
}

// The parents of slot s.
fn slot_rule(
    first: u64,
    rows: usize,
    offsets: &[u64],
    targets: &[u64],
    s: usize,
) -> Result<(), Refusal>
    requires s_bound { (s < 2 * rows) × ((rows ≤ 1024) × (first + rows < end64)) }
    requires offsets_value { offsets_form kinds rows (length targets.now) offsets.now ≡ true }
    ensures { result ≡ ruling (parent_rules (event_of kinds first s) [] (get_or (cut offsets.now targets.now) s [])) }
{
    let from = index(offsets[s]);
    let to = index(offsets[s + 1]);
    let row = s / 2;
    let event = first + (row as u64);
    parent_rules(event, targets, from, to)
}

// Row by row, kinds rising.
pub fn slot_rules(first: u64, rows: usize, offsets: &[u64], targets: &[u64]) -> Result<(), Refusal>
    requires rows_bound { (rows ≤ 1024) × (first + rows < end64) }
    requires offsets_value { offsets_form kinds rows (length targets.now) offsets.now ≡ true }
    ensures { result ≡ ruling (slot_rules kinds first 0 (cut offsets.now targets.now)) }
{
    for s in 0..2 * rows {
        slot_rule(first, rows, offsets, targets, s)?;
    }
    Ok(())
}
