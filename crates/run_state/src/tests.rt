// Tests of one or two columns: the form of offsets, numbers below their event and once in a list, records of rows that are there.
ghost use Rattle.std.specs.Prelude.{◌≡◌, true, not, [], ◌+◌, ◌*◌, ◌≤◌, ◌<◌, length, get_or, take};
ghost use Rattle.std.proofs.Math.Seq.{slice};
ghost use Rattle.lists.specs.Lists.{all};
ghost use Rattle.columns.specs.Limits.{kinds, end64};
ghost use Rattle.columns.specs.EdgeSet.{offsets_form, cut, event_of};
ghost use Rattle.columns.specs.Building.{in_file, slot_rules};
ghost use Rattle.cleaning.specs.Source.{is_there};
ghost use Rattle.run_state.specs.Valid.{below, earlier};

use arrays::index;
use columns::kind::KINDS;
use columns_rules::records::parts::is_in_file;
use columns_rules::slots::slot_rules;
use columns_slots::sets::is_form;

// Whether the offsets of n rows are in form.
pub fn table_ok(n: usize, count: usize, offsets: &[u64]) -> bool
    requires { (n ≤ 1024) × (length offsets.now ≡ 2049) }
    ensures { result ≡ offsets_form kinds n count (take (2 * n + 1) offsets.now) }
{
    let k = 2 * n + 1;
    is_form(KINDS, n, count as u64, &offsets[..k])
}

// Whether each number is below the event.
pub fn are_below(event: u64, numbers: &[u64]) -> bool
    ensures { result ≡ all (below event) numbers.now }
{
    numbers.iter().all(|&x| x < event)
}

// Whether the numbers of slot s are below its event.
fn slot_earlier(first: u64, rows: usize, offsets: &[u64], targets: &[u64], s: usize) -> bool
    requires s_bound { (s < 2 * rows) × ((rows ≤ 1024) × (first + rows < end64)) }
    requires offsets_value { offsets_form kinds rows (length targets.now) offsets.now ≡ true }
    ensures { result ≡ all (below (event_of kinds first s)) (get_or (cut offsets.now targets.now) s []) }
{
    let from = index(offsets[s]);
    let to = index(offsets[s + 1]);
    let row = s / 2;
    let event = first + (row as u64);
    are_below(event, &targets[from..to])
}

// Whether every number is below its event.
fn are_earlier(first: u64, rows: usize, offsets: &[u64], targets: &[u64]) -> bool
    requires rows_bound { (rows ≤ 1024) × (first + rows < end64) }
    requires offsets_value { offsets_form kinds rows (length targets.now) offsets.now ≡ true }
    ensures { result ≡ earlier first 0 (cut offsets.now targets.now) }
{
    for s in 0..2 * rows {
        if !slot_earlier(first, rows, offsets, targets, s) {
            return false;
        }
    }
    true
}

// Whether every number that is held is below its event.
pub fn order_ok(first: u64, rows: usize, count: usize, offsets: &[u64], targets: &[u64]) -> bool
    requires rows_bound { (rows ≤ 1024) × ((first + rows < end64) × (count ≤ 4096)) }
    requires offsets_len { (length offsets.now ≡ 2049) × (length targets.now ≡ 4096) }
    requires offsets_value { offsets_form kinds rows count (take (2 * rows + 1) offsets.now) ≡ true }
    ensures { result ≡ earlier first 0 (cut (take (2 * rows + 1) offsets.now) (take count targets.now)) }
{
    let k = 2 * rows + 1;
    are_earlier(first, rows, &offsets[..k], &targets[..count])
}

// Whether every number that is held is below its event and stands once in its list.
pub fn once_ok(first: u64, rows: usize, count: usize, offsets: &[u64], targets: &[u64]) -> bool
    requires rows_bound { (rows ≤ 1024) × ((first + rows < end64) × (count ≤ 4096)) }
    requires offsets_len { (length offsets.now ≡ 2049) × (length targets.now ≡ 4096) }
    requires offsets_value { offsets_form kinds rows count (take (2 * rows + 1) offsets.now) ≡ true }
    ensures { result ≡ not (is_there (slot_rules kinds first 0 (cut (take (2 * rows + 1) offsets.now) (take count targets.now)))) }
{
    let k = 2 * rows + 1;
    slot_rules(first, rows, &offsets[..k], &targets[..count]).is_ok()
}

// Whether each number is that of a row from `first` on.
pub fn are_in_file(first: u64, rows: usize, numbers: &[u64]) -> bool
    ensures { result ≡ all (in_file first (first + rows)) numbers.now }
{
    numbers.iter().all(|&x| is_in_file(first, rows, x))
}
