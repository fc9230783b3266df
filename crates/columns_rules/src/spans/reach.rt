// Whether every event minus target is a number of signed 64 bits (15): one target, a list, a slot, the slots of a granule.
ghost use Rattle.std.specs.Prelude.{◌≡◌, true, [], ◌+◌, ◌*◌, ◌/◌, ◌≤◌, ◌<◌, length, get_or};
ghost use Rattle.std.proofs.Math.Seq.{slice};
ghost use Rattle.lists.specs.Lists.{part};
ghost use Rattle.columns.specs.Limits.{kinds, end64};
ghost use Rattle.columns.specs.EdgeSet.{offsets_form, cut, delta_of};
ghost use Rattle.columns.specs.Building.{fits63, deltas_fit};
ghost use Rattle.columns_rules.specs.spans.Spanned.{spans_fit};

use arrays::index;

// Whether event minus target is a number of signed 64 bits.
fn span_fits(event: u64, target: u64) -> bool
    ensures { result ≡ fits63 (delta_of event target) }
{
    if target <= event {
        return event - target < 9223372036854775808;
    }
    target - event <= 9223372036854775808
}

// The same for each of targets[from..to].
fn all_fit(event: u64, targets: &[u64], from: usize, to: usize) -> bool
    requires { to ≤ length targets.now }
    ensures { result ≡ spans_fit event (slice from to targets.now) }
{
    for j in from..to {
        if !span_fits(event, targets[j]) {
            return false;
        }
    }
    true
}

// The same for the parents of the granule's slot q.
fn slot_fits(
    first: u64,
    rows: usize,
    from: usize,
    offsets: &[u64],
    targets: &[u64],
    q: usize,
) -> bool
    requires q_bound { (2 * from + q < 2 * rows) × ((rows ≤ 1024) × (first + rows < end64)) }
    requires offsets_value { offsets_form kinds rows (length targets.now) offsets.now ≡ true }
    ensures { result ≡ spans_fit (first + from + q / 2) (get_or (cut offsets.now targets.now) (2 * from + q) []) }
{
    let s = 2 * from + q;
    let a = index(offsets[s]);
    let b = index(offsets[s + 1]);
    let row = from + q / 2;
    let event = first + (row as u64);
    all_fit(event, targets, a, b)
}

// The same for the parents of the n rows from row `from` on.
pub fn slots_fit(
    first: u64,
    rows: usize,
    from: usize,
    n: usize,
    offsets: &[u64],
    targets: &[u64],
) -> bool
    requires rows_bound { (rows ≤ 1024) × ((first + rows < end64) × (from + n ≤ rows)) }
    requires offsets_value { offsets_form kinds rows (length targets.now) offsets.now ≡ true }
    ensures { result ≡ deltas_fit kinds (first + from) (part (2 * from) (2 * n) (cut offsets.now targets.now)) }
{
    for q in 0..2 * n {
        if !slot_fits(first, rows, from, offsets, targets, q) {
            return false;
        }
    }
    true
}
