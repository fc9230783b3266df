// A set's columns written: for each slot of a granule's rows where it starts, and the deltas of its targets.
ghost use Rattle.std.specs.Prelude.{◌≡◌, true, [], map, ◌+◌, ◌-◌, ◌*◌, ◌/◌, ◌≤◌, ◌<◌, length, get_or, take};
ghost use Rattle.std.proofs.Math.Seq.{slice};
ghost use Rattle.std.proofs.lemmas.List.Edits.{sets};
ghost use Rattle.lists.specs.Lists.{part, joined, starts};
ghost use Rattle.columns.specs.Limits.{kinds, end64};
ghost use Rattle.columns.specs.EdgeSet.{offsets_form, cut, delta_of, deltas_from};
ghost use Rattle.columns.specs.Building.{fits63, deltas_fit, reverse_lists};
ghost use Rattle.columns_rules.specs.spans.Spanned.{spans_fit};
ghost use Rattle.columns_sets.specs.sets.Reached.{set_at, Reached, Turnable};

use crate::transpose::turn;
use arrays::index;

// Event minus target, where that is a number of signed 64 bits.
pub fn delta(event: u64, target: u64) -> i64
    requires { fits63 (delta_of event target) ≡ true }
    ensures { result ≡ delta_of event target }
{
    if target <= event {
        return (event - target) as i64;
    }
    let past = target - event - 1;
    -1 - (past as i64)
}

// Writes the deltas of targets[a..b], each `base` places before its target's.
fn write_slot(event: u64, targets: &[u64], a: usize, b: usize, base: usize, out: &mut [i64])
    requires base_le_a { (base ≤ a) × ((a ≤ b) × ((b ≤ length targets.now) × (length targets.now ≤ length out.old))) }
    requires targets_value { spans_fit event (slice a b targets.now) ≡ true }
    ensures { out.new ≡ sets out.old (a - base) (map (delta_of event) (slice a b targets.now)) }
{
    for j in a..b {
        out[j - base] = delta(event, targets[j]);
    }
}

// Writes the deltas of the granule's slot q.
fn write_slot_of(
    first: u64,
    rows: usize,
    from: usize,
    q: usize,
    base: usize,
    offsets: &[u64],
    targets: &[u64],
    out: &mut [i64],
)
    requires q_bound { (2 * from + q < 2 * rows) × ((rows ≤ 1024) × ((first + rows < end64) × (base ≤ get_or offsets.now (2 * from + q) 0))) }
    requires targets_in_bounds { (length targets.now ≤ length out.old) × (offsets_form kinds rows (length targets.now) offsets.now ≡ true) }
    requires q_value { spans_fit (first + from + q / 2) (get_or (cut offsets.now targets.now) (2 * from + q) []) ≡ true }
    ensures { out.new ≡ sets out.old (get_or offsets.now (2 * from + q) 0 - base)
        (map (delta_of (first + from + q / 2)) (get_or (cut offsets.now targets.now) (2 * from + q) [])) }
{
    let s = 2 * from + q;
    let a = index(offsets[s]);
    let b = index(offsets[s + 1]);
    let row = from + q / 2;
    let event = first + (row as u64);
    write_slot(event, targets, a, b, base, out);
}

// Writes the deltas of the n rows from row `from` on, slot after slot.
fn write_deltas(
    first: u64,
    rows: usize,
    from: usize,
    n: usize,
    offsets: &[u64],
    targets: &[u64],
    out: &mut [i64],
)
    requires rows_bound { (rows ≤ 1024) × ((first + rows < end64) × ((from + n ≤ rows) × (length targets.now ≤ length out.old))) }
    requires offsets_value { offsets_form kinds rows (length targets.now) offsets.now ≡ true }
    requires targets_value { deltas_fit kinds (first + from) (part (2 * from) (2 * n) (cut offsets.now targets.now)) ≡ true }
    ensures { out.new ≡ sets out.old 0 (joined (deltas_from kinds (first + from) 0 (part (2 * from) (2 * n) (cut offsets.now targets.now)))) }
{
    let base = index(offsets[2 * from]);
    for q in 0..2 * n {
        write_slot_of(first, rows, from, q, base, offsets, targets, out);
    }
}

// Writes where the slots of the n rows from row `from` on start, the first at 0, and where the last ends.
fn write_starts(
    rows: usize,
    from: usize,
    n: usize,
    offsets: &[u64],
    targets: &[u64],
    out: &mut [u64],
)
    requires rows_bound { (rows ≤ 1024) × ((from + n ≤ rows) × (2 * n < length out.old)) }
    requires offsets_value { offsets_form kinds rows (length targets.now) offsets.now ≡ true }
    ensures { out.new ≡ sets out.old 0 (starts 0 (part (2 * from) (2 * n) (cut offsets.now targets.now))) }
{
    let base = offsets[2 * from];
    for s in 0..2 * n + 1 {
        out[s] = offsets[2 * from + s] - base;
    }
}

// Writes the set that holds the lists of the n rows from row `from` on, and answers how many edges it has.
pub fn write_set(
    first: u64,
    rows: usize,
    from: usize,
    n: usize,
    offsets: &[u64],
    targets: &[u64],
    starts: &mut [u64],
    deltas: &mut [i64],
) -> usize
    requires reached { Reached first rows from n offsets.now targets.now }
    requires n_in_bounds { (2 * n < length starts.old) × (length targets.now ≤ length deltas.old) }
    ensures value { result ≡ (set_at first from n (cut offsets.now targets.now)).count }
    ensures starts_after { starts.new ≡ sets starts.old 0 (set_at first from n (cut offsets.now targets.now)).offsets }
    ensures deltas_after { deltas.new ≡ sets deltas.old 0 (set_at first from n (cut offsets.now targets.now)).deltas }
{
    write_starts(rows, from, n, offsets, targets, starts);
    write_deltas(first, rows, from, n, offsets, targets, deltas);
    let low = index(offsets[2 * from]);
    let high = index(offsets[2 * from + 2 * n]);
    high - low
}

// The same for lists that start a longer table: 2 * rows + 1 offsets into m targets.
pub fn write_table(
    first: u64,
    rows: usize,
    from: usize,
    n: usize,
    offsets: &[u64],
    targets: &[u64],
    m: usize,
    starts: &mut [u64],
    deltas: &mut [i64],
) -> usize
    requires rows_in_bounds { (2 * rows + 1 ≤ length offsets.now) × (m ≤ length targets.now) }
    requires reached { Reached first rows from n (take (2 * rows + 1) offsets.now) (take m targets.now) }
    requires n_in_bounds { (2 * n < length starts.old) × (m ≤ length deltas.old) }
    ensures value { result ≡ (set_at first from n (cut (take (2 * rows + 1) offsets.now) (take m targets.now))).count }
    ensures starts_after { starts.new ≡ sets starts.old 0 (set_at first from n (cut (take (2 * rows + 1) offsets.now) (take m targets.now))).offsets }
    ensures deltas_after { deltas.new ≡ sets deltas.old 0 (set_at first from n (cut (take (2 * rows + 1) offsets.now) (take m targets.now))).deltas }
{
    let k = 2 * rows + 1;
    write_set(
        first,
        rows,
        from,
        n,
        &offsets[..k],
        &targets[..m],
        starts,
        deltas,
    )
}

// Writes the reverse set of the n rows from row `from` on, and answers how many edges it has. offs and list are work space.
pub fn write_turned(
    first: u64,
    rows: usize,
    from: usize,
    n: usize,
    offsets: &[u64],
    targets: &[u64],
    starts: &mut [u64],
    deltas: &mut [i64],
    offs: &mut [u64],
    list: &mut [u64],
) -> usize
    requires turnable { Turnable first rows from n offsets.now targets.now }
    requires n_in_bounds { (2 * n < length starts.old) × (4096 ≤ length deltas.old) }
    requires in_bounds { (2049 ≤ length offs.old) × (4096 ≤ length list.old) }
    ensures value { result ≡ (set_at first from n (reverse_lists kinds first rows (cut offsets.now targets.now))).count }
    ensures starts_after { starts.new ≡ sets starts.old 0 (set_at first from n (reverse_lists kinds first rows (cut offsets.now targets.now))).offsets }
    ensures deltas_after { deltas.new ≡ sets deltas.old 0 (set_at first from n (reverse_lists kinds first rows (cut offsets.now targets.now))).deltas }
{
    let m = turn(first, rows, offsets, targets, offs, list);
    write_table(first, rows, from, n, offs, list, m, starts, deltas)
}
