// The set of an output file out of a table of lists over all rows of a run: of a section of its rows the numbers from `low` up to `high`,
// written as columns. Slot q of a section that starts at the number `first` has the event first + q / 2.
ghost use Rattle.std.specs.Prelude.{◌≡◌, true, [], ◌∷◌, ◌+◌, ◌*◌, ◌≤◌, ◌<◌, length, get_or};
ghost use Rattle.std.proofs.lemmas.List.Edits.{sets};
ghost use Rattle.lists.specs.Lists.{all};
ghost use Rattle.columns.specs.Limits.{kinds, end64};
ghost use Rattle.columns.specs.EdgeSet.{from_to, cut, set_of};
ghost use Rattle.columns.specs.Building.{fits63, deltas_fit, deltas_within, rows_within};

use crate::sets::delta;
use arrays::index;
use columns::between::is_between;

// Writes event minus t if t is a number from low up to high; answers the place after it.
fn write_delta(out: &mut [i64], at: usize, event: u64, t: u64, low: u64, high: u64) -> usize
    requires t_value { all fits63 (deltas_within low high event (t ∷ [])) ≡ true }
    requires t_in_bounds { at + length (deltas_within low high event (t ∷ [])) ≤ length out.old }
    ensures out_after { out.new ≡ sets out.old at (deltas_within low high event (t ∷ [])) }
    ensures value { result ≡ at + length (deltas_within low high event (t ∷ [])) }
{
    if !is_between(t, low, high) {
        return at;
    }
    out[at] = delta(event, t);
    at + 1
}

// The same for each number of the table's list s.
fn write_list(
    out: &mut [i64],
    at: usize,
    event: u64,
    offsets: &[u64],
    targets: &[u64],
    s: usize,
    low: u64,
    high: u64,
) -> usize
    requires offsets_value { (from_to 0 (length targets.now) offsets.now ≡ true) × (s + 1 < length offsets.now) }
    requires s_value { all fits63 (deltas_within low high event (get_or (cut offsets.now targets.now) s [])) ≡ true }
    requires s_in_bounds { at + length (deltas_within low high event (get_or (cut offsets.now targets.now) s [])) ≤ length out.old }
    ensures out_after { out.new ≡ sets out.old at (deltas_within low high event (get_or (cut offsets.now targets.now) s [])) }
    ensures value { result ≡ at + length (deltas_within low high event (get_or (cut offsets.now targets.now) s [])) }
{
    let b = index(offsets[s + 1]);
    let mut p = at;
    for j in index(offsets[s])..b {
        p = write_delta(out, p, event, targets[j], low, high);
    }
    p
}

// Writes the set that holds, of the lists of the n rows from row `from` on, the numbers from low up to high; `first` is the number of that row.
// Answers how many edges it has.
pub fn write_lists(
    first: u64,
    n: usize,
    offsets: &[u64],
    targets: &[u64],
    from: usize,
    low: u64,
    high: u64,
    starts: &mut [u64],
    deltas: &mut [i64],
) -> usize
    requires offsets_value { (from_to 0 (length targets.now) offsets.now ≡ true) × (2 * (from + n) < length offsets.now) }
    requires n_bound { (first + n ≤ end64) × (deltas_fit kinds first (rows_within kinds low high from n offsets.now targets.now) ≡ true) }
    requires n_in_bounds { (2 * n < length starts.old) × (length targets.now ≤ length deltas.old) }
    ensures value { result ≡ (set_of kinds first (rows_within kinds low high from n offsets.now targets.now)).count }
    ensures starts_after { starts.new ≡ sets starts.old 0 (set_of kinds first (rows_within kinds low high from n offsets.now targets.now)).offsets }
    ensures deltas_after { deltas.new ≡ sets deltas.old 0 (set_of kinds first (rows_within kinds low high from n offsets.now targets.now)).deltas }
{
    let mut q = 0;
    let mut p = 0;
    while q < 2 * n {
        starts[q] = p as u64;
        let event = first + ((q / 2) as u64);
        p = write_list(deltas, p, event, offsets, targets, 2 * from + q, low, high);
        q += 1;
    }
    starts[q] = p as u64;
    p
}
