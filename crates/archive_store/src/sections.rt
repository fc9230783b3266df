// The set of an output file out of a table of lists over all rows of a run: of a section of its rows the numbers from `low` up to `high`,
// stored as a count, offsets and deltas. Slot q of a section that starts at the number `first` has the event first + q / 2.
ghost use Rattle.std.specs.Prelude.{◌≡◌, ◌+◌, ◌-◌, ◌*◌, ◌^◌, ◌<◌, ◌≤◌, true, [], ◌∷◌, length, slice_index_or};
ghost use Rattle.std.proofs.Math.Seq.{slice};
ghost use Rattle.std.proofs.lemmas.List.Edits.{sets};
ghost use Rattle.lists.specs.Lists.{filter, joined, starts};
ghost use Rattle.columns.specs.Limits.{kinds, end64};
ghost use Rattle.columns.specs.EdgeSet.{from_to, cut, deltas_from, set_of};
ghost use Rattle.columns.specs.Building.{in_file, rows_within, deltas_within};
ghost use Rattle.archive.specs.Encode.{column_bytes, set_bytes};
ghost use Rattle.archive_store.specs.Lent.{set_size};
ghost use Rattle.archive_store.specs.sections.DeltaBytes.{delta_bytes};

use archive_bytes::{store_u32, store_u64};
use arrays::index;
use columns::between::is_between;

// How many of list[from..to] are numbers from low up to high.
pub fn count_between(list: &[u64], from: usize, to: usize, low: u64, high: u64) -> usize
    requires { (from ≤ to) × (to ≤ length list.now) }
    ensures value { result ≡ length (filter (in_file low high) (slice from to list.now)) }
    ensures upper_bound { result ≤ to - from }
{
    let mut k = 0;
    for j in from..to {
        if is_between(list[j], low, high) {
            k += 1;
        }
    }
    k
}

// How many of the table's list s are.
fn count_list(offsets: &[u64], targets: &[u64], s: usize, low: u64, high: u64) -> usize
    requires { (from_to 0 (length targets.now) offsets.now ≡ true) × (s + 1 < length offsets.now) }
    ensures { result ≡ length (filter (in_file low high) (slice_index_or (cut offsets.now targets.now) s [])) }
{
    let a = index(offsets[s]);
    let b = index(offsets[s + 1]);
    count_between(targets, a, b, low, high)
}

// Stores where the lists of the n rows from row `from` on start, the first at 0, and where the last ends, which is also the answer.
fn store_starts(
    out: &mut [u8],
    at: usize,
    n: usize,
    offsets: &[u64],
    targets: &[u64],
    from: usize,
    low: u64,
    high: u64,
) -> usize
    requires offsets_value { (from_to 0 (length targets.now) offsets.now ≡ true) × (2 * (from + n) < length offsets.now) }
    requires n_in_bounds { at + 8 * (2 * n + 1) ≤ length out.old }
    ensures out_after { out.new ≡ sets out.old at (column_bytes 8 (starts 0 (rows_within kinds low high from n offsets.now targets.now))) }
    ensures value { result ≡ length (joined (rows_within kinds low high from n offsets.now targets.now)) }
{
    let mut sum = 0;
    let mut p = at;
    for q in 0..2 * n {
        store_u64(out, p, sum as u64);
        sum += count_list(offsets, targets, 2 * from + q, low, high);
        p += 8;
    }
    store_u64(out, p, sum as u64);
    sum
}

// Stores event minus t if t is a number from low up to high; answers the place after it.
fn store_delta(out: &mut [u8], at: usize, event: u64, t: u64, low: u64, high: u64) -> usize
    requires { at + length (delta_bytes (deltas_within low high event (t ∷ []))) ≤ length out.old }
    ensures out_after { out.new ≡ sets out.old at (delta_bytes (deltas_within low high event (t ∷ []))) }
    ensures value { result ≡ at + length (delta_bytes (deltas_within low high event (t ∷ []))) }
{
    if !is_between(t, low, high) {
        return at;
    }
    store_u64(out, at, std::num::wrapping_sub_u64(event, t));
    at + 8
}

// The same for each number of the table's list s.
fn store_list(
    out: &mut [u8],
    at: usize,
    event: u64,
    offsets: &[u64],
    targets: &[u64],
    s: usize,
    low: u64,
    high: u64,
) -> usize
    requires offsets_value { (from_to 0 (length targets.now) offsets.now ≡ true) × (s + 1 < length offsets.now) }
    requires s_in_bounds { at + length (delta_bytes (deltas_within low high event (slice_index_or (cut offsets.now targets.now) s []))) ≤ length out.old }
    ensures out_after { out.new ≡ sets out.old at (delta_bytes (deltas_within low high event (slice_index_or (cut offsets.now targets.now) s []))) }
    ensures value { result ≡ at + length (delta_bytes (deltas_within low high event (slice_index_or (cut offsets.now targets.now) s []))) }
{
    let b = index(offsets[s + 1]);
    let mut p = at;
    for j in index(offsets[s])..b {
        p = store_delta(out, p, event, targets[j], low, high);
    }
    p
}

// The same for the lists of the n rows from row `from` on, whose number is `first`.
fn store_deltas(
    out: &mut [u8],
    at: usize,
    first: u64,
    n: usize,
    offsets: &[u64],
    targets: &[u64],
    from: usize,
    low: u64,
    high: u64,
) -> usize
    requires offsets_value { (from_to 0 (length targets.now) offsets.now ≡ true) × (2 * (from + n) < length offsets.now) }
    requires n_bound { first + n ≤ end64 }
    requires targets_in_bounds { at + length (delta_bytes (joined (deltas_from kinds first 0 (rows_within kinds low high from n offsets.now targets.now)))) ≤ length out.old }
    ensures out_after { out.new ≡ sets out.old at (delta_bytes (joined (deltas_from kinds first 0 (rows_within kinds low high from n offsets.now targets.now)))) }
    ensures value { result ≡ at + length (delta_bytes (joined (deltas_from kinds first 0 (rows_within kinds low high from n offsets.now targets.now)))) }
{
    let mut p = at;
    for q in 0..2 * n {
        let event = first + ((q / 2) as u64);
        p = store_list(out, p, event, offsets, targets, 2 * from + q, low, high);
    }
    p
}

// Stores the set that holds, of the lists of the n rows from row `from` on, the numbers from low up to high; `first` is the number of that row.
// Answers the place after it.
pub fn store_lists(
    out: &mut [u8],
    at: usize,
    first: u64,
    n: usize,
    offsets: &[u64],
    targets: &[u64],
    from: usize,
    low: u64,
    high: u64,
) -> usize
    requires offsets_value { (from_to 0 (length targets.now) offsets.now ≡ true) × (2 * (from + n) < length offsets.now) }
    requires targets_len_bound { (length targets.now < 2 ^ 32) × (first + n ≤ end64) }
    requires targets_in_bounds { at + set_size (2 * n + 1) (length (joined (rows_within kinds low high from n offsets.now targets.now))) ≤ length out.old }
    ensures out_after { out.new ≡ sets out.old at (set_bytes (set_of kinds first (rows_within kinds low high from n offsets.now targets.now))) }
    ensures value { result ≡ at + set_size (2 * n + 1) (length (joined (rows_within kinds low high from n offsets.now targets.now))) }
{
    let m = store_starts(out, at + 4, n, offsets, targets, from, low, high);
    store_u32(out, at, m as u64);
    store_deltas(
        out,
        at + 4 + 8 * (2 * n + 1),
        first,
        n,
        offsets,
        targets,
        from,
        low,
        high,
    )
}
