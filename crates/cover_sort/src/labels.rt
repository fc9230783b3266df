// The ranges of labels: labels in order as keys, then each chain's run of keys as one range.
ghost use Rattle.std.specs.Prelude.{◌≡◌, ◌/◌, ◌<◌, ◌≤◌, length, drop};
ghost use Rattle.columns.specs.Reading.{labels_of};
ghost use Rattle.cover.specs.Answers.{range_columns};
ghost use Rattle.cover.specs.Chains.{ranges_of};
ghost use Rattle.cover_sort.specs.labels.Runs.{run_range, runs, runs_of, put_range, put_ranges, ranges_over};

// Writes a range at a place: the chain and least seq of its first key, the greatest seq of its last.
fn put_range(
    ids: &mut [u32],
    minima: &mut [u32],
    maxima: &mut [u32],
    at: usize,
    first: u64,
    last: u64,
)
    requires { (at < length ids.old) × ((at < length minima.old) × (at < length maxima.old)) }
    ensures { range_columns ids.new minima.new maxima.new
        ≡ put_range at (run_range first last) (range_columns ids.old minima.old maxima.old) }
{
    ids[at] = crate::packing::high(first);
    minima[at] = crate::packing::low(first);
    maxima[at] = crate::packing::low(last);
}

// Writes the ranges of keys in order, of which the first is given.
fn join_from(
    keys: &[u64],
    start: u64,
    ids: &mut [u32],
    minima: &mut [u32],
    maxima: &mut [u32],
) -> usize
    requires { (1 ≤ length keys.now) × ((length keys.now ≤ length ids.old) × ((length keys.now ≤ length minima.old) × (length keys.now ≤ length maxima.old))) }
    ensures value { result ≡ length (runs start start (drop 1 keys.now)) }
    ensures maxima_after { range_columns ids.new minima.new maxima.new
        ≡ put_ranges 0 (runs start start (drop 1 keys.now)) (range_columns ids.old minima.old maxima.old) }
{
    let mut first = start;
    let mut last = start;
    let mut at = 0;
    for i in 1..keys.len() {
        let key = keys[i];
        if key / 4294967296 != last / 4294967296 {
            put_range(ids, minima, maxima, at, first, last);
            at += 1;
            first = key;
        }
        last = key;
    }
    put_range(ids, minima, maxima, at, first, last);
    at + 1
}

// Writes the ranges of keys in order.
fn join_runs(keys: &[u64], ids: &mut [u32], minima: &mut [u32], maxima: &mut [u32]) -> usize
    requires { (length keys.now ≤ length ids.old) × ((length keys.now ≤ length minima.old) × (length keys.now ≤ length maxima.old)) }
    ensures value { result ≡ length (runs_of keys.now) }
    ensures maxima_after { range_columns ids.new minima.new maxima.new
        ≡ put_ranges 0 (runs_of keys.now) (range_columns ids.old minima.old maxima.old) }
{
    if keys.len() == 0 {
        return 0;
    }
    join_from(keys, keys[0], ids, minima, maxima)
}

// Writes each chain's range by way of as many keys.
fn ranges_by(
    chains: &[u32],
    seqs: &[u32],
    keys: &mut [u64],
    ids: &mut [u32],
    minima: &mut [u32],
    maxima: &mut [u32],
) -> usize
    requires seqs_len { (length seqs.now ≡ length chains.now) × (length keys.old ≡ length chains.now) }
    requires chains_in_bounds { (length chains.now ≤ length ids.old) × ((length chains.now ≤ length minima.old) × (length chains.now ≤ length maxima.old)) }
    ensures value { result ≡ length (ranges_of (labels_of chains.now seqs.now)) }
    ensures maxima_after { range_columns ids.new minima.new maxima.new
        ≡ ranges_over (ranges_of (labels_of chains.now seqs.now)) (range_columns ids.old minima.old maxima.old) }
{
    crate::packing::put_sorted_keys(chains, seqs, keys);
    join_runs(keys, ids, minima, maxima)
}

// Writes the ranges of labels by way of N keys: fewer are to be cleared for few labels.
fn ranges_within<const N: usize>(
    chains: &[u32],
    seqs: &[u32],
    ids: &mut [u32],
    minima: &mut [u32],
    maxima: &mut [u32],
) -> usize
    requires seqs_len { (length seqs.now ≡ length chains.now) × ((length chains.now ≤ N) × (N ≤ 1024)) }
    requires chains_in_bounds { (length chains.now ≤ length ids.old) × ((length chains.now ≤ length minima.old) × (length chains.now ≤ length maxima.old)) }
    ensures value { result ≡ length (ranges_of (labels_of chains.now seqs.now)) }
    ensures maxima_after { range_columns ids.new minima.new maxima.new
        ≡ ranges_over (ranges_of (labels_of chains.now seqs.now)) (range_columns ids.old minima.old maxima.old) }
{
    let mut keys = [0u64; N];
    ranges_by(chains, seqs, &mut keys[..chains.len()], ids, minima, maxima)
}

// Writes each chain's least and greatest seq, by rising chain id, and answers how many chains there are.
pub fn ranges_of(
    chains: &[u32],
    seqs: &[u32],
    ids: &mut [u32],
    minima: &mut [u32],
    maxima: &mut [u32],
) -> usize
    requires seqs_len { (length seqs.now ≡ length chains.now) × (length chains.now ≤ 1024) }
    requires chains_in_bounds { (length chains.now ≤ length ids.old) × ((length chains.now ≤ length minima.old) × (length chains.now ≤ length maxima.old)) }
    ensures value { result ≡ length (ranges_of (labels_of chains.now seqs.now)) }
    ensures maxima_after { range_columns ids.new minima.new maxima.new
        ≡ ranges_over (ranges_of (labels_of chains.now seqs.now)) (range_columns ids.old minima.old maxima.old) }
{
    if chains.len() <= 256 {
        return ranges_within::<256>(chains, seqs, ids, minima, maxima);
    }
    ranges_within::<1024>(chains, seqs, ids, minima, maxima)
}
