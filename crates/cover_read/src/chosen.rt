// The rows of links from given chains: each chain's run is found by a binary search in the from chains.
ghost use Rattle.std.specs.Prelude.{◌≡◌, true, ◌++◌, ◌+◌, ◌-◌, ◌≤◌, length, take, drop};
ghost use Rattle.lists.specs.Lists.{up_from};
ghost use Rattle.lists.specs.Order.{not_falling, sort};
ghost use Rattle.arrays.specs.searching.Place.{place_of};
ghost use Rattle.cover.specs.Answers.{over};
ghost use Rattle.cover_read.specs.chosen.Chosen.{run_of, rows_of};

// The first place from p on whose chain is not below the given one.
fn first_from(from: &[u32], p: usize, chain: u64) -> usize
    requires { (p ≤ length from.now) × (not_falling from.now ≡ true) }
    ensures { (p ≤ result) × ((result ≤ length from.now) × (result ≡ p + place_of chain (drop p from.now))) }
{
    p + arrays::searching::place_in_narrow(&from[p..], chain)
}

// Writes the places from `start` on that hold the chain, up to the first that doesn't, which it answers.
fn put_run(from: &[u32], start: usize, chain: u64, rows: &mut [usize], k: usize) -> usize
    requires { (start ≤ length from.now) × ((k ≤ start) × (length from.now ≤ length rows.old)) }
    ensures lower_bound { (start ≤ result) × ((result ≤ length from.now) × (result ≡ start + run_of chain (drop start from.now))) }
    ensures rows_after { take (k + (result - start)) rows.new ≡ take k rows.old ++ up_from start (result - start) }
{
    let mut at = k;
    for i in start..from.len() {
        let x = u64::from(from[i]);
        if x != chain {
            return i;
        }
        rows[at] = i;
        at += 1;
    }
    from.len()
}

// Writes the places whose chain is among the chains; both columns don't fall. A chain that comes again finds an empty run.
fn choose(from: &[u32], chains: &[u64], rows: &mut [usize]) -> usize
    requires { (length from.now ≤ length rows.old) × ((not_falling from.now ≡ true) × (not_falling chains.now ≡ true)) }
    ensures { (result ≤ length from.now) × ((result ≤ length rows.new) × (take result rows.new ≡ rows_of chains.now 0 from.now)) }
{
    let mut k = 0;
    let mut p = 0;
    for i in 0..chains.len() {
        let chain = chains[i];
        let start = first_from(from, p, chain);
        p = put_run(from, start, chain, rows, k);
        k += p - start;
    }
    k
}

// Copies chains into wider numbers.
fn widen(chains: &[u32], out: &mut [u64])
    requires { length chains.now ≤ length out.old }
    ensures { out.new ≡ over chains.now out.old }
{
    for i in 0..chains.len() {
        out[i] = u64::from(chains[i]);
    }
}

// Copies chains into wider numbers and puts them in order.
fn put_sorted(chains: &[u32], out: &mut [u64])
    requires { length chains.now ≤ length out.old }
    ensures { out.new ≡ over (sort chains.now) out.old }
{
    widen(chains, out);
    arrays::sorting::sort_all(&mut out[..chains.len()]);
}

// Writes the places whose chain is among the chains, which come in any order.
pub fn choose_rows(from: &[u32], chains: &[u32], rows: &mut [usize]) -> usize
    requires { (length chains.now ≤ 4096) × ((length from.now ≤ length rows.old) × (not_falling from.now ≡ true)) }
    ensures { (result ≤ length from.now) × ((result ≤ length rows.new) × (take result rows.new ≡ rows_of chains.now 0 from.now)) }
{
    let n = chains.len();
    let mut sorted = [0u64; 4096];
    put_sorted(chains, &mut sorted);
    choose(from, &sorted[..n], rows)
}
