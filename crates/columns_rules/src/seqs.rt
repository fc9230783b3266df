// Building's rule on seqs (10): in row order every seq is above the last one of its chain. The chains of the rows so far are the keys of a
// table, and a chain's last place there is its last row, counted from 1.
ghost use Rattle.std.specs.Prelude.{◌≡◌, [], ◌+◌, ◌≤◌, ◌<◌, length, get_or};
ghost use Rattle.columns.specs.Reading.{labels_of};
ghost use Rattle.columns.specs.Building.{follows, last_seq, seqs_rise};
ghost use Rattle.columns_rules.specs.seqs.Earlier.{earlier_labels, Held};

use arrays::table;

fn wide(x: u32) -> u64
    ensures { result ≡ x }
{
    x as u64
}

// Whether the seq of the row after the first n is above the last one of its chain. Its chain becomes a key.
fn take_row(
    chains: &[u32],
    seqs: &[u32],
    keys: &mut [u64],
    links: &mut [u64],
    heads: &mut [u64],
    n: usize,
) -> bool
    requires held { Held chains.now keys.old links.old heads.old n }
    requires n_in_bounds { (n < length chains.now) × ((length chains.now ≡ length seqs.now) × (length chains.now ≤ length keys.old)) }
    ensures held_2 { Held chains.now keys.new links.new heads.new (n + 1) }
    ensures value { result ≡ follows (get_or seqs.now n 0) (last_seq (get_or chains.now n 0) (earlier_labels chains.now seqs.now n)) }
{
    let chain = wide(chains[n]);
    let last = table::last(keys, links, heads, n, chain);
    table::put(keys, links, heads, n, chain);
    if last == 0 {
        return true;
    }
    seqs[last - 1] < seqs[n]
}

// Whether every seq is above the last one of its chain, by a table without keys in three lent slices.
fn rise_in(
    chains: &[u32],
    seqs: &[u32],
    keys: &mut [u64],
    links: &mut [u64],
    heads: &mut [u64],
) -> bool
    requires held { Held chains.now keys.old links.old heads.old 0 }
    requires chains_len { (length chains.now ≡ length seqs.now) × (length chains.now ≤ length keys.old) }
    ensures { result ≡ seqs_rise [] (labels_of chains.now seqs.now) }
{
    for n in 0..chains.len() {
        if !take_row(chains, seqs, keys, links, heads, n) {
            return false;
        }
    }
    true
}

// The same with a table of its own.
pub fn seqs_rise(chains: &[u32], seqs: &[u32]) -> bool
    requires { (length chains.now ≡ length seqs.now) × (length chains.now ≤ 1024) }
    ensures { result ≡ seqs_rise [] (labels_of chains.now seqs.now) }
{
    let mut keys = [0u64; 1024];
    let mut links = [0u64; 1024];
    let mut heads = [0u64; 1031];
    rise_in(chains, seqs, &mut keys, &mut links, &mut heads)
}
