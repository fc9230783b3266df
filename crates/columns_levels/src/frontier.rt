// One level of a walk over stored targets: the parents of a frontier that were not visited, in order, cut to what is left of a limit.
ghost use Rattle.std.specs.Prelude.{◌≡◌, ◌+◌, ◌-◌, ◌≤◌, ◌<◌, min, length, take};
ghost use Rattle.std.proofs.Math.Seq.{slice};
ghost use Rattle.lists.specs.Lists.{flat};
ghost use Rattle.lists.specs.Order.{sort};
ghost use Rattle.columns.specs.Walk.{level};
ghost use Rattle.arrays.specs.table.Table.{Table, Keys};
ghost use Rattle.columns_levels.specs.frontier.Frontier.{copied, Laid, Seen};
ghost use Rattle.columns_levels.specs.Stored.{parents_of};

use crate::parents::Parents;
use arrays::index;

// Makes the parents of v keys.
pub fn expand(
    keys: &mut [u64],
    links: &mut [u64],
    heads: &mut [u64],
    n: usize,
    v: u64,
    p: Parents,
) -> usize
    requires table { Table keys.old links.old heads.old n }
    ensures table_2 { Table keys.new links.new heads.new result }
    ensures keys { Keys keys.old keys.new n result (parents_of p.entry v) }
{
    if v < p.first {
        return n;
    }
    let d = v - p.first;
    if p.offsets.len() as u64 <= d {
        return n;
    }
    let s = p.width * index(d) + p.kind;
    if p.offsets.len() <= s + 1 {
        return n;
    }
    let a = index(p.offsets[s]);
    let b = index(p.offsets[s + 1]).min(p.targets.len());
    arrays::table::add_list(keys, links, heads, n, p.targets, a, b)
}

// Makes the parents of each of list[lo..hi] keys.
pub fn collect(
    list: &[u64],
    lo: usize,
    hi: usize,
    keys: &mut [u64],
    links: &mut [u64],
    heads: &mut [u64],
    n: usize,
    p: Parents,
) -> usize
    requires table { Table keys.old links.old heads.old n }
    requires hi_in_bounds { hi ≤ length list.now }
    ensures table_2 { Table keys.new links.new heads.new result }
    ensures keys { Keys keys.old keys.new n result (flat (parents_of p.entry) (slice lo hi list.now)) }
{
    let mut m = n;
    for i in lo..hi {
        m = expand(keys, links, heads, m, list[i], p);
    }
    m
}

// Copies src[from..from + k] to l[at..].
pub fn copy(l: &mut [u64], at: usize, src: &[u64], from: usize, k: usize)
    requires { (at + k ≤ length l.old) × (from + k ≤ length src.now) }
    ensures { l.new ≡ copied l.old at (slice from (from + k) src.now) }
{
    for i in 0..k {
        l[at + i] = src[from + i];
    }
}

// Lays the keys from n to r behind buf[..base], in order. The answer is where those end that are left of a limit.
pub fn gather(
    buf: &mut [u64],
    base: usize,
    left: usize,
    keys: &[u64],
    n: usize,
    r: usize,
    w: &mut [u64],
) -> usize
    requires n_le_r { (n ≤ r) × (r ≤ length keys.now) }
    requires n_in_bounds { (base + (r - n) ≤ length buf.old) × (r - n ≤ length w.old) }
    ensures upper_bound { (result ≤ base + (r - n)) × (result ≤ base + left) }
    ensures laid { Laid base buf.old buf.new result (take left (sort (slice n r keys.now))) }
{
    let k = r - n;
    copy(buf, base, keys, n, k);
    arrays::sorting::sort_part(buf, base, base + k, w);
    base + k.min(left)
}

// Where a level ends, and how many keys there are then.
#[derive(Clone, Copy)]
pub struct Step {
    pub end: usize,
    pub n: usize,
}

// Lays the level after buf[lo..m] behind buf[..m], which holds all that was visited.
pub fn advance(
    buf: &mut [u64],
    lo: usize,
    m: usize,
    left: usize,
    p: Parents,
    keys: &mut [u64],
    links: &mut [u64],
    heads: &mut [u64],
    n: usize,
    w: &mut [u64],
) -> Step
    requires lo_le_m { (lo ≤ m) × (m ≤ n) }
    requires keys_in_bounds { (length keys.old ≤ length buf.old) × (length keys.old ≤ length w.old) }
    requires table { Table keys.old links.old heads.old n }
    requires seen { Seen left n (take m buf.old) keys.old p.targets.now }
    ensures end_le_n { (result.end ≤ result.n) × (result.end ≤ m + left) }
    ensures laid { Laid m buf.old buf.new result.end
        (level (parents_of p.entry) left (take m buf.old) (slice lo m buf.old)) }
    ensures table_2 { Table keys.new links.new heads.new result.n }
    ensures seen_2 { Seen (left - (result.end - m)) result.n (take result.end buf.new) keys.new p.entry.targets.now }
{
    let r = collect(buf, lo, m, keys, links, heads, n, p);
    let e = gather(buf, m, left, keys, n, r, w);
    Step { end: e, n: r }
}
