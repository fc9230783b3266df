// All levels of a walk, and all that a number reaches, over stored targets.
ghost use Rattle.std.specs.Prelude.{◌≡◌, ◌+◌, ◌-◌, ◌≤◌, ◌<◌, length, take};
ghost use Rattle.std.proofs.Math.Seq.{slice};
ghost use Rattle.columns.specs.Walk.{levels_from};
ghost use Rattle.arrays.specs.table.Table.{Table};
ghost use Rattle.columns_levels.specs.frontier.Frontier.{Seen};
ghost use Rattle.columns_levels.specs.Stored.{parents_of};
ghost use Rattle.columns_levels.specs.rounds.Rounds.{Ran};
ghost use Rattle.columns_levels.specs.rounds.Closure.{All, Grown, Apart, Answer};

use crate::parents::Parents;

// Where the numbers of a walk end, and how many levels there are.
#[derive(Clone, Copy)]
pub struct Extent {
    pub end: usize,
    pub levels: usize,
}

// Lays level after level behind buf[..1], which is visited, until a level is empty.
pub fn run(
    buf: &mut [u64],
    ends: &mut [u64],
    limit: usize,
    have: usize,
    p: Parents,
    keys: &mut [u64],
    links: &mut [u64],
    heads: &mut [u64],
    w: &mut [u64],
) -> Extent
    requires have_bound { 1 ≤ have }
    requires keys_in_bounds { (length keys.old ≤ length buf.old) × ((length keys.old ≤ length w.old) × (length keys.old ≤ length ends.old + 1)) }
    requires table { Table keys.old links.old heads.old have }
    requires seen { Seen limit have (take 1 buf.old) keys.old p.targets.now }
    ensures { Ran (levels_from (parents_of p.entry) limit limit (take 1 buf.old)
        (take 1 buf.old)) ends.old buf.new ends.new result.end result.levels }
{
    let mut lo = 0;
    let mut m = 1;
    let mut k = 0;
    let mut n = have;
    let mut left = limit;
    // No `for`: the end moves with each level.
    while lo < m {
        let s = crate::frontier::advance(buf, lo, m, left, p, keys, links, heads, n, w);
        let e = s.end;
        if e == m {
            return Extent { end: m, levels: k };
        }
        ends[k] = (e - 1) as u64;
        k += 1;
        left -= e - m;
        lo = m;
        m = e;
        n = s.n;
    }
    Extent { end: m, levels: k }
}

// From keys that a reaches: makes the parents of each key keys, until there is no new one.
fn spread(
    keys: &mut [u64],
    links: &mut [u64],
    heads: &mut [u64],
    have: usize,
    a: u64,
    p: Parents,
) -> usize
    requires table { Table keys.old links.old heads.old have }
    requires targets_lt_keys { length p.targets.now < length keys.old }
    requires grown { Grown (parents_of p) a p.targets.now (take have keys.old) 0 }
    ensures table_2 { Table keys.new links.new heads.new result }
    ensures all { All (parents_of p.entry) a (take result keys.new) }
{
    let mut n = have;
    let mut i = 0;
    // No `for`: the keys grow with each turn.
    while i < n {
        let v = keys[i];
        n = crate::frontier::expand(keys, links, heads, n, v, p);
        i += 1;
    }
    n
}

// Makes all that a reaches keys.
fn reach(keys: &mut [u64], links: &mut [u64], heads: &mut [u64], a: u64, p: Parents) -> usize
    requires table { Table keys.old links.old heads.old 0 }
    requires targets_lt_keys { length p.targets.now < length keys.old }
    ensures table_2 { Table keys.new links.new heads.new result }
    ensures all { All (parents_of p.entry) a (take result keys.new) }
{
    let n = arrays::table::add(keys, links, heads, 0, a);
    spread(keys, links, heads, n, a, p)
}

// Some key that is among others[..m].
fn common(
    keys: &[u64],
    links: &[u64],
    heads: &[u64],
    n: usize,
    others: &[u64],
    m: usize,
) -> Option<u64>
    requires table { Table keys.now links.now heads.now n }
    requires m_in_bounds { m ≤ length others.now }
    ensures { Apart result (take n keys.now) (take m others.now) }
{
    for i in 0..m {
        let x = others[i];
        if arrays::table::find(keys, links, heads, n, x) {
            return Some(x);
        }
    }
    None
}

// Writes all that a reaches, and answers how many numbers that are.
fn reached(list: &mut [u64], a: u64, p: Parents) -> usize
    requires { (length p.targets.now < 4097) × (length list.old ≡ 4097) }
    ensures upper_bound { result ≤ length list.new }
    ensures all { All (parents_of p.entry) a (take result list.new) }
{
    let mut links = [0u64; 4097];
    let mut heads = [0u64; 2053];
    reach(list, &mut links, &mut heads, a, p)
}

// A number that both a and b reach.
pub fn shared(a: u64, b: u64, p: Parents) -> Option<u64>
    requires { length p.targets.now < 4097 }
    ensures { Answer result (parents_of p.entry) a b }
{
    let mut list = [0u64; 4097];
    let m = reached(&mut list, a, p);
    let mut keys = [0u64; 4097];
    let mut links = [0u64; 4097];
    let mut heads = [0u64; 2053];
    let n = reach(&mut keys, &mut links, &mut heads, b, p);
    common(&keys, &links, &heads, n, &list, m)
}
