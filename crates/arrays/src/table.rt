// Numbers in buckets, in three lent slices: keys in the order of arrival, for each key the last one before it of its bucket, and the newest
// key of each bucket. Places are counted from 1, and 0 is none.
ghost use Rattle.std.specs.Prelude.{◌≡◌, ◌+◌, ◌-◌, ◌%◌, ◌<◌, ◌≤◌, length, take, slice_set};
ghost use Rattle.std.proofs.Math.Seq.{slice};
ghost use Rattle.lists.specs.Lists.{mem};
ghost use Rattle.arrays.specs.table.Table.{last_place, newest, Down, Table, add_cap, Keys};

use crate::index;

// The bucket of x among b.
fn bucket(x: u64, b: usize) -> usize
    requires { 0 < b }
    ensures { (result < b) × (result ≡ x % b) }
{
    index(x % b as u64)
}

// The first place of x from the place `top` down its bucket.
fn follow(keys: &[u64], links: &[u64], n: usize, top: usize, x: u64) -> usize
    requires top_le_n { (top ≤ n) × ((n ≤ length keys.now) × (n ≤ length links.now)) }
    requires down { Down links.now n }
    ensures { result ≡ newest top keys.now links.now top x }
{
    // A `while`, since the links say which place comes next.
    let mut i = top;
    while 0 < i {
        let j = i - 1;
        if keys[j] == x {
            return i;
        }
        i = index(links[j]);
    }
    0
}

// The last place of x among the first n keys.
pub fn last(keys: &[u64], links: &[u64], heads: &[u64], n: usize, x: u64) -> usize
    requires { Table keys.now links.now heads.now n }
    ensures { (result ≤ n) × (result ≡ last_place keys.now n x) }
{
    let h = bucket(x, heads.len());
    let top = index(heads[h]);
    follow(keys, links, n, top, x)
}

// Whether x is among the first n keys.
pub fn find(keys: &[u64], links: &[u64], heads: &[u64], n: usize, x: u64) -> bool
    requires { Table keys.now links.now heads.now n }
    ensures { result ≡ mem x (take n keys.now) }
{
    last(keys, links, heads, n, x) != 0
}

// Makes x the last key, also where it is one.
pub fn put(keys: &mut [u64], links: &mut [u64], heads: &mut [u64], n: usize, x: u64)
    requires table { Table keys.old links.old heads.old n }
    requires n_in_bounds { n < length keys.old }
    ensures table_2 { Table keys.new links.new heads.new (n + 1) }
    ensures keys_after { keys.new ≡ slice_set keys.old n x }
{
    let h = bucket(x, heads.len());
    keys[n] = x;
    links[n] = heads[h];
    heads[h] = (n + 1) as u64;
}

// Makes x the last key, unless it is one or there is no room.
pub fn add(keys: &mut [u64], links: &mut [u64], heads: &mut [u64], n: usize, x: u64) -> usize
    requires { Table keys.old links.old heads.old n }
    ensures table { Table keys.new links.new heads.new result }
    ensures keys_after { take result keys.new ≡ add_cap (length keys.old) (take n keys.old) x }
{
    if find(keys, links, heads, n, x) {
        return n;
    }
    if n < keys.len() {
        put(keys, links, heads, n, x);
        return n + 1;
    }
    n
}

// Puts in each of src[a..b], one after the other.
pub fn add_list(
    keys: &mut [u64],
    links: &mut [u64],
    heads: &mut [u64],
    n: usize,
    src: &[u64],
    a: usize,
    b: usize,
) -> usize
    requires table { Table keys.old links.old heads.old n }
    requires b_in_bounds { b ≤ length src.now }
    ensures table_2 { Table keys.new links.new heads.new result }
    ensures keys { Keys keys.old keys.new n result (slice a b src.now) }
{
    let mut m = n;
    for i in a..b {
        m = add(keys, links, heads, m, src[i]);
    }
    m
}
