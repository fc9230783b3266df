// The links of every group sorted, repeats dropped. The groups of links don't fall, so that the links of a group stand one after the other.
ghost use Rattle.std.specs.Prelude.{◌≡◌, true, ◌++◌, map, ◌+◌, ◌-◌, ◌≤◌, ◌<◌, eqb, length, take, replicate};
ghost use Rattle.std.proofs.Math.Seq.{slice};
ghost use Rattle.lists.specs.Lists.{all, up_from};
ghost use Rattle.lists.specs.Order.{level_above, not_falling};
ghost use Rattle.cover.specs.Chains.{sort_links};
ghost use Rattle.cover.specs.Cover as cover;
ghost use Rattle.cover.specs.Places.{row_at};
ghost use Rattle.cleaning.specs.Survivors.{sort_groups};
ghost use Rattle.cleaning.proofs.GroupLinks.{in_group};
ghost use Rattle.run_state.specs.View.{listed, link_at};
ghost use Rattle.run_state.specs.ByColumns.{links_of};
ghost use Rattle.run_resolve.specs.links.Sorted.{Appended, SortedBehind};

use run_state::{Ends, Links};

fn byte(g: usize) -> u8
    requires { g < 256 }
    ensures { result ≡ g }
{
    g as u8
}

// Where the links of a group end which start at i, if the groups from there on are not below it.
fn end_of(groups: &[u8], i: usize, n: usize, g: u8) -> usize
    requires i_le_n { (i ≤ n) × (n ≤ length groups.now) }
    requires groups_value { level_above g (slice i n groups.now) ≡ true }
    ensures { (i ≤ result) × ((result ≤ n) × ((all (eqb g) (slice i result groups.now) ≡ true) × (level_above (g + 1) (slice result n groups.now) ≡ true))) }
{
    for p in i..n {
        if groups[p] != g {
            return p;
        }
    }
    n
}

// The number of a group m times behind the first `end` of a column.
fn fill(all: &mut [u8], end: usize, g: u8, m: usize)
    requires { (end + m ≤ 1024) × (length all.old ≡ 1024) }
    ensures { Appended end m all.old all.new (replicate m g) }
{
    all[end..end + m].fill(g);
}

// Links sorted, repeats dropped, behind the first k links of four columns; answers how many they are.
fn sort_behind(
    a: &[u32],
    b: &[u32],
    c: &[u32],
    d: &[u32],
    k: usize,
    x: &mut [u32],
    y: &mut [u32],
    z: &mut [u32],
    w: &mut [u32],
) -> usize
    requires b_len { (length b.now ≡ length a.now) × ((length c.now ≡ length a.now) × (length d.now ≡ length a.now)) }
    requires a_bound { k + length a.now ≤ 1024 }
    requires x_len { (length x.old ≡ 1024) × ((length y.old ≡ 1024) × ((length z.old ≡ 1024) × (length w.old ≡ 1024))) }
    ensures { SortedBehind (cover.links_of a.now b.now c.now d.now) k result x.old y.old
        z.old w.old x.new y.new z.new w.new }
{
    cover_sort::sort_links(
        a,
        b,
        c,
        d,
        &mut x[k..],
        &mut y[k..],
        &mut z[k..],
        &mut w[k..],
    )
}

// The same for the links at places i to j.
fn sort_part(
    a: &[u32],
    b: &[u32],
    c: &[u32],
    d: &[u32],
    i: usize,
    j: usize,
    k: usize,
    x: &mut [u32],
    y: &mut [u32],
    z: &mut [u32],
    w: &mut [u32],
) -> usize
    requires i_le_j { (i ≤ j) × ((j ≤ 1024) × (k ≤ i)) }
    requires a_len { (length a.now ≡ 1024) × ((length b.now ≡ 1024) × ((length c.now ≡ 1024) × (length d.now ≡ 1024))) }
    requires x_len { (length x.old ≡ 1024) × ((length y.old ≡ 1024) × ((length z.old ≡ 1024) × (length w.old ≡ 1024))) }
    ensures { SortedBehind (map (row_at a.now b.now c.now d.now) (up_from i (j - i))) k result x.old
        y.old z.old w.old x.new y.new z.new w.new }
{
    sort_behind(&a[i..j], &b[i..j], &c[i..j], &d[i..j], k, x, y, z, w)
}

// The links at places i to j, sorted, behind those of the groups before; answers how many there are.
fn add_group(
    a: &[u32],
    b: &[u32],
    c: &[u32],
    d: &[u32],
    i: usize,
    j: usize,
    g: u8,
    k: usize,
    out: &mut [u8; 1024],
    x: &mut [u32; 1024],
    y: &mut [u32; 1024],
    z: &mut [u32; 1024],
    w: &mut [u32; 1024],
) -> usize
    requires i_le_j { (i ≤ j) × ((j ≤ 1024) × (k ≤ i)) }
    requires a_len { (length a.now ≡ 1024) × ((length b.now ≡ 1024) × ((length c.now ≡ 1024) × (length d.now ≡ 1024))) }
    ensures upper_bound { result ≤ j }
    ensures result_after { listed (link_at (links_of result out.new x.new y.new z.new w.new)) result
        ≡ listed (link_at (links_of k out.old x.old y.old z.old w.old)) k
        ++ in_group g (sort_links (map (row_at a.now b.now c.now d.now) (up_from i (j - i)))) }
{
    let m = sort_part(a, b, c, d, i, j, k, x, y, z, w);
    fill(out, k, g, m);
    k + m
}

// The n links of `count` groups, each group's sorted, repeats dropped, into columns that are lent; answers how many they are.
pub fn sort_into(
    groups: &[u8],
    a: &[u32],
    b: &[u32],
    c: &[u32],
    d: &[u32],
    n: usize,
    count: usize,
    out: &mut [u8; 1024],
    x: &mut [u32; 1024],
    y: &mut [u32; 1024],
    z: &mut [u32; 1024],
    w: &mut [u32; 1024],
) -> usize
    requires n_bound { (n ≤ 1024) × ((count ≤ 16) × (not_falling (take n groups.now) ≡ true)) }
    requires groups_len { length groups.now ≡ 1024 }
    requires a_len { (length a.now ≡ 1024) × ((length b.now ≡ 1024) × ((length c.now ≡ 1024) × (length d.now ≡ 1024))) }
    ensures { (result ≤ 1024) × (listed (link_at (links_of result out.new x.new y.new z.new w.new)) result
        ≡ sort_groups count (listed (link_at (links_of n groups.now a.now b.now c.now d.now)) n)) }
{
    let mut k: usize = 0;
    let mut i: usize = 0;
    for g in 0..count {
        let t = byte(g);
        let j = end_of(groups, i, n, t);
        k = add_group(a, b, c, d, i, j, t, k, out, x, y, z, w);
        i = j;
    }
    k
}

// The links of `count` groups, each group's sorted, repeats dropped.
pub fn sort_groups(l: Links, count: usize) -> Links
    requires { (l.count ≤ 1024) × ((count ≤ 16) × (not_falling (take l.count l.groups) ≡ true)) }
    ensures { (result.count ≤ 1024) × (listed (link_at result) result.count ≡ sort_groups count (listed (link_at l) l.count)) }
{
    let groups = l.groups;
    let a = l.from.chains;
    let b = l.from.seqs;
    let c = l.to.chains;
    let d = l.to.seqs;
    let mut out = groups;
    let mut x = a;
    let mut y = b;
    let mut z = c;
    let mut w = d;
    let n = sort_into(
        &groups, &a, &b, &c, &d, l.count, count, &mut out, &mut x, &mut y, &mut z, &mut w,
    );
    let from = Ends { chains: x, seqs: y };
    let to = Ends { chains: z, seqs: w };
    Links {
        count: n,
        groups: out,
        from,
        to,
    }
}
