// Links as a lent slice of records, for hosts: such a slice is taken apart into four columns, which the functions over a cover take and give, and
// put together from them.
#![tactic(auto)]

ghost use Rattle.std.specs.Prelude.{◌≡◌, map, min, take};
ghost use Rattle.cover_links.specs.Links.{least, carried, over, from_chain_of, from_seq_of, to_chain_of, to_seq_of, link_in, places};

#[repr(C)]
#[derive(Clone, Copy)]
pub struct Link {
    pub from_chain: u32,
    pub from_seq: u32,
    pub to_chain: u32,
    pub to_seq: u32,
}

// The least of five numbers.
fn least_of(a: usize, b: usize, c: usize, d: usize, e: usize) -> usize
    ensures { result ≡ least a b c d e }
{
    a.min(b).min(c).min(d).min(e)
}

// Writes links into four columns, from the start of each, as many as every column has room for; answers how many.
pub fn ridgeoven_links_apart(
    links: &[Link],
    a: &mut [u32],
    b: &mut [u32],
    c: &mut [u32],
    d: &mut [u32],
) -> usize
    ensures { (result ≡ carried links.now a.old b.old c.old d.old)
        × ((a.new ≡ over (map from_chain_of (take (carried links.now a.old b.old c.old d.old)
        links.now)) a.old) × ((b.new
        ≡ over (map from_seq_of (take (carried links.now a.old b.old c.old d.old) links.now))
        b.old) × ((c.new ≡ over (map to_chain_of
        (take (carried links.now a.old b.old c.old d.old) links.now)) c.old)
        × (d.new ≡ over (map to_seq_of (take (carried links.now a.old b.old c.old d.old) links.now)) d.old)))) }
{
    let n = least_of(links.len(), a.len(), b.len(), c.len(), d.len());
    for i in 0..n {
        let l = links[i];
        a[i] = l.from_chain;
        b[i] = l.from_seq;
        c[i] = l.to_chain;
        d[i] = l.to_seq;
    }
    n
}

// Writes the links of four columns, from the start of the slice, as many as every column has and the slice has room for; answers how many.
pub fn ridgeoven_links_together(
    a: &[u32],
    b: &[u32],
    c: &[u32],
    d: &[u32],
    links: &mut [Link],
) -> usize
    ensures { (result ≡ carried links.old a.now b.now c.now d.now)
        × (links.new ≡ over (map (link_in a.now b.now c.now d.now)
        (places (carried links.old a.now b.now c.now d.now))) links.old) }
{
    let n = least_of(links.len(), a.len(), b.len(), c.len(), d.len());
    for i in 0..n {
        links[i] = Link {
            from_chain: a[i],
            from_seq: b[i],
            to_chain: c[i],
            to_seq: d[i],
        };
    }
    n
}
