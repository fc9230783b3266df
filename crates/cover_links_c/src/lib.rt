// The functions of `cover_links` for programs in C or Rust: each calls the proved function of its name, and promises what that promises.
#![tactic(auto)]

ghost use Rattle.std.specs.Prelude.{◌≡◌, map, take};
ghost use Rattle.cover_links.specs.Links.{carried, over, from_chain_of, from_seq_of, to_chain_of, to_seq_of, link_in, places};

use cover_links::Link;

// Writes links into four columns, from the start of each, as many as every column has room for; answers how many.
#[unsafe(no_mangle)]
pub extern "C" fn ridgeoven_links_apart(
    links: &[Link],
    a: &mut [u32],
    b: &mut [u32],
    c: &mut [u32],
    d: &mut [u32],
) -> usize
    ensures { (result ≡ carried links.now a.old b.old c.old d.old)
        × ((a.new ≡ over (map from_chain_of (take (carried links.now a.old b.old c.old d.old)
        links.now)) a.old) × ((b.new
        ≡ over (map from_seq_of (take (carried links.now a.old b.old c.old d.old) links.now))
        b.old) × ((c.new ≡ over (map to_chain_of
        (take (carried links.now a.old b.old c.old d.old) links.now)) c.old)
        × (d.new ≡ over (map to_seq_of (take (carried links.now a.old b.old c.old d.old) links.now)) d.old)))) }
{
    cover_links::ridgeoven_links_apart(links, a, b, c, d)
}

// Writes the links of four columns, from the start of the slice, as many as every column has and the slice has room for; answers how many.
#[unsafe(no_mangle)]
pub extern "C" fn ridgeoven_links_together(
    a: &[u32],
    b: &[u32],
    c: &[u32],
    d: &[u32],
    links: &mut [Link],
) -> usize
    ensures { (result ≡ carried links.old a.now b.now c.now d.now)
        × (links.new ≡ over (map (link_in a.now b.now c.now d.now)
        (places (carried links.old a.now b.now c.now d.now))) links.old) }
{
    cover_links::ridgeoven_links_together(a, b, c, d, links)
}
