// Links as lent records into their stored columns: taken apart, stored. Proved by the laws of `ffi_links`.
#![tactic(auto)]

ghost use Rattle.std.specs.Prelude.{◌≡◌, [], ◌∷◌, map, length};
ghost use Rattle.cover.specs.Answers.{link_columns, counted, columns_after};
ghost use Rattle.cover_links.specs.Links.{meant};
ghost use Rattle.ffi_cover.specs.Numbers.{records_of};
ghost use Rattle.ffi_links.specs.Records.{store_lent, first_links, given};

use columns::refusal::Refusal;
use cover_links::Link;
use ffi::answer::Answer;

// Writes the stored columns of links that were taken apart, where n were given, of which the columns hold 1,024.
fn store_taken(
    n: usize,
    x: &[u32],
    y: &[u32],
    z: &[u32],
    w: &[u32],
    a: &mut [u32],
    b: &mut [u32],
    c: &mut [u32],
    d: &mut [u32],
) -> Answer
    requires { (length x.now ≡ 1024) × ((length y.now ≡ 1024) × ((length z.now ≡ 1024) × (length w.now ≡ 1024))) }
    ensures { (result ≡ records_of (counted (λ x. x.from_chains)
        (given n (store_lent (first_links n (link_columns x.now y.now z.now w.now))
        (length a.old ∷ length b.old ∷ length c.old ∷ length d.old ∷ [])))))
        × (link_columns a.new b.new c.new d.new
        ≡ columns_after (given n (store_lent (first_links n (link_columns x.now y.now z.now w.now))
        (length a.old ∷ length b.old ∷ length c.old ∷ length d.old ∷ [])))
        (link_columns a.old b.old c.old d.old)) }
{
    if 1024 < n {
        return Answer::from(Err(Refusal::OverRecords));
    }
    ffi_cover::covers::ridgeoven_cover_store(&x[..n], &y[..n], &z[..n], &w[..n], a, b, c, d)
}

// Writes the stored columns of links, the first of differences.
pub fn ridgeoven_links_store(
    links: &[Link],
    a: &mut [u32],
    b: &mut [u32],
    c: &mut [u32],
    d: &mut [u32],
) -> Answer
    ensures { (result ≡ records_of (counted (λ x. x.from_chains)
        (store_lent (map meant links.now) (length a.old ∷ length b.old ∷ length c.old ∷ length d.old ∷ []))))
        × (link_columns a.new b.new c.new d.new
        ≡ columns_after (store_lent (map meant links.now)
        (length a.old ∷ length b.old ∷ length c.old ∷ length d.old ∷ []))
        (link_columns a.old b.old c.old d.old)) }
{
    let mut x = [0u32; 1024];
    let mut y = [0u32; 1024];
    let mut z = [0u32; 1024];
    let mut w = [0u32; 1024];
    cover_links::ridgeoven_links_apart(links, &mut x, &mut y, &mut z, &mut w);
    store_taken(links.len(), &x, &y, &z, &w, a, b, c, d)
}
