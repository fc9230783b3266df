// The links of some chains, asked for over lent records: taken apart into columns, asked, put together. Proved by the laws of `ffi_links`.
#![tactic(auto)]

ghost use Rattle.std.specs.Prelude.{◌≡◌, [], ◌∷◌, map, ◌≤◌, length, take};
ghost use Rattle.cover.specs.Cover.{columns_of};
ghost use Rattle.cover.specs.Questions.{chain_links};
ghost use Rattle.cover.specs.Answers.{link_columns, for_records, counted, links_after};
ghost use Rattle.cover_links.specs.Links.{meant};
ghost use Rattle.ffi_cover.specs.Numbers.{records_of};
ghost use Rattle.ffi_links.specs.Records.{chain_lent, records_after, first_links, given};

use columns::refusal::Refusal;
use cover_links::Link;
use ffi::answer::Answer;

// Writes the stored columns of the first n links of four columns.
fn store_first(
    n: usize,
    a: &[u32],
    b: &[u32],
    c: &[u32],
    d: &[u32],
    x: &mut [u32],
    y: &mut [u32],
    z: &mut [u32],
    w: &mut [u32],
)
    requires n_bound { n ≤ 1024 }
    requires a_len { (length a.now ≡ 1024) × ((length b.now ≡ 1024) × ((length c.now ≡ 1024) × (length d.now ≡ 1024))) }
    requires x_len { (length x.old ≡ 1024) × ((length y.old ≡ 1024) × ((length z.old ≡ 1024) × (length w.old ≡ 1024))) }
    ensures { link_columns (take n x.new) (take n y.new) (take n z.new) (take n w.new)
        ≡ columns_of (first_links n (link_columns a.now b.now c.now d.now)) }
{
    // Nothing is refused here: n links are not too many, and the slices are long enough.
    let _ = cover_build::encode::encode_links(&a[..n], &b[..n], &c[..n], &d[..n], x, y, z, w);
}

// Writes the links from any of the chains, of stored columns whose first n numbers are asked.
fn ask_part(
    n: usize,
    x: &[u32],
    y: &[u32],
    z: &[u32],
    w: &[u32],
    chains: &[u32],
    a: &mut [u32],
    b: &mut [u32],
    c: &mut [u32],
    d: &mut [u32],
) -> Answer
    requires n_bound { n ≤ 1024 }
    requires x_len { (length x.now ≡ 1024) × ((length y.now ≡ 1024) × ((length z.now ≡ 1024) × (length w.now ≡ 1024))) }
    requires a_len { (length a.old ≡ 1024) × ((length b.old ≡ 1024) × ((length c.old ≡ 1024) × (length d.old ≡ 1024))) }
    ensures { (result ≡ records_of (counted (λ x. x) (chain_links
        (link_columns (take n x.now) (take n y.now) (take n z.now) (take n w.now)) chains.now
        (for_records (1024 ∷ 1024 ∷ 1024 ∷ 1024 ∷ []))))) × (link_columns a.new b.new c.new d.new
        ≡ links_after (λ x. x) (chain_links (link_columns (take n x.now) (take n y.now) (take n z.now) (take n w.now))
        chains.now (for_records (1024 ∷ 1024 ∷ 1024 ∷ 1024 ∷ []))) (link_columns a.old b.old c.old d.old)) }
{
    ffi_cover::covers::ridgeoven_chain_links(&x[..n], &y[..n], &z[..n], &w[..n], chains, a, b, c, d)
}

// Keeps of the first n links of four columns those from any of the chains. x, y, z and w are work space.
fn ask_by(
    n: usize,
    chains: &[u32],
    x: &mut [u32],
    y: &mut [u32],
    z: &mut [u32],
    w: &mut [u32],
    a: &mut [u32],
    b: &mut [u32],
    c: &mut [u32],
    d: &mut [u32],
) -> Answer
    requires n_bound { n ≤ 1024 }
    requires a_len { (length a.old ≡ 1024) × ((length b.old ≡ 1024) × ((length c.old ≡ 1024) × (length d.old ≡ 1024))) }
    requires x_len { (length x.old ≡ 1024) × ((length y.old ≡ 1024) × ((length z.old ≡ 1024) × (length w.old ≡ 1024))) }
    ensures { (result ≡ records_of (counted (λ x. x) (chain_links
        (columns_of (first_links n (link_columns a.old b.old c.old d.old))) chains.now
        (for_records (1024 ∷ 1024 ∷ 1024 ∷ 1024 ∷ []))))) × (link_columns a.new b.new c.new d.new
        ≡ links_after (λ x. x) (chain_links (columns_of (first_links n (link_columns a.old b.old c.old d.old)))
        chains.now (for_records (1024 ∷ 1024 ∷ 1024 ∷ 1024 ∷ []))) (link_columns a.old b.old c.old d.old)) }
{
    store_first(n, a, b, c, d, x, y, z, w);
    ask_part(n, x, y, z, w, chains, a, b, c, d)
}

// The same with work space of its own.
fn ask_first(
    n: usize,
    chains: &[u32],
    a: &mut [u32],
    b: &mut [u32],
    c: &mut [u32],
    d: &mut [u32],
) -> Answer
    requires n_bound { n ≤ 1024 }
    requires a_len { (length a.old ≡ 1024) × ((length b.old ≡ 1024) × ((length c.old ≡ 1024) × (length d.old ≡ 1024))) }
    ensures { (result ≡ records_of (counted (λ x. x) (chain_links
        (columns_of (first_links n (link_columns a.old b.old c.old d.old))) chains.now
        (for_records (1024 ∷ 1024 ∷ 1024 ∷ 1024 ∷ []))))) × (link_columns a.new b.new c.new d.new
        ≡ links_after (λ x. x) (chain_links (columns_of (first_links n (link_columns a.old b.old c.old d.old)))
        chains.now (for_records (1024 ∷ 1024 ∷ 1024 ∷ 1024 ∷ []))) (link_columns a.old b.old c.old d.old)) }
{
    let mut x = [0u32; 1024];
    let mut y = [0u32; 1024];
    let mut z = [0u32; 1024];
    let mut w = [0u32; 1024];
    ask_by(n, chains, &mut x, &mut y, &mut z, &mut w, a, b, c, d)
}

// The same where n links were given, of which the columns hold 1,024, and the answer goes to a slice of this room.
fn ask_taken(
    n: usize,
    room: usize,
    chains: &[u32],
    a: &mut [u32],
    b: &mut [u32],
    c: &mut [u32],
    d: &mut [u32],
) -> Answer
    requires { (length a.old ≡ 1024) × ((length b.old ≡ 1024) × ((length c.old ≡ 1024) × (length d.old ≡ 1024))) }
    ensures { (result ≡ records_of (counted (λ x. x) (given n
        (chain_lent (first_links n (link_columns a.old b.old c.old d.old)) chains.now room))))
        × (link_columns a.new b.new c.new d.new
        ≡ links_after (λ x. x) (given n (chain_lent (first_links n (link_columns a.old b.old c.old d.old))
        chains.now room)) (link_columns a.old b.old c.old d.old)) }
{
    if 1024 < n {
        return Answer::from(Err(Refusal::OverRecords));
    }
    if 4096 < chains.len() {
        return Answer::from(Err(Refusal::OverNumbers));
    }
    if room < 1024 {
        return Answer::from(Err(Refusal::SliceShort));
    }
    ask_first(n, chains, a, b, c, d)
}

// Writes those links that are from one of the chains, in their order, from the start of `out` on, and answers how many they are; what stands behind
// them stays. The links rise.
pub fn ridgeoven_links_from(links: &[Link], chains: &[u32], out: &mut [Link]) -> Answer
    ensures { (result ≡ records_of (counted (λ x. x) (chain_lent (map meant links.now) chains.now (length out.old))))
        × (map meant out.new ≡ records_after (chain_lent (map meant links.now) chains.now (length out.old)) (map meant out.old)) }
{
    let mut a = [0u32; 1024];
    let mut b = [0u32; 1024];
    let mut c = [0u32; 1024];
    let mut d = [0u32; 1024];
    cover_links::ridgeoven_links_apart(links, &mut a, &mut b, &mut c, &mut d);
    let answer = ask_taken(
        links.len(),
        out.len(),
        chains,
        &mut a,
        &mut b,
        &mut c,
        &mut d,
    );
    let n = answer.length;
    cover_links::ridgeoven_links_together(&a[..n], &b, &c, &d, out);
    answer
}
