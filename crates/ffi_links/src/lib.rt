// Links as lent records, sorted in place. The exported function takes its links apart into columns of its own, calls a function over columns and puts
// the answer together; the laws of its proof serve `ffi_links_ask`, `ffi_links_store` and `ffi_links_build`.
#![tactic(auto)]

ghost use Rattle.std.specs.Prelude.{◌≡◌, map, ◌≤◌, length, take};
ghost use Rattle.cover.specs.Chains.{sort_links};
ghost use Rattle.cover.specs.Answers.{link_columns, counted, links_over, links_after};
ghost use Rattle.cover_links.specs.Links.{meant};
ghost use Rattle.ffi_cover.specs.Numbers.{records_of};
ghost use Rattle.ffi_links.specs.Records.{sort_lent, records_after, first_links, given};

use columns::refusal::Refusal;
use cover_links::Link;
use ffi::answer::Answer;

// Writes the first n links of four columns sorted, repeats dropped, and answers how many they are.
fn sort_part(
    n: usize,
    x: &[u32],
    y: &[u32],
    z: &[u32],
    w: &[u32],
    a: &mut [u32],
    b: &mut [u32],
    c: &mut [u32],
    d: &mut [u32],
) -> usize
    requires n_bound { n ≤ 1024 }
    requires x_len { (length x.now ≡ 1024) × ((length y.now ≡ 1024) × ((length z.now ≡ 1024) × (length w.now ≡ 1024))) }
    requires a_len { (length a.old ≡ 1024) × ((length b.old ≡ 1024) × ((length c.old ≡ 1024) × (length d.old ≡ 1024))) }
    ensures value { result ≡ length (sort_links (first_links n (link_columns x.now y.now z.now w.now))) }
    ensures d_after { link_columns a.new b.new c.new d.new
        ≡ links_over (sort_links (first_links n (link_columns x.now y.now z.now w.now)))
        (link_columns a.old b.old c.old d.old) }
{
    cover_sort::sort_links(&x[..n], &y[..n], &z[..n], &w[..n], a, b, c, d)
}

// Sorts the first n links of four columns, repeats dropped, and answers how many they are; what stands behind them stays. x, y, z and w are work
// space.
fn sort_by(
    n: usize,
    x: &mut [u32],
    y: &mut [u32],
    z: &mut [u32],
    w: &mut [u32],
    a: &mut [u32],
    b: &mut [u32],
    c: &mut [u32],
    d: &mut [u32],
) -> usize
    requires n_bound { n ≤ 1024 }
    requires a_len { (length a.old ≡ 1024) × ((length b.old ≡ 1024) × ((length c.old ≡ 1024) × (length d.old ≡ 1024))) }
    requires x_len { (length x.old ≡ 1024) × ((length y.old ≡ 1024) × ((length z.old ≡ 1024) × (length w.old ≡ 1024))) }
    ensures value { result ≡ length (sort_links (first_links n (link_columns a.old b.old c.old d.old))) }
    ensures d_after { link_columns a.new b.new c.new d.new
        ≡ links_over (sort_links (first_links n (link_columns a.old b.old c.old d.old)))
        (link_columns a.old b.old c.old d.old) }
{
    cover_copy::copy_links(n, a, b, c, d, x, y, z, w);
    sort_part(n, x, y, z, w, a, b, c, d)
}

// The same with work space of its own.
fn sort_first(n: usize, a: &mut [u32], b: &mut [u32], c: &mut [u32], d: &mut [u32]) -> usize
    requires n_bound { n ≤ 1024 }
    requires a_len { (length a.old ≡ 1024) × ((length b.old ≡ 1024) × ((length c.old ≡ 1024) × (length d.old ≡ 1024))) }
    ensures value { result ≡ length (sort_links (first_links n (link_columns a.old b.old c.old d.old))) }
    ensures d_after { link_columns a.new b.new c.new d.new
        ≡ links_over (sort_links (first_links n (link_columns a.old b.old c.old d.old)))
        (link_columns a.old b.old c.old d.old) }
{
    let mut x = [0u32; 1024];
    let mut y = [0u32; 1024];
    let mut z = [0u32; 1024];
    let mut w = [0u32; 1024];
    sort_by(n, &mut x, &mut y, &mut z, &mut w, a, b, c, d)
}

// The same where n links were given, of which the columns hold 1,024.
fn sort_taken(n: usize, a: &mut [u32], b: &mut [u32], c: &mut [u32], d: &mut [u32]) -> Answer
    requires { (length a.old ≡ 1024) × ((length b.old ≡ 1024) × ((length c.old ≡ 1024) × (length d.old ≡ 1024))) }
    ensures { (result ≡ records_of (counted (λ x. x) (given n
        (sort_lent (first_links n (link_columns a.old b.old c.old d.old))))))
        × (link_columns a.new b.new c.new d.new
        ≡ links_after (λ x. x) (given n (sort_lent (first_links n (link_columns a.old b.old c.old d.old))))
        (link_columns a.old b.old c.old d.old)) }
{
    if 1024 < n {
        return Answer::from(Err(Refusal::OverRecords));
    }
    Answer::from(Ok(sort_first(n, a, b, c, d)))
}

// Puts links in order, repeats dropped, from the start of their slice on, and answers how many they are; what stands behind them stays.
pub fn ridgeoven_links_sort(links: &mut [Link]) -> Answer
    ensures { (result ≡ records_of (counted (λ x. x) (sort_lent (map meant links.old))))
        × (map meant links.new ≡ records_after (sort_lent (map meant links.old)) (map meant links.old)) }
{
    let mut a = [0u32; 1024];
    let mut b = [0u32; 1024];
    let mut c = [0u32; 1024];
    let mut d = [0u32; 1024];
    cover_links::ridgeoven_links_apart(links, &mut a, &mut b, &mut c, &mut d);
    let answer = sort_taken(links.len(), &mut a, &mut b, &mut c, &mut d);
    let n = answer.length;
    cover_links::ridgeoven_links_together(&a[..n], &b, &c, &d, links);
    answer
}
