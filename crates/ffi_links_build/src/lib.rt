// A cover built of labels and of links as lent records: the links taken apart into columns, built, put together. Proved by the laws of
// `ffi_links`.
#![tactic(auto)]

ghost use Rattle.std.specs.Prelude.{◌≡◌, [], ◌∷◌, map, ◌≤◌, length};
ghost use Rattle.columns.specs.Answers.{label_columns};
ghost use Rattle.cover.specs.Answers.{range_columns, link_columns};
ghost use Rattle.cover_build.specs.Built.{built_of, ranges_after};
ghost use Rattle.cover_links.specs.Links.{meant};
ghost use Rattle.ffi_cover.specs.Numbers.{covered_of};
ghost use Rattle.ffi_links.specs.Records.{records_after, first_links, given};
ghost use Rattle.ffi_links_build.specs.Covers.{build_lent, links_in, Wrote};

use columns::refusal::Refusal;
use cover_links::Link;
use ffi_cover::covers::Covered;

// Builds the cover of labels and of the first n links of columns.
fn build_part(
    n: usize,
    chains: &[u32],
    seqs: &[u32],
    x: &[u32],
    y: &[u32],
    z: &[u32],
    w: &[u32],
    ids: &mut [u32],
    minima: &mut [u32],
    maxima: &mut [u32],
    a: &mut [u32],
    b: &mut [u32],
    c: &mut [u32],
    d: &mut [u32],
) -> Covered
    requires n_bound { n ≤ 1024 }
    requires x_len { (length x.now ≡ 1024) × ((length y.now ≡ 1024) × ((length z.now ≡ 1024) × (length w.now ≡ 1024))) }
    requires a_len { (length a.old ≡ 1024) × ((length b.old ≡ 1024) × ((length c.old ≡ 1024) × (length d.old ≡ 1024))) }
    ensures { Wrote (build_lent (label_columns chains.now seqs.now)
        (first_links n (link_columns x.now y.now z.now w.now))
        (length ids.old ∷ length minima.old ∷ length maxima.old ∷ 1024 ∷ [])) result
        (range_columns ids.old minima.old maxima.old) (range_columns ids.new minima.new maxima.new)
        (link_columns a.old b.old c.old d.old)
        (link_columns a.new b.new c.new d.new) }
{
    ffi_cover::covers::ridgeoven_cover_build(
        chains,
        seqs,
        &x[..n],
        &y[..n],
        &z[..n],
        &w[..n],
        ids,
        minima,
        maxima,
        a,
        b,
        c,
        d,
    )
}

// The same of the first n links of the columns that are written. x, y, z and w are work space.
fn build_by(
    n: usize,
    chains: &[u32],
    seqs: &[u32],
    ids: &mut [u32],
    minima: &mut [u32],
    maxima: &mut [u32],
    x: &mut [u32],
    y: &mut [u32],
    z: &mut [u32],
    w: &mut [u32],
    a: &mut [u32],
    b: &mut [u32],
    c: &mut [u32],
    d: &mut [u32],
) -> Covered
    requires n_bound { n ≤ 1024 }
    requires a_len { (length a.old ≡ 1024) × ((length b.old ≡ 1024) × ((length c.old ≡ 1024) × (length d.old ≡ 1024))) }
    requires x_len { (length x.old ≡ 1024) × ((length y.old ≡ 1024) × ((length z.old ≡ 1024) × (length w.old ≡ 1024))) }
    ensures { Wrote (build_lent (label_columns chains.now seqs.now)
        (first_links n (link_columns a.old b.old c.old d.old))
        (length ids.old ∷ length minima.old ∷ length maxima.old ∷ 1024 ∷ [])) result
        (range_columns ids.old minima.old maxima.old) (range_columns ids.new minima.new maxima.new)
        (link_columns a.old b.old c.old d.old)
        (link_columns a.new b.new c.new d.new) }
{
    cover_copy::copy_links(n, a, b, c, d, x, y, z, w);
    build_part(n, chains, seqs, x, y, z, w, ids, minima, maxima, a, b, c, d)
}

// The same with work space of its own.
fn build_first(
    n: usize,
    chains: &[u32],
    seqs: &[u32],
    ids: &mut [u32],
    minima: &mut [u32],
    maxima: &mut [u32],
    a: &mut [u32],
    b: &mut [u32],
    c: &mut [u32],
    d: &mut [u32],
) -> Covered
    requires n_bound { n ≤ 1024 }
    requires a_len { (length a.old ≡ 1024) × ((length b.old ≡ 1024) × ((length c.old ≡ 1024) × (length d.old ≡ 1024))) }
    ensures { Wrote (build_lent (label_columns chains.now seqs.now)
        (first_links n (link_columns a.old b.old c.old d.old))
        (length ids.old ∷ length minima.old ∷ length maxima.old ∷ 1024 ∷ [])) result
        (range_columns ids.old minima.old maxima.old) (range_columns ids.new minima.new maxima.new)
        (link_columns a.old b.old c.old d.old)
        (link_columns a.new b.new c.new d.new) }
{
    let mut x = [0u32; 1024];
    let mut y = [0u32; 1024];
    let mut z = [0u32; 1024];
    let mut w = [0u32; 1024];
    build_by(
        n, chains, seqs, ids, minima, maxima, &mut x, &mut y, &mut z, &mut w, a, b, c, d,
    )
}

// The same where n links were given, of which the columns hold 1,024, and the answer goes to a slice of this room.
fn build_taken(
    n: usize,
    room: usize,
    chains: &[u32],
    seqs: &[u32],
    ids: &mut [u32],
    minima: &mut [u32],
    maxima: &mut [u32],
    a: &mut [u32],
    b: &mut [u32],
    c: &mut [u32],
    d: &mut [u32],
) -> Covered
    requires { (length a.old ≡ 1024) × ((length b.old ≡ 1024) × ((length c.old ≡ 1024) × (length d.old ≡ 1024))) }
    ensures { Wrote (given n (build_lent (label_columns chains.now seqs.now)
        (first_links n (link_columns a.old b.old c.old d.old))
        (length ids.old ∷ length minima.old ∷ length maxima.old ∷ room ∷ []))) result
        (range_columns ids.old minima.old maxima.old) (range_columns ids.new minima.new maxima.new)
        (link_columns a.old b.old c.old d.old)
        (link_columns a.new b.new c.new d.new) }
{
    if cover_rows::limits::three_over(chains.len(), seqs.len(), n) {
        return Covered::from(Err(Refusal::OverRecords));
    }
    if room < 1024 {
        return Covered::from(Err(Refusal::SliceShort));
    }
    build_first(n, chains, seqs, ids, minima, maxima, a, b, c, d)
}

// Writes the ranges of labels into three columns, by rising chain id, and links in order, repeats dropped, from the start of `out` on; answers how
// many of each, and what stands behind them stays.
pub fn ridgeoven_links_build(
    chains: &[u32],
    seqs: &[u32],
    links: &[Link],
    ids: &mut [u32],
    minima: &mut [u32],
    maxima: &mut [u32],
    out: &mut [Link],
) -> Covered
    ensures { (result ≡ covered_of (built_of (build_lent (label_columns chains.now seqs.now) (map meant links.now)
        (length ids.old ∷ length minima.old ∷ length maxima.old ∷ length out.old ∷ []))))
        × ((range_columns ids.new minima.new maxima.new
        ≡ ranges_after (build_lent (label_columns chains.now seqs.now) (map meant links.now)
        (length ids.old ∷ length minima.old ∷ length maxima.old ∷ length out.old ∷ []))
        (range_columns ids.old minima.old maxima.old))
        × (map meant out.new
        ≡ records_after (links_in (build_lent (label_columns chains.now seqs.now) (map meant links.now)
        (length ids.old ∷ length minima.old ∷ length maxima.old ∷ length out.old ∷ [])))
        (map meant out.old))) }
{
    let mut a = [0u32; 1024];
    let mut b = [0u32; 1024];
    let mut c = [0u32; 1024];
    let mut d = [0u32; 1024];
    cover_links::ridgeoven_links_apart(links, &mut a, &mut b, &mut c, &mut d);
    let covered = build_taken(
        links.len(),
        out.len(),
        chains,
        seqs,
        ids,
        minima,
        maxima,
        &mut a,
        &mut b,
        &mut c,
        &mut d,
    );
    let n = covered.links;
    cover_links::ridgeoven_links_together(&a[..n], &b, &c, &d, out);
    covered
}
