// The functions of `ffi_cover` for programs in C or Rust: each calls the proved function of its name, and promises what that promises.
#![tactic(auto)]

ghost use Rattle.std.specs.Prelude.{◌≡◌, [], ◌∷◌, length};
ghost use Rattle.columns.specs.Answers.{label_columns};
ghost use Rattle.cover.specs.Cover.{encode, build_cover};
ghost use Rattle.cover.specs.Questions.{chain_links};
ghost use Rattle.cover.specs.Answers.{range_columns, link_columns, for_records, may_hold_lent, read_lent, window_answer, counted, links_after, columns_after};
ghost use Rattle.ffi_cover.specs.Numbers.{records_of, held_of, covered_of};
ghost use Rattle.cover_build.specs.Built as building;

use ffi::answer::Answer;
use ffi_cover::covers::{Covered, Held};

// The stored columns of links, the first of differences.
#[unsafe(no_mangle)]
pub extern "C" fn ridgeoven_cover_store(
    fc: &[u32],
    fs: &[u32],
    tc: &[u32],
    ts: &[u32],
    a: &mut [u32],
    b: &mut [u32],
    c: &mut [u32],
    d: &mut [u32],
) -> Answer
    ensures value { result ≡ records_of (counted (λ x. x.from_chains)
        (encode (link_columns fc.now fs.now tc.now ts.now)
        (for_records (length a.old ∷ length b.old ∷ length c.old ∷ length d.old ∷ [])))) }
    ensures d_after { link_columns a.new b.new c.new d.new
        ≡ columns_after (encode (link_columns fc.now fs.now tc.now ts.now)
        (for_records (length a.old ∷ length b.old ∷ length c.old ∷ length d.old ∷ [])))
        (link_columns a.old b.old c.old d.old) }
{
    ffi_cover::covers::ridgeoven_cover_store(fc, fs, tc, ts, a, b, c, d)
}

// The links of stored columns, whose ranges are read too.
#[unsafe(no_mangle)]
pub extern "C" fn ridgeoven_cover_read(
    ids: &[u32],
    minima: &[u32],
    maxima: &[u32],
    differences: &[u32],
    fs: &[u32],
    tc: &[u32],
    ts: &[u32],
    a: &mut [u32],
    b: &mut [u32],
    c: &mut [u32],
    d: &mut [u32],
) -> Answer
    ensures value { result ≡ records_of (counted (λ x. x.links) (read_lent (range_columns ids.now minima.now maxima.now)
        (link_columns differences.now fs.now tc.now ts.now)
        (for_records (length a.old ∷ length b.old ∷ length c.old ∷ length d.old ∷ [])))) }
    ensures d_after { link_columns a.new b.new c.new d.new
        ≡ links_after (λ x. x.links) (read_lent (range_columns ids.now minima.now maxima.now)
        (link_columns differences.now fs.now tc.now ts.now)
        (for_records (length a.old ∷ length b.old ∷ length c.old ∷ length d.old ∷ [])))
        (link_columns a.old b.old c.old d.old) }
{
    ffi_cover::covers::ridgeoven_cover_read(
        ids,
        minima,
        maxima,
        differences,
        fs,
        tc,
        ts,
        a,
        b,
        c,
        d,
    )
}

#[unsafe(no_mangle)]
pub extern "C" fn ridgeoven_window(
    ids: &[u32],
    minima: &[u32],
    maxima: &[u32],
    chain: u32,
    low: u32,
    high: u32,
) -> Held
    ensures { result ≡ held_of (window_answer (may_hold_lent (range_columns ids.now minima.now maxima.now) chain low high)) }
{
    ffi_cover::covers::ridgeoven_window(ids, minima, maxima, chain, low, high)
}

// The links from some chains, of stored columns.
#[unsafe(no_mangle)]
pub extern "C" fn ridgeoven_chain_links(
    differences: &[u32],
    fs: &[u32],
    tc: &[u32],
    ts: &[u32],
    chains: &[u32],
    a: &mut [u32],
    b: &mut [u32],
    c: &mut [u32],
    d: &mut [u32],
) -> Answer
    ensures value { result ≡ records_of (counted (λ x. x) (chain_links (link_columns differences.now fs.now tc.now ts.now)
        chains.now (for_records (length a.old ∷ length b.old ∷ length c.old ∷ length d.old ∷ [])))) }
    ensures d_after { link_columns a.new b.new c.new d.new
        ≡ links_after (λ x. x) (chain_links (link_columns differences.now fs.now tc.now ts.now) chains.now
        (for_records (length a.old ∷ length b.old ∷ length c.old ∷ length d.old ∷ [])))
        (link_columns a.old b.old c.old d.old) }
{
    ffi_cover::covers::ridgeoven_chain_links(differences, fs, tc, ts, chains, a, b, c, d)
}

// The ranges of labels, and links in any order sorted with repeats dropped.
#[unsafe(no_mangle)]
pub extern "C" fn ridgeoven_cover_build(
    chains: &[u32],
    seqs: &[u32],
    fc: &[u32],
    fs: &[u32],
    tc: &[u32],
    ts: &[u32],
    ids: &mut [u32],
    minima: &mut [u32],
    maxima: &mut [u32],
    a: &mut [u32],
    b: &mut [u32],
    c: &mut [u32],
    d: &mut [u32],
) -> Covered
    ensures value { result ≡ covered_of (building.built_of (build_cover (label_columns chains.now seqs.now)
        (link_columns fc.now fs.now tc.now ts.now)
        (for_records (length ids.old ∷ length minima.old ∷ length maxima.old ∷ length a.old ∷ length b.old ∷ length
        c.old ∷ length d.old ∷ [])))) }
    ensures maxima_after { range_columns ids.new minima.new maxima.new
        ≡ building.ranges_after (build_cover (label_columns chains.now seqs.now)
        (link_columns fc.now fs.now tc.now ts.now)
        (for_records (length ids.old ∷ length minima.old ∷ length maxima.old ∷ length a.old ∷ length b.old ∷ length
        c.old ∷ length d.old ∷ []))) (range_columns ids.old minima.old maxima.old) }
    ensures d_after { link_columns a.new b.new c.new d.new
        ≡ links_after (λ x. x.links) (build_cover (label_columns chains.now seqs.now)
        (link_columns fc.now fs.now tc.now ts.now)
        (for_records (length ids.old ∷ length minima.old ∷ length maxima.old ∷ length a.old ∷ length b.old ∷ length
        c.old ∷ length d.old ∷ []))) (link_columns a.old b.old c.old d.old) }
{
    ffi_cover::covers::ridgeoven_cover_build(
        chains, seqs, fc, fs, tc, ts, ids, minima, maxima, a, b, c, d,
    )
}
