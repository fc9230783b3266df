// The chain cover: built, its links stored and read, and its two questions. Ranges are three columns, ids, minima and maxima, and links four, from chains,
// from seqs, to chains and to seqs; the first of four stored columns holds differences. Links are written into `a`, `b`, `c` and `d`.
ghost use Rattle.std.specs.Prelude.{◌≡◌, [], ◌∷◌, length};
ghost use Rattle.columns.specs.Answers.{label_columns};
ghost use Rattle.cover.specs.Cover.{encode, build_cover};
ghost use Rattle.cover.specs.Questions.{chain_links};
ghost use Rattle.cover.specs.Answers.{range_columns, link_columns, for_records, may_hold_lent, read_lent, window_answer, counted, links_after, columns_after};
ghost use Rattle.cover_build.specs.Built as building;
ghost use Rattle.ffi_cover.specs.Numbers.{records_of, held_of, covered_of};

use columns::refusal::Refusal;
use ffi::answer::Answer;

// The stored columns of links, the first of differences.
pub fn ridgeoven_cover_store(
    fc: &[u32],
    fs: &[u32],
    tc: &[u32],
    ts: &[u32],
    a: &mut [u32],
    b: &mut [u32],
    c: &mut [u32],
    d: &mut [u32],
) -> Answer
    ensures value { result ≡ records_of (counted (λ x. x.from_chains)
        (encode (link_columns fc.now fs.now tc.now ts.now)
        (for_records (length a.old ∷ length b.old ∷ length c.old ∷ length d.old ∷ [])))) }
    ensures d_after { link_columns a.new b.new c.new d.new
        ≡ columns_after (encode (link_columns fc.now fs.now tc.now ts.now)
        (for_records (length a.old ∷ length b.old ∷ length c.old ∷ length d.old ∷ [])))
        (link_columns a.old b.old c.old d.old) }
{
    Answer::from(cover_build::encode::encode_links(fc, fs, tc, ts, a, b, c, d))
}

// The links of stored columns, whose ranges are read too.
pub fn ridgeoven_cover_read(
    ids: &[u32],
    minima: &[u32],
    maxima: &[u32],
    differences: &[u32],
    fs: &[u32],
    tc: &[u32],
    ts: &[u32],
    a: &mut [u32],
    b: &mut [u32],
    c: &mut [u32],
    d: &mut [u32],
) -> Answer
    ensures value { result ≡ records_of (counted (λ x. x.links) (read_lent (range_columns ids.now minima.now maxima.now)
        (link_columns differences.now fs.now tc.now ts.now)
        (for_records (length a.old ∷ length b.old ∷ length c.old ∷ length d.old ∷ [])))) }
    ensures d_after { link_columns a.new b.new c.new d.new
        ≡ links_after (λ x. x.links) (read_lent (range_columns ids.now minima.now maxima.now)
        (link_columns differences.now fs.now tc.now ts.now)
        (for_records (length a.old ∷ length b.old ∷ length c.old ∷ length d.old ∷ [])))
        (link_columns a.old b.old c.old d.old) }
{
    Answer::from(cover_read::read(ids, minima, maxima, differences, fs, tc, ts, a, b, c, d))
}

// Whether the chain may hold an event of the window: 1 or 0.
#[repr(C)]
#[derive(Clone, Copy)]
pub struct Held {
    pub refusal: u64,
    pub holds: u64,
}

impl From<Result<bool, Refusal>> for Held {
    ghost from_gives = { λ window held. held ≡ held_of window };

    fn from(window: Result<bool, Refusal>) -> Held {
        match window {
            Ok(holds) => Held {
                refusal: 0,
                holds: u64::from(holds),
            },
            Err(why) => Held {
                refusal: why.number(),
                holds: 0,
            },
        }
    }
}

pub fn ridgeoven_window(
    ids: &[u32],
    minima: &[u32],
    maxima: &[u32],
    chain: u32,
    low: u32,
    high: u32,
) -> Held
    ensures { result ≡ held_of (window_answer (may_hold_lent (range_columns ids.now minima.now maxima.now) chain low high)) }
{
    Held::from(cover_read::window::may_hold_chain(ids, minima, maxima, chain, low, high))
}

// The links from some chains, of stored columns.
pub fn ridgeoven_chain_links(
    differences: &[u32],
    fs: &[u32],
    tc: &[u32],
    ts: &[u32],
    chains: &[u32],
    a: &mut [u32],
    b: &mut [u32],
    c: &mut [u32],
    d: &mut [u32],
) -> Answer
    ensures value { result ≡ records_of (counted (λ x. x) (chain_links (link_columns differences.now fs.now tc.now ts.now)
        chains.now (for_records (length a.old ∷ length b.old ∷ length c.old ∷ length d.old ∷ [])))) }
    ensures d_after { link_columns a.new b.new c.new d.new
        ≡ links_after (λ x. x) (chain_links (link_columns differences.now fs.now tc.now ts.now) chains.now
        (for_records (length a.old ∷ length b.old ∷ length c.old ∷ length d.old ∷ [])))
        (link_columns a.old b.old c.old d.old) }
{
    Answer::from(cover_read::links::chain_links(differences, fs, tc, ts, chains, a, b, c, d))
}

// How many ranges and links a cover has.
#[repr(C)]
#[derive(Clone, Copy)]
pub struct Covered {
    pub refusal: u64,
    pub ranges: usize,
    pub links: usize,
}

impl From<Result<(usize, usize), Refusal>> for Covered {
    ghost from_gives = { λ built covered. covered ≡ covered_of built };

    fn from(built: Result<(usize, usize), Refusal>) -> Covered {
        match built {
            Ok((ranges, links)) => Covered {
                refusal: 0,
                ranges,
                links,
            },
            Err(why) => Covered {
                refusal: why.number(),
                ranges: 0,
                links: 0,
            },
        }
    }
}

// The ranges of labels, and links in any order sorted with repeats dropped.
pub fn ridgeoven_cover_build(
    chains: &[u32],
    seqs: &[u32],
    fc: &[u32],
    fs: &[u32],
    tc: &[u32],
    ts: &[u32],
    ids: &mut [u32],
    minima: &mut [u32],
    maxima: &mut [u32],
    a: &mut [u32],
    b: &mut [u32],
    c: &mut [u32],
    d: &mut [u32],
) -> Covered
    ensures value { result ≡ covered_of (building.built_of (build_cover (label_columns chains.now seqs.now)
        (link_columns fc.now fs.now tc.now ts.now)
        (for_records (length ids.old ∷ length minima.old ∷ length maxima.old ∷ length a.old ∷ length b.old ∷ length
        c.old ∷ length d.old ∷ [])))) }
    ensures maxima_after { range_columns ids.new minima.new maxima.new
        ≡ building.ranges_after (build_cover (label_columns chains.now seqs.now)
        (link_columns fc.now fs.now tc.now ts.now)
        (for_records (length ids.old ∷ length minima.old ∷ length maxima.old ∷ length a.old ∷ length b.old ∷ length
        c.old ∷ length d.old ∷ []))) (range_columns ids.old minima.old maxima.old) }
    ensures d_after { link_columns a.new b.new c.new d.new
        ≡ links_after (λ x. x.links) (build_cover (label_columns chains.now seqs.now)
        (link_columns fc.now fs.now tc.now ts.now)
        (for_records (length ids.old ∷ length minima.old ∷ length maxima.old ∷ length a.old ∷ length b.old ∷ length
        c.old ∷ length d.old ∷ []))) (link_columns a.old b.old c.old d.old) }
{
    Covered::from(cover_build::build(
        chains, seqs, fc, fs, tc, ts, ids, minima, maxima, a, b, c, d,
    ))
}
