// Building a cover: the ranges of labels and the sorted links, from columns in any order.
#![tactic(auto)]

pub mod encode;

ghost use Rattle.std.specs.Prelude.{◌≡◌, ◌≤◌, [], ◌∷◌, length, nat_lt};
ghost use Rattle.lists.specs.Lists.{any};
ghost use Rattle.columns.specs.Limits.{max_records};
ghost use Rattle.columns.specs.Refusal.{short};
ghost use Rattle.columns.specs.Reading.{labels_of};
ghost use Rattle.columns.specs.Answers.{label_columns, ruling};
ghost use Rattle.cover.specs.Chains.{ranges_of};
ghost use Rattle.cover.specs.Cover.{even_columns, build_cover};
ghost use Rattle.cover.specs.Answers.{range_columns, link_columns, links_after, for_records};
ghost use Rattle.cover_sort.specs.labels.Runs.{ranges_over};
ghost use Rattle.cover_build.specs.Built.{build_rules, built_of, ranges_after};

use columns::refusal::Refusal;
use cover_rows::limits::{any_over, any_short};

// Whether link columns are equal in number.
fn are_even(fc: &[u32], fs: &[u32], tc: &[u32], ts: &[u32]) -> bool
    ensures { result ≡ even_columns (link_columns fc.now fs.now tc.now ts.now) }
{
    let n = fc.len();
    fs.len() == n && (tc.len() == n && ts.len() == n)
}

// What the rules say of the given columns and of the lent slices, of which only the lengths are asked.
fn build_rules(
    chains: &[u32],
    seqs: &[u32],
    fc: &[u32],
    fs: &[u32],
    tc: &[u32],
    ts: &[u32],
    ids: usize,
    minima: usize,
    maxima: usize,
    a: usize,
    b: usize,
    c: usize,
    d: usize,
) -> Result<(), Refusal>
    ensures { result ≡ ruling (build_rules (label_columns chains.now seqs.now)
        (link_columns fc.now fs.now tc.now ts.now) (for_records (ids ∷ minima ∷ maxima ∷ a ∷ b ∷ c ∷ d ∷ []))) }
{
    if any_over(&[
        chains.len(),
        seqs.len(),
        fc.len(),
        fs.len(),
        tc.len(),
        ts.len(),
    ]) {
        return Err(Refusal::OverRecords);
    }
    if any_short(&[ids, minima, maxima, a, b, c, d]) {
        return Err(Refusal::SliceShort);
    }
    if !are_even(fc, fs, tc, ts) {
        return Err(Refusal::CoverForm);
    }
    Ok(())
}

// How many labels two columns hold: as many as the shorter one.
fn labels_count(chains: &[u32], seqs: &[u32]) -> usize
    ensures { result ≡ length (labels_of chains.now seqs.now) }
{
    chains.len().min(seqs.len())
}

// Writes the ranges of the labels that two columns hold, and answers how many there are.
fn write_ranges(
    chains: &[u32],
    seqs: &[u32],
    ids: &mut [u32],
    minima: &mut [u32],
    maxima: &mut [u32],
) -> usize
    requires chains_len_bound { length chains.now ≤ 1024 }
    requires in_bounds { (1024 ≤ length ids.old) × ((1024 ≤ length minima.old) × (1024 ≤ length maxima.old)) }
    ensures value { result ≡ length (ranges_of (labels_of chains.now seqs.now)) }
    ensures maxima_after { range_columns ids.new minima.new maxima.new
        ≡ ranges_over (ranges_of (labels_of chains.now seqs.now)) (range_columns ids.old minima.old maxima.old) }
{
    let n = labels_count(chains, seqs);
    cover_sort::labels::ranges_of(&chains[..n], &seqs[..n], ids, minima, maxima)
}

// Builds a cover of labels and of links (from chains, from seqs, to chains, to seqs): writes its ranges into three columns and its links
// into four.
pub fn build(
    chains: &[u32],
    seqs: &[u32],
    fc: &[u32],
    fs: &[u32],
    tc: &[u32],
    ts: &[u32],
    ids: &mut [u32],
    minima: &mut [u32],
    maxima: &mut [u32],
    a: &mut [u32],
    b: &mut [u32],
    c: &mut [u32],
    d: &mut [u32],
) -> Result<(usize, usize), Refusal>
    ensures value { result ≡ built_of (build_cover (label_columns chains.now seqs.now)
        (link_columns fc.now fs.now tc.now ts.now)
        (for_records (length ids.old ∷ length minima.old ∷ length maxima.old ∷ length a.old ∷ length b.old ∷ length
        c.old ∷ length d.old ∷ []))) }
    ensures maxima_after { range_columns ids.new minima.new maxima.new
        ≡ ranges_after (build_cover (label_columns chains.now seqs.now)
        (link_columns fc.now fs.now tc.now ts.now)
        (for_records (length ids.old ∷ length minima.old ∷ length maxima.old ∷ length a.old ∷ length b.old ∷ length
        c.old ∷ length d.old ∷ []))) (range_columns ids.old minima.old maxima.old) }
    ensures d_after { link_columns a.new b.new c.new d.new
        ≡ links_after (λ x. x.links) (build_cover (label_columns chains.now seqs.now)
        (link_columns fc.now fs.now tc.now ts.now)
        (for_records (length ids.old ∷ length minima.old ∷ length maxima.old ∷ length a.old ∷ length b.old ∷ length
        c.old ∷ length d.old ∷ []))) (link_columns a.old b.old c.old d.old) }
{
    build_rules(
        chains,
        seqs,
        fc,
        fs,
        tc,
        ts,
        ids.len(),
        minima.len(),
        maxima.len(),
        a.len(),
        b.len(),
        c.len(),
        d.len(),
    )?;
    let ranges = write_ranges(chains, seqs, ids, minima, maxima);
    let links = cover_sort::sort_links(fc, fs, tc, ts, a, b, c, d);
    Ok((ranges, links))
}
