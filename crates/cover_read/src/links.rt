// The links question, over the stored link columns that it uses.
ghost use Rattle.std.specs.Prelude.{◌≡◌, true, [], ◌∷◌, ◌≤◌, length};
ghost use Rattle.lists.specs.Order.{not_falling};
ghost use Rattle.cover.specs.Cover.{links_of, links_ok, stored_links};
ghost use Rattle.cover.specs.Questions.{chain_links};
ghost use Rattle.cover.specs.Answers.{link_columns, for_records, counted, links_after, links_over};
ghost use Rattle.cover_rows.specs.Links.{links_in};
ghost use Rattle.cover_read.specs.chosen.Chosen.{links_from};

use columns::refusal::Refusal;
use cover_rows::Links;
use cover_rows::limits::{any_over, any_short};

// Writes those links of four columns that are from one of the chains, and answers how many. The from chains don't fall.
fn pick_chosen(
    links: &Links<'_>,
    chains: &[u32],
    a: &mut [u32],
    b: &mut [u32],
    c: &mut [u32],
    d: &mut [u32],
) -> usize
    requires from_value { (not_falling links.now.from_chains.now ≡ true) × ((length links.now.from_chains.now ≤ 1024) × (length chains.now ≤ 4096)) }
    requires from_in_bounds { (length links.now.from_chains.now ≤ length a.old) × ((length links.now.from_chains.now ≤ length b.old)
        × ((length links.now.from_chains.now ≤ length c.old) × (length links.now.from_chains.now ≤ length d.old))) }
    ensures value { result ≡ length (links_from chains.now (links_in links.now)) }
    ensures d_after { link_columns a.new b.new c.new d.new
        ≡ links_over (links_from chains.now (links_in links.now))
        (link_columns a.old b.old c.old d.old) }
{
    let mut rows = [0usize; 1024];
    let k = crate::chosen::choose_rows(links.from_chains, chains, &mut rows);
    cover_rows::pick::pick_links(links, &rows, k, a, b, c, d);
    k
}

// The same of stored columns in form.
fn write_chosen(
    differences: &[u32],
    fs: &[u32],
    tc: &[u32],
    ts: &[u32],
    chains: &[u32],
    a: &mut [u32],
    b: &mut [u32],
    c: &mut [u32],
    d: &mut [u32],
) -> usize
    requires ts_value { (links_ok (link_columns differences.now fs.now tc.now ts.now) ≡ true) × ((length differences.now ≤ 1024) × (length chains.now ≤ 4096)) }
    requires differences_in_bounds { (length differences.now ≤ length a.old) × ((length differences.now ≤ length b.old)
        × ((length differences.now ≤ length c.old) × (length differences.now ≤ length d.old))) }
    ensures value { result ≡ length (links_from chains.now (stored_links (link_columns differences.now fs.now tc.now ts.now))) }
    ensures d_after { link_columns a.new b.new c.new d.new
        ≡ links_over (links_from chains.now (stored_links (link_columns differences.now fs.now tc.now ts.now)))
        (link_columns a.old b.old c.old d.old) }
{
    let n = differences.len();
    let mut from = [0u32; 1024];
    cover_rows::write_sums(differences, &mut from);
    let links = Links {
        from_chains: &from[..n],
        from_seqs: fs,
        to_chains: tc,
        to_seqs: ts,
    };
    pick_chosen(&links, chains, a, b, c, d)
}

// Writes the links from any of the chains into four columns. The stored columns are differences of from chains, from seqs, to chains, to seqs.
pub fn chain_links(
    differences: &[u32],
    fs: &[u32],
    tc: &[u32],
    ts: &[u32],
    chains: &[u32],
    a: &mut [u32],
    b: &mut [u32],
    c: &mut [u32],
    d: &mut [u32],
) -> Result<usize, Refusal>
    ensures value { result ≡ counted (λ x. x) (chain_links (link_columns differences.now fs.now tc.now ts.now)
        chains.now (for_records (length a.old ∷ length b.old ∷ length c.old ∷ length d.old ∷ []))) }
    ensures d_after { link_columns a.new b.new c.new d.new
        ≡ links_after (λ x. x) (chain_links (link_columns differences.now fs.now tc.now ts.now) chains.now
        (for_records (length a.old ∷ length b.old ∷ length c.old ∷ length d.old ∷ [])))
        (link_columns a.old b.old c.old d.old) }
{
    if any_over(&[differences.len(), fs.len(), tc.len(), ts.len()]) {
        return Err(Refusal::OverRecords);
    }
    if 4096 < chains.len() {
        return Err(Refusal::OverNumbers);
    }
    if any_short(&[a.len(), b.len(), c.len(), d.len()]) {
        return Err(Refusal::SliceShort);
    }
    if !cover_rows::links_fit(differences, fs, tc, ts) {
        return Err(Refusal::CoverForm);
    }
    Ok(write_chosen(differences, fs, tc, ts, chains, a, b, c, d))
}
