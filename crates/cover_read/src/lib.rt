// Reading a cover: ranges and stored links, refused or answered as links.
#![tactic(auto)]

mod chosen;
pub mod links;
mod ranges;
pub mod window;

ghost use Rattle.std.specs.Prelude.{◌≡◌, true, [], ◌∷◌, ◌≤◌, length};
ghost use Rattle.cover.specs.Cover.{links_ok, stored_links};
ghost use Rattle.cover.specs.Answers.{range_columns, link_columns, for_records, read_lent, counted, links_after, links_over};

use columns::refusal::Refusal;
use cover_rows::limits::{any_over, any_short};

// Writes the links that stored columns in form hold.
fn write_links(
    differences: &[u32],
    fs: &[u32],
    tc: &[u32],
    ts: &[u32],
    a: &mut [u32],
    b: &mut [u32],
    c: &mut [u32],
    d: &mut [u32],
)
    requires ts_value { links_ok (link_columns differences.now fs.now tc.now ts.now) ≡ true }
    requires differences_in_bounds { (length differences.now ≤ length a.old) × ((length differences.now ≤ length b.old)
        × ((length differences.now ≤ length c.old) × (length differences.now ≤ length d.old))) }
    ensures { link_columns a.new b.new c.new d.new
        ≡ links_over (stored_links (link_columns differences.now fs.now tc.now ts.now))
        (link_columns a.old b.old c.old d.old) }
{
    cover_rows::write_sums(differences, a);
    cover_rows::copy_column(fs, b);
    cover_rows::copy_column(tc, c);
    cover_rows::copy_column(ts, d);
}

// Reads ranges and stored links (differences of from chains, from seqs, to chains, to seqs), and writes the links into four columns.
pub fn read(
    ids: &[u32],
    minima: &[u32],
    maxima: &[u32],
    differences: &[u32],
    fs: &[u32],
    tc: &[u32],
    ts: &[u32],
    a: &mut [u32],
    b: &mut [u32],
    c: &mut [u32],
    d: &mut [u32],
) -> Result<usize, Refusal>
    ensures value { result ≡ counted (λ x. x.links) (read_lent (range_columns ids.now minima.now maxima.now)
        (link_columns differences.now fs.now tc.now ts.now)
        (for_records (length a.old ∷ length b.old ∷ length c.old ∷ length d.old ∷ []))) }
    ensures d_after { link_columns a.new b.new c.new d.new
        ≡ links_after (λ x. x.links) (read_lent (range_columns ids.now minima.now maxima.now)
        (link_columns differences.now fs.now tc.now ts.now)
        (for_records (length a.old ∷ length b.old ∷ length c.old ∷ length d.old ∷ [])))
        (link_columns a.old b.old c.old d.old) }
{
    if any_over(&[
        ids.len(),
        minima.len(),
        maxima.len(),
        differences.len(),
        fs.len(),
        tc.len(),
        ts.len(),
    ]) {
        return Err(Refusal::OverRecords);
    }
    if any_short(&[a.len(), b.len(), c.len(), d.len()]) {
        return Err(Refusal::SliceShort);
    }
    if !crate::ranges::ranges_fit(ids, minima, maxima) {
        return Err(Refusal::CoverForm);
    }
    if !cover_rows::links_fit(differences, fs, tc, ts) {
        return Err(Refusal::CoverForm);
    }
    let n = differences.len();
    write_links(differences, fs, tc, ts, a, b, c, d);
    Ok(n)
}
