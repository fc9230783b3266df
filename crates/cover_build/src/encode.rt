// Encoding a cover's links: the first column as differences, the others as they are.
ghost use Rattle.std.specs.Prelude.{◌≡◌, ◌≤◌, true, [], ◌∷◌, length};
ghost use Rattle.cover.specs.Cover.{wrapping_less, differences, even_columns, encode};
ghost use Rattle.cover.specs.Answers.{link_columns, for_records, over, counted, columns_over, columns_after};

use crate::are_even;
use columns::refusal::Refusal;
use cover_rows::limits::{any_over, any_short};

// The difference of two numbers of 32 bits, wrapping.
fn wrapping_less(x: u32, before: u32) -> u32
    ensures { result ≡ wrapping_less x before }
{
    x.wrapping_sub(before)
}

// Writes each chain id less the one before it, the first less 0.
fn write_differences(chains: &[u32], out: &mut [u32])
    requires { length chains.now ≤ length out.old }
    ensures { out.new ≡ over (differences 0 chains.now) out.old }
{
    let mut before: u32 = 0;
    for i in 0..chains.len() {
        let x = chains[i];
        out[i] = wrapping_less(x, before);
        before = x;
    }
}

// Writes the stored columns of links that are equal in number.
fn write_stored(
    chains: &[u32],
    fs: &[u32],
    tc: &[u32],
    ts: &[u32],
    a: &mut [u32],
    b: &mut [u32],
    c: &mut [u32],
    d: &mut [u32],
)
    requires ts_value { even_columns (link_columns chains.now fs.now tc.now ts.now) ≡ true }
    requires chains_in_bounds { (length chains.now ≤ length a.old) × ((length chains.now ≤ length b.old) × ((length chains.now ≤ length c.old) × (length chains.now ≤ length d.old))) }
    ensures { link_columns a.new b.new c.new d.new
        ≡ columns_over (link_columns (differences 0 chains.now) fs.now tc.now ts.now)
        (link_columns a.old b.old c.old d.old) }
{
    write_differences(chains, a);
    cover_rows::copy_column(fs, b);
    cover_rows::copy_column(tc, c);
    cover_rows::copy_column(ts, d);
}

// Writes the stored columns of links (from chains, from seqs, to chains, to seqs) into four columns.
pub fn encode_links(
    chains: &[u32],
    fs: &[u32],
    tc: &[u32],
    ts: &[u32],
    a: &mut [u32],
    b: &mut [u32],
    c: &mut [u32],
    d: &mut [u32],
) -> Result<usize, Refusal>
    ensures value { result ≡ counted (λ x. x.from_chains) (encode (link_columns chains.now fs.now tc.now ts.now)
        (for_records (length a.old ∷ length b.old ∷ length c.old ∷ length d.old ∷ []))) }
    ensures d_after { link_columns a.new b.new c.new d.new
        ≡ columns_after (encode (link_columns chains.now fs.now tc.now ts.now)
        (for_records (length a.old ∷ length b.old ∷ length c.old ∷ length d.old ∷ [])))
        (link_columns a.old b.old c.old d.old) }
{
    if any_over(&[chains.len(), fs.len(), tc.len(), ts.len()]) {
        return Err(Refusal::OverRecords);
    }
    if any_short(&[a.len(), b.len(), c.len(), d.len()]) {
        return Err(Refusal::SliceShort);
    }
    if !are_even(chains, fs, tc, ts) {
        return Err(Refusal::CoverForm);
    }
    let n = chains.len();
    write_stored(chains, fs, tc, ts, a, b, c, d);
    Ok(n)
}
