// The window question, over the range columns that it uses.
ghost use Rattle.std.specs.Prelude.{◌≡◌};
ghost use Rattle.cover.specs.Answers.{range_columns, may_hold_lent, window_answer};

use columns::refusal::Refusal;

// Whether the chain may hold an event whose seq lies from low to high.
pub fn may_hold_chain(
    ids: &[u32],
    minima: &[u32],
    maxima: &[u32],
    chain: u32,
    low: u32,
    high: u32,
) -> Result<bool, Refusal>
    ensures { result ≡ window_answer (may_hold_lent (range_columns ids.now minima.now maxima.now) chain low high) }
{
    if cover_rows::limits::any_over(&[ids.len(), minima.len(), maxima.len()]) {
        return Err(Refusal::OverRecords);
    }
    if !crate::ranges::ranges_fit(ids, minima, maxima) {
        return Err(Refusal::CoverForm);
    }
    Ok(crate::ranges::holds(ids, minima, maxima, chain, low, high))
}
