// The granule's rows and its spans (14, 15), in order.
ghost use Rattle.std.specs.Prelude.{◌≡◌, true, ◌+◌, ◌≤◌, ◌<◌, length};
ghost use Rattle.columns.specs.Limits.{kinds, end64};
ghost use Rattle.columns.specs.EdgeSet.{offsets_form, cut};
ghost use Rattle.columns.specs.Answers.{ruling};
ghost use Rattle.columns_rules.specs.spans.Spanned.{span_rules};

use crate::spans::reach::slots_fit;
use columns::refusal::Refusal;

// 14 and 15: the granule's rows, and its edges in the order of the sets. The inbound lists come as a table of their own. A reverse edge spans
// less than the file.
pub fn span_rules(
    first: u64,
    rows: usize,
    offsets: &[u64],
    targets: &[u64],
    ioffsets: &[u64],
    itargets: &[u64],
    from: usize,
    n: usize,
) -> Result<(), Refusal>
    requires rows_bound { (rows ≤ 1024) × (first + rows < end64) }
    requires offsets_value { offsets_form kinds rows (length targets.now) offsets.now ≡ true }
    requires ioffsets_value { offsets_form kinds rows (length itargets.now) ioffsets.now ≡ true }
    ensures { result ≡ ruling (span_rules first rows (cut offsets.now targets.now) (cut ioffsets.now itargets.now) from n) }
{
    if rows < from {
        return Err(Refusal::GranuleRows);
    }
    if rows - from < n {
        return Err(Refusal::GranuleRows);
    }
    if !slots_fit(first, rows, from, n, offsets, targets) {
        return Err(Refusal::DeltaRange);
    }
    if !slots_fit(first, rows, from, n, ioffsets, itargets) {
        return Err(Refusal::DeltaRange);
    }
    Ok(())
}
