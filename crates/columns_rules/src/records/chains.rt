// Building's rules on labels: one for each row (9), and each chain's seqs rising in row order (10).
ghost use Rattle.std.specs.Prelude.{◌≡◌, ◌≤◌};
ghost use Rattle.columns.specs.Building.{labels_rules};
ghost use Rattle.columns.specs.Answers.{ruling};
ghost use Rattle.columns_rules.specs.records.Recorded.{labels_given};

use crate::seqs::seqs_rise;
use columns::refusal::Refusal;

// The rules on labels, where there are labels.
pub fn labels_rules(
    rows: usize,
    labelled: bool,
    chains: &[u32],
    seqs: &[u32],
) -> Result<(), Refusal>
    requires { rows ≤ 1024 }
    ensures { result ≡ ruling (labels_rules rows (labels_given labelled chains.now seqs.now)) }
{
    if !labelled {
        return Ok(());
    }
    if chains.len() != rows {
        return Err(Refusal::LabelCount);
    }
    if seqs.len() != rows {
        return Err(Refusal::LabelCount);
    }
    if !seqs_rise(chains, seqs) {
        return Err(Refusal::SeqNotRising);
    }
    Ok(())
}
