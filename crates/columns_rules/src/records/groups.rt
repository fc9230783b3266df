// Unresolved records, depth and labels (6 to 10), in order.
ghost use Rattle.std.specs.Prelude.{◌≡◌, ◌≤◌};
ghost use Rattle.columns.specs.Building.{depth_ok};
ghost use Rattle.columns.specs.Answers.{ruling};
ghost use Rattle.columns_rules.specs.records.Recorded.{labels_given, depth_of, record_rules, depth_rules};

use crate::records::chains::labels_rules;
use crate::records::parts::unresolved_rules;
use columns::depth::Depth;
use columns::refusal::Refusal;

fn depth_fits(depth: Depth) -> bool
    ensures { result ≡ depth_ok (depth_of depth) }
{
    match depth {
        Depth::Unknown => true,
        Depth::Between(least, greatest) => least <= greatest,
    }
}

// 8 to 10: depth and labels.
fn label_rules(
    rows: usize,
    depth: Depth,
    labelled: bool,
    chains: &[u32],
    seqs: &[u32],
) -> Result<(), Refusal>
    requires { rows ≤ 1024 }
    ensures { result ≡ ruling (depth_rules rows (depth_of depth) (labels_given labelled chains.now seqs.now)) }
{
    if !depth_fits(depth) {
        return Err(Refusal::DepthOrder);
    }
    labels_rules(rows, labelled, chains, seqs)
}

// 6 to 10: unresolved records, depth, labels.
pub fn record_rules(
    first: u64,
    rows: usize,
    children: &[u64],
    kinds: &[u64],
    flags: &[u64],
    depth: Depth,
    labelled: bool,
    chains: &[u32],
    seqs: &[u32],
) -> Result<(), Refusal>
    requires { rows ≤ 1024 }
    ensures { result ≡ ruling (record_rules first rows children.now kinds.now flags.now (depth_of depth)
        (labels_given labelled chains.now seqs.now)) }
{
    unresolved_rules(first, rows, children, kinds, flags)?;
    label_rules(rows, depth, labelled, chains, seqs)
}
