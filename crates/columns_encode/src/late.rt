// Inbound edges, the granule's rows and its spans (11 to 15), in order. The inbound edges are put in order before 13, so that it looks at
// neighbours alone.
ghost use Rattle.std.specs.Prelude.{◌≡◌, true, ◌+◌, ◌*◌, ◌≤◌, ◌<◌, length, take};
ghost use Rattle.lists.specs.Lists.{all};
ghost use Rattle.lists.specs.Order.{not_falling};
ghost use Rattle.columns.specs.Limits.{kinds, kinds as run_kinds, end64};
ghost use Rattle.columns.specs.EdgeSet.{offsets_form, cut};
ghost use Rattle.columns.specs.Building.{inbound_lists};
ghost use Rattle.columns.specs.Answers.{ruling};
ghost use Rattle.columns_rules.specs.records.Recorded.{inbound_of};
ghost use Rattle.columns_sets.specs.counting.GivenEdges.{Edges};
ghost use Rattle.columns_encode.specs.Grouped.{table_rules, late_rules};
ghost use Rattle.columns_encode.specs.Encoded.{Early, Arranged};

use columns::refusal::Refusal;
use columns_rules::records::parts::inbound_rules;
use columns_rules::spans::groups::span_rules;
use columns_sets::inbound::{arrange, no_repeats};

// 13 to 15, of inbound lists in order that stand at the start of `offs` and `list`, m entries in all.
fn table_rules(
    first: u64,
    rows: usize,
    offsets: &[u64],
    targets: &[u64],
    offs: &[u64],
    list: &[u64],
    m: usize,
    from: usize,
    n: usize,
) -> Result<(), Refusal>
    requires rows_bound { (rows ≤ 1024) × (first + rows < end64) }
    requires rows_in_bounds { (2 * rows + 1 ≤ length offs.now) × (m ≤ length list.now) }
    requires offsets_value { offsets_form kinds rows (length targets.now) offsets.now ≡ true }
    requires offs_value { offsets_form kinds rows (length (take m list.now)) (take (2 * rows + 1) offs.now) ≡ true }
    requires list_value { all not_falling (cut (take (2 * rows + 1) offs.now) (take m list.now)) ≡ true }
    ensures { result ≡ ruling (table_rules first rows (cut offsets.now targets.now) (cut (take (2 * rows + 1) offs.now) (take m list.now)) from n) }
{
    let k = 2 * rows + 1;
    if !no_repeats(rows, &offs[..k], &list[..m]) {
        return Err(Refusal::InboundTwice);
    }
    span_rules(
        first,
        rows,
        offsets,
        targets,
        &offs[..k],
        &list[..m],
        from,
        n,
    )
}

// 13 to 15, of inbound edges that keep 11 and 12. Their lists are left in `offs` and `list`. w is work space.
fn arranged_rules(
    first: u64,
    rows: usize,
    offsets: &[u64],
    targets: &[u64],
    children: &[u64],
    parents: &[u64],
    kinds: &[u64],
    from: usize,
    n: usize,
    offs: &mut [u64],
    list: &mut [u64],
    w: &mut [u64],
) -> Result<(), Refusal>
    requires early { Early first rows offsets.now targets.now (length children.now) }
    requires edges { Edges first rows children.now parents.now kinds.now }
    requires in_bounds { (2049 ≤ length offs.old) × ((4096 ≤ length list.old) × (4096 ≤ length w.old)) }
    ensures value { result ≡ ruling (table_rules first rows (cut offsets.now targets.now)
        (inbound_lists run_kinds first rows (inbound_of children.now parents.now kinds.now)) from n) }
    ensures arranged { Arranged rows (inbound_lists run_kinds first rows (inbound_of children.now parents.now kinds.now)) offs.new list.new }
{
    let m = arrange(first, rows, children, parents, kinds, offs, list, w);
    table_rules(first, rows, offsets, targets, offs, list, m, from, n)
}

// 11 to 15. Where all are kept, the inbound lists are left in `offs` and `list`. w is work space.
pub(crate) fn late_rules(
    first: u64,
    rows: usize,
    offsets: &[u64],
    targets: &[u64],
    children: &[u64],
    parents: &[u64],
    kinds: &[u64],
    from: usize,
    n: usize,
    offs: &mut [u64],
    list: &mut [u64],
    w: &mut [u64],
) -> Result<(), Refusal>
    requires early { Early first rows offsets.now targets.now (length children.now) }
    requires in_bounds { (2049 ≤ length offs.old) × ((4096 ≤ length list.old) × (4096 ≤ length w.old)) }
    ensures value { result ≡ ruling (late_rules first rows (cut offsets.now targets.now) (inbound_of children.now parents.now kinds.now) from n) }
    ensures arranged { result ≡ (Ok tt) → Arranged rows (inbound_lists run_kinds first rows (inbound_of children.now parents.now kinds.now))
        offs.new list.new }
{
    inbound_rules(first, rows, children, parents, kinds)?;
    arranged_rules(
        first, rows, offsets, targets, children, parents, kinds, from, n, offs, list, w,
    )
}
