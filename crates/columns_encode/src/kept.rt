// Building past its limits and its first rules: 11 to 15, then the three sets.
ghost use Rattle.std.specs.Prelude.{◌≡◌, ◌≤◌, length};
ghost use Rattle.columns.specs.EdgeSet.{cut};
ghost use Rattle.columns_rules.specs.records.Recorded.{inbound_of};
ghost use Rattle.columns_encode.specs.Encoded.{Early, Rooms};
ghost use Rattle.columns_encode.specs.Answered.{late_verdict, encoded_of, offsets_laid, deltas_laid};

use crate::late::late_rules;
use crate::writing::{Counts, write_sets};
use arrays::index;
use columns::refusal::Refusal;

// 11 to 15, then the three sets of the n rows from row `from` on. offs, list and w are work space.
pub fn encode_kept(
    first: u64,
    rows: usize,
    offsets: &[u64],
    targets: &[u64],
    children: &[u64],
    parents: &[u64],
    kinds: &[u64],
    from: usize,
    n: usize,
    fo: &mut [u64],
    fd: &mut [i64],
    ro: &mut [u64],
    rd: &mut [i64],
    io: &mut [u64],
    id: &mut [i64],
    offs: &mut [u64],
    list: &mut [u64],
    w: &mut [u64],
) -> Result<Counts, Refusal>
    requires early { Early first rows offsets.now targets.now (length children.now) }
    requires rooms { Rooms (length fo.old) (length fd.old) (length ro.old) (length rd.old) (length io.old) (length id.old) }
    requires in_bounds { (2049 ≤ length offs.old) × ((4096 ≤ length list.old) × (4096 ≤ length w.old)) }
    ensures value { result ≡ encoded_of (late_verdict first rows (cut offsets.now targets.now)
        (inbound_of children.now parents.now kinds.now) from n) }
    ensures fo_after { fo.new ≡ offsets_laid 0 (late_verdict first rows (cut offsets.now targets.now)
        (inbound_of children.now parents.now kinds.now) from n) fo.old }
    ensures fd_after { fd.new ≡ deltas_laid 0 (late_verdict first rows (cut offsets.now targets.now)
        (inbound_of children.now parents.now kinds.now) from n) fd.old }
    ensures ro_after { ro.new ≡ offsets_laid 1 (late_verdict first rows (cut offsets.now targets.now)
        (inbound_of children.now parents.now kinds.now) from n) ro.old }
    ensures rd_after { rd.new ≡ deltas_laid 1 (late_verdict first rows (cut offsets.now targets.now)
        (inbound_of children.now parents.now kinds.now) from n) rd.old }
    ensures io_after { io.new ≡ offsets_laid 2 (late_verdict first rows (cut offsets.now targets.now)
        (inbound_of children.now parents.now kinds.now) from n) io.old }
    ensures id_after { id.new ≡ deltas_laid 2 (late_verdict first rows (cut offsets.now targets.now)
        (inbound_of children.now parents.now kinds.now) from n) id.old }
{
    late_rules(
        first, rows, offsets, targets, children, parents, kinds, from, n, offs, list, w,
    )?;
    let m = index(offs[2 * rows]);
    Ok(write_sets(
        first, rows, from, n, offsets, targets, offs, list, m, fo, fd, ro, rd, io, id,
    ))
}
