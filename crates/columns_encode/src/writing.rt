// The three sets of a granule that keeps every rule, written.
ghost use Rattle.std.specs.Prelude.{◌≡◌, ◌+◌, ◌*◌, ◌≤◌, length, take};
ghost use Rattle.std.proofs.lemmas.List.Edits.{sets};
ghost use Rattle.columns.specs.Limits.{kinds};
ghost use Rattle.columns.specs.EdgeSet.{cut};
ghost use Rattle.columns.specs.Building.{reverse_lists};
ghost use Rattle.columns_sets.specs.sets.Reached.{set_at};
ghost use Rattle.columns_encode.specs.Encoded.{counts_of, Ready, Rooms};

use columns_sets::sets::{write_set, write_table, write_turned};

// How many edges each set of a granule has.
#[derive(Clone, Copy)]
pub struct Counts {
    pub forward: usize,
    pub reverse: usize,
    pub inbound: usize,
}

// Writes the three sets. The inbound lists stand at the start of `offs` and `list`, m entries in all; the reverse set comes last, so that both are
// its work space.
pub(crate) fn write_sets(
    first: u64,
    rows: usize,
    from: usize,
    n: usize,
    offsets: &[u64],
    targets: &[u64],
    offs: &mut [u64],
    list: &mut [u64],
    m: usize,
    fo: &mut [u64],
    fd: &mut [i64],
    ro: &mut [u64],
    rd: &mut [i64],
    io: &mut [u64],
    id: &mut [i64],
) -> Counts
    requires ready { Ready first rows from n offsets.now targets.now offs.old list.old m }
    requires in_bounds { (2049 ≤ length offs.old) × (4096 ≤ length list.old) }
    requires rooms { Rooms (length fo.old) (length fd.old) (length ro.old) (length rd.old) (length io.old) (length id.old) }
    ensures value { result ≡ counts_of (set_at first from n (cut offsets.now targets.now))
        (set_at first from n (reverse_lists kinds first rows (cut offsets.now targets.now)))
        (set_at first from n (cut (take (2 * rows + 1) offs.old) (take m list.old))) }
    ensures fo_after { fo.new ≡ sets fo.old 0 (set_at first from n (cut offsets.now targets.now)).offsets }
    ensures fd_after { fd.new ≡ sets fd.old 0 (set_at first from n (cut offsets.now targets.now)).deltas }
    ensures ro_after { ro.new ≡ sets ro.old 0 (set_at first from n (reverse_lists kinds first rows (cut offsets.now targets.now))).offsets }
    ensures rd_after { rd.new ≡ sets rd.old 0 (set_at first from n (reverse_lists kinds first rows (cut offsets.now targets.now))).deltas }
    ensures io_after { io.new ≡ sets io.old 0 (set_at first from n (cut (take (2 * rows + 1) offs.old) (take m list.old))).offsets }
    ensures id_after { id.new ≡ sets id.old 0 (set_at first from n (cut (take (2 * rows + 1) offs.old) (take m list.old))).deltas }
{
    let forward = write_set(first, rows, from, n, offsets, targets, fo, fd);
    let inbound = write_table(first, rows, from, n, offs, list, m, io, id);
    let reverse = write_turned(first, rows, from, n, offsets, targets, ro, rd, offs, list);
    Counts {
        forward,
        reverse,
        inbound,
    }
}
