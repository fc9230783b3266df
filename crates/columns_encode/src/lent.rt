// Building in work space that is lent: limits and rules, then the three sets.
ghost use Rattle.std.specs.Prelude.{◌≤◌, length};
ghost use Rattle.columns_encode.specs.Lent.{build_lent, slices_of, Answers};

use crate::early::{are_sets_short, early_rules};
use crate::kept::encode_kept;
use crate::writing::Counts;
use columns::depth::Depth;
use columns::refusal::Refusal;

// Builds the sets of the n rows from row `from` on: the forward set into `fo` and `fd`, offsets and deltas from the start of each slice on, the
// reverse set into `ro` and `rd`, the inbound set into `io` and `id`. Parents come as slot offsets into targets, unresolved records and inbound
// edges (`ichildren`, `iparents`, `ikinds`) as a column for each part. A refused file leaves all six slices as they were.
// `offs`, `list` and `w` are work space: what they hold does not matter.
pub fn encode_lent(
    subject: &[u8],
    first: u64,
    rows: usize,
    offsets: &[u64],
    targets: &[u64],
    children: &[u64],
    kinds: &[u64],
    flags: &[u64],
    depth: Depth,
    labelled: bool,
    chains: &[u32],
    seqs: &[u32],
    ichildren: &[u64],
    iparents: &[u64],
    ikinds: &[u64],
    from: usize,
    n: usize,
    fo: &mut [u64],
    fd: &mut [i64],
    ro: &mut [u64],
    rd: &mut [i64],
    io: &mut [u64],
    id: &mut [i64],
    offs: &mut [u64],
    list: &mut [u64],
    w: &mut [u64],
) -> Result<Counts, Refusal>
    requires { (2049 ≤ length offs.old) × ((4096 ≤ length list.old) × (4096 ≤ length w.old)) }
    ensures { Answers (build_lent subject.now first rows offsets.now targets.now children.now kinds.now
        flags.now depth labelled chains.now seqs.now ichildren.now iparents.now ikinds.now from n
        (slices_of (length fo.old) (length fd.old) (length ro.old) (length rd.old) (length io.old)
        (length id.old))) result fo.old fd.old ro.old rd.old io.old id.old fo.new
        fd.new ro.new rd.new io.new id.new }
{
    let tight = are_sets_short(fo.len(), fd.len(), ro.len(), rd.len(), io.len(), id.len());
    early_rules(
        subject,
        first,
        rows,
        offsets,
        targets,
        children,
        kinds,
        flags,
        depth,
        labelled,
        chains,
        seqs,
        ichildren.len(),
        iparents.len(),
        ikinds.len(),
        tight,
    )?;
    encode_kept(
        first, rows, offsets, targets, ichildren, iparents, ikinds, from, n, fo, fd, ro, rd, io,
        id, offs, list, w,
    )
}
