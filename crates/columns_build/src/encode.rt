// `encode_graph_blocks`: the three sets of one granule of a file.
ghost use Rattle.std.specs.Prelude.{length};
ghost use Rattle.columns_encode.specs.Lent.{build_lent, slices_of, Answers};

use columns::depth::Depth;
use columns::refusal::Refusal;
use columns_encode::lent::encode_lent;
use columns_encode::writing::Counts;

// Builds the sets of the n rows from row `from` on: the forward set into `fo` and `fd`, offsets and deltas from the start of each slice on, the
// reverse set into `ro` and `rd`, the inbound set into `io` and `id`. Parents come as slot offsets into targets, unresolved records and inbound
// edges (`ichildren`, `iparents`, `ikinds`) as a column for each part. A refused file leaves all six slices as they were.
pub fn encode_graph_blocks(
    subject: &[u8],
    first: u64,
    rows: usize,
    offsets: &[u64],
    targets: &[u64],
    children: &[u64],
    kinds: &[u64],
    flags: &[u64],
    depth: Depth,
    labelled: bool,
    chains: &[u32],
    seqs: &[u32],
    ichildren: &[u64],
    iparents: &[u64],
    ikinds: &[u64],
    from: usize,
    n: usize,
    fo: &mut [u64],
    fd: &mut [i64],
    ro: &mut [u64],
    rd: &mut [i64],
    io: &mut [u64],
    id: &mut [i64],
) -> Result<Counts, Refusal>
    ensures { Answers (build_lent subject.now first rows offsets.now targets.now children.now kinds.now
        flags.now depth labelled chains.now seqs.now ichildren.now iparents.now ikinds.now from n
        (slices_of (length fo.old) (length fd.old) (length ro.old) (length rd.old) (length io.old)
        (length id.old))) result fo.old fd.old ro.old rd.old io.old id.old fo.new
        fd.new ro.new rd.new io.new id.new }
{
    let mut offs = [0u64; 2049];
    let mut list = [0u64; 4096];
    let mut w = [0u64; 4096];
    encode_lent(
        subject, first, rows, offsets, targets, children, kinds, flags, depth, labelled, chains,
        seqs, ichildren, iparents, ikinds, from, n, fo, fd, ro, rd, io, id, &mut offs, &mut list,
        &mut w,
    )
}
