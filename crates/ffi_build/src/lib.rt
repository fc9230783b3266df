// Building the three sets of a granule, for programs in C or Rust, answered by numbers.
#![tactic(auto)]

ghost use Rattle.std.specs.Prelude.{◌≡◌, length};
ghost use Rattle.columns_encode.specs.Answered.{encoded_of, offsets_laid, deltas_laid};
ghost use Rattle.columns_encode.specs.Lent.{build_lent, slices_of};
ghost use Rattle.ffi.specs.Numbers.{flag_at};
ghost use Rattle.ffi_build.specs.Numbers.{depth_at, built_of};

use columns::depth::Depth;
use columns::refusal::Refusal;
use columns_build::encode::encode_graph_blocks;
use columns_encode::writing::Counts;
use ffi::given::flag_at;
use ffi::granule::Granule;

// `Counts` is of another crate, so no `From` impl can stand here.
fn built_of(encoded: Result<Counts, Refusal>) -> Granule
    ensures { result ≡ built_of encoded }
{
    match encoded {
        Ok(counts) => Granule {
            refusal: 0,
            forward: counts.forward,
            reverse: counts.reverse,
            inbound: counts.inbound,
        },
        Err(why) => Granule::from(why),
    }
}

// A depth, where `deep` is not 0.
fn depth_at(deep: u64, low: u64, high: u64) -> Depth
    ensures { result ≡ depth_at deep low high }
{
    if flag_at(deep) {
        return Depth::Between(low, high);
    }
    Depth::Unknown
}

// The sets of `n` rows from row `from` on: offsets and deltas of each. Labels are read where `labelled` is not 0.
pub fn ridgeoven_build(
    subject: &[u8],
    first: u64,
    rows: usize,
    offsets: &[u64],
    targets: &[u64],
    children: &[u64],
    kinds: &[u64],
    flags: &[u64],
    deep: u64,
    low: u64,
    high: u64,
    labelled: u64,
    chains: &[u32],
    seqs: &[u32],
    ichildren: &[u64],
    iparents: &[u64],
    ikinds: &[u64],
    from: usize,
    n: usize,
    fo: &mut [u64],
    fd: &mut [i64],
    ro: &mut [u64],
    rd: &mut [i64],
    io: &mut [u64],
    id: &mut [i64],
) -> Granule
    ensures value { result ≡ built_of (encoded_of (build_lent subject.now first rows offsets.now targets.now children.now
        kinds.now flags.now (depth_at deep low high) (flag_at labelled) chains.now seqs.now ichildren.now
        iparents.now ikinds.now from n (slices_of (length fo.old) (length fd.old) (length ro.old)
        (length rd.old) (length io.old) (length id.old)))) }
    ensures fo_after { fo.new ≡ offsets_laid 0 (build_lent subject.now first rows offsets.now targets.now children.now
        kinds.now flags.now (depth_at deep low high) (flag_at labelled) chains.now seqs.now ichildren.now
        iparents.now ikinds.now from n (slices_of (length fo.old) (length fd.old) (length ro.old)
        (length rd.old) (length io.old) (length id.old))) fo.old }
    ensures fd_after { fd.new ≡ deltas_laid 0 (build_lent subject.now first rows offsets.now targets.now children.now
        kinds.now flags.now (depth_at deep low high) (flag_at labelled) chains.now seqs.now ichildren.now
        iparents.now ikinds.now from n (slices_of (length fo.old) (length fd.old) (length ro.old)
        (length rd.old) (length io.old) (length id.old))) fd.old }
    ensures ro_after { ro.new ≡ offsets_laid 1 (build_lent subject.now first rows offsets.now targets.now children.now
        kinds.now flags.now (depth_at deep low high) (flag_at labelled) chains.now seqs.now ichildren.now
        iparents.now ikinds.now from n (slices_of (length fo.old) (length fd.old) (length ro.old)
        (length rd.old) (length io.old) (length id.old))) ro.old }
    ensures rd_after { rd.new ≡ deltas_laid 1 (build_lent subject.now first rows offsets.now targets.now children.now
        kinds.now flags.now (depth_at deep low high) (flag_at labelled) chains.now seqs.now ichildren.now
        iparents.now ikinds.now from n (slices_of (length fo.old) (length fd.old) (length ro.old)
        (length rd.old) (length io.old) (length id.old))) rd.old }
    ensures io_after { io.new ≡ offsets_laid 2 (build_lent subject.now first rows offsets.now targets.now children.now
        kinds.now flags.now (depth_at deep low high) (flag_at labelled) chains.now seqs.now ichildren.now
        iparents.now ikinds.now from n (slices_of (length fo.old) (length fd.old) (length ro.old)
        (length rd.old) (length io.old) (length id.old))) io.old }
    ensures id_after { id.new ≡ deltas_laid 2 (build_lent subject.now first rows offsets.now targets.now children.now
        kinds.now flags.now (depth_at deep low high) (flag_at labelled) chains.now seqs.now ichildren.now
        iparents.now ikinds.now from n (slices_of (length fo.old) (length fd.old) (length ro.old)
        (length rd.old) (length io.old) (length id.old))) id.old }
{
    built_of(encode_graph_blocks(
        subject,
        first,
        rows,
        offsets,
        targets,
        children,
        kinds,
        flags,
        depth_at(deep, low, high),
        flag_at(labelled),
        chains,
        seqs,
        ichildren,
        iparents,
        ikinds,
        from,
        n,
        fo,
        fd,
        ro,
        rd,
        io,
        id,
    ))
}
