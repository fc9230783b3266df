// Edge columns: reading, and the questions over them.
ghost use Rattle.std.specs.Prelude.{◌≡◌, [], ◌∷◌, length};
ghost use Rattle.columns.specs.Limits.{kinds, edge_sets};
ghost use Rattle.columns.specs.Reading.{decode_set};
ghost use Rattle.columns.specs.Questions as asked;
ghost use Rattle.columns.specs.Roots.{root_entries};
ghost use Rattle.columns.specs.Answers.{columns_of, label_columns, room, in_one, counted_of, written_over};
ghost use Rattle.columns_read.specs.Granules.{rooms, read_lent, decoded_of, set_in};
ghost use Rattle.columns_ask.specs.Views.{labelled_of};
ghost use Rattle.columns_build.specs.Written.{records, roots_answer, over};
ghost use Rattle.ffi_columns.specs.Numbers.{unnamed, after, head_at, count_of, roots_of, granule_of, label_of};

use crate::numbers::{kind_of, set_of};
use columns::kind::Kinds;
use columns::refusal::Refusal;
use columns_ask::ChainLabel;
use columns_read::{Counts, Head};
use ffi::answer::Answer;
use ffi::given::flag_at;
use ffi::granule::Granule;

// One set of edges: 0 forward, 1 reverse, 2 inbound; another number is 12.
pub fn ridgeoven_read_set(
    set: u64,
    first: u64,
    rows: usize,
    end: u64,
    count: u64,
    offsets: &[u64],
    deltas: &[i64],
    targets: &mut [u64],
) -> Answer
    ensures value { result ≡ count_of (counted_of (after (unnamed edge_sets set)
        (in_one (decode_set kinds set first rows end (columns_of count offsets.now deltas.now) (room (length targets.old)))))) }
    ensures targets_after { targets.new ≡ written_over targets.old
        (after (unnamed edge_sets set) (in_one (decode_set kinds set first rows end (columns_of count offsets.now deltas.now) (room (length targets.old))))) }
{
    let Some(set) = set_of(set) else {
        return Answer::from(Err(Refusal::InboundParent));
    };
    Answer::from(columns_read::sets::decode_csr(
        Kinds::Two,
        set,
        first,
        rows,
        end,
        count,
        offsets,
        deltas,
        targets,
    ))
}

// `Counts` is of another crate, so no `From` impl can stand here.
fn granule_of(decoded: Result<Counts, Refusal>) -> Granule
    ensures { result ≡ granule_of decoded }
{
    match decoded {
        Ok(counts) => Granule {
            refusal: 0,
            forward: counts.forward,
            reverse: counts.reverse,
            inbound: counts.inbound,
        },
        Err(why) => Granule::from(why),
    }
}

// The three sets of a granule, each a count, offsets and deltas, and, where `cover` is not 0, its labels.
pub fn ridgeoven_read_granule(
    first: u64,
    rows: usize,
    end: u64,
    fcount: u64,
    fo: &[u64],
    fd: &[i64],
    rcount: u64,
    ro: &[u64],
    rd: &[i64],
    icount: u64,
    io: &[u64],
    id: &[i64],
    cover: u64,
    chains: &[u64],
    seqs: &[u64],
    forward: &mut [u64],
    reverse: &mut [u64],
    inbound: &mut [u64],
) -> Granule
    ensures value { result ≡ granule_of (decoded_of (read_lent kinds (head_at first rows end fcount rcount icount cover) fo.now fd.now ro.now
        rd.now io.now id.now chains.now seqs.now
        (rooms (length forward.old) (length reverse.old) (length inbound.old)))) }
    ensures forward_after { forward.new ≡ written_over forward.old
        (set_in 0 (read_lent kinds (head_at first rows end fcount rcount icount cover) fo.now fd.now ro.now rd.now
        io.now id.now chains.now seqs.now (rooms (length forward.old) (length reverse.old) (length inbound.old)))) }
    ensures reverse_after { reverse.new ≡ written_over reverse.old
        (set_in 1 (read_lent kinds (head_at first rows end fcount rcount icount cover) fo.now fd.now ro.now rd.now
        io.now id.now chains.now seqs.now (rooms (length forward.old) (length reverse.old) (length inbound.old)))) }
    ensures inbound_after { inbound.new ≡ written_over inbound.old
        (set_in 2 (read_lent kinds (head_at first rows end fcount rcount icount cover) fo.now fd.now ro.now rd.now
        io.now id.now chains.now seqs.now (rooms (length forward.old) (length reverse.old) (length inbound.old)))) }
{
    let head = Head {
        first,
        rows,
        end,
        forward: fcount,
        reverse: rcount,
        inbound: icount,
        cover: flag_at(cover),
    };
    granule_of(columns_read::decode_granule_edges(
        Kinds::Two,
        head,
        fo,
        fd,
        ro,
        rd,
        io,
        id,
        chains,
        seqs,
        forward,
        reverse,
        inbound,
    ))
}

// The parents of a number by a kind: 0 prev, 1 auth; another number is 12, here and below.
pub fn ridgeoven_parents(
    first: u64,
    rows: usize,
    end: u64,
    count: u64,
    offsets: &[u64],
    deltas: &[i64],
    kind: u64,
    number: u64,
    list: &mut [u64],
) -> Answer
    ensures value { result ≡ count_of (counted_of (after (unnamed kinds kind)
        (asked.parents kinds first rows end (columns_of count offsets.now deltas.now) kind number (room (length list.old))))) }
    ensures list_after { list.new ≡ written_over list.old
        (after (unnamed kinds kind) (asked.parents kinds first rows end (columns_of count offsets.now deltas.now) kind number (room (length list.old)))) }
{
    let Some(kind) = kind_of(kind) else {
        return Answer::from(Err(Refusal::InboundParent));
    };
    Answer::from(columns_ask::parents(
        Kinds::Two,
        first,
        rows,
        end,
        count,
        offsets,
        deltas,
        kind,
        number,
        list,
    ))
}

pub fn ridgeoven_children(
    first: u64,
    rows: usize,
    end: u64,
    rcount: u64,
    ro: &[u64],
    rd: &[i64],
    icount: u64,
    io: &[u64],
    id: &[i64],
    kind: u64,
    number: u64,
    list: &mut [u64],
) -> Answer
    ensures value { result ≡ count_of (counted_of (after (unnamed kinds kind)
        (asked.children kinds first rows end (columns_of rcount ro.now rd.now) (columns_of icount io.now id.now) kind number
        (room (length list.old))))) }
    ensures list_after { list.new ≡ written_over list.old
        (after (unnamed kinds kind) (asked.children kinds first rows end (columns_of rcount ro.now rd.now)
        (columns_of icount io.now id.now) kind number (room (length list.old)))) }
{
    let Some(kind) = kind_of(kind) else {
        return Answer::from(Err(Refusal::InboundParent));
    };
    Answer::from(columns_ask::children(
        Kinds::Two,
        first,
        rows,
        end,
        rcount,
        ro,
        rd,
        icount,
        io,
        id,
        kind,
        number,
        list,
    ))
}

// The label of a number, where `found` is 1.
#[repr(C)]
#[derive(Clone, Copy)]
pub struct Label {
    pub refusal: u64,
    pub found: u64,
    pub chain: u32,
    pub seq: u32,
}

impl From<Result<Option<ChainLabel>, Refusal>> for Label {
    ghost from_gives = { λ labelled label. label ≡ label_of labelled };

    fn from(labelled: Result<Option<ChainLabel>, Refusal>) -> Label {
        match labelled {
            Ok(Some(label)) => Label {
                refusal: 0,
                found: 1,
                chain: label.chain,
                seq: label.seq,
            },
            Ok(None) => Label {
                refusal: 0,
                found: 0,
                chain: 0,
                seq: 0,
            },
            Err(why) => Label {
                refusal: why.number(),
                found: 0,
                chain: 0,
                seq: 0,
            },
        }
    }
}

pub fn ridgeoven_label(first: u64, rows: usize, chains: &[u64], seqs: &[u64], number: u64) -> Label
    ensures { result ≡ label_of (labelled_of (asked.label first rows (label_columns chains.now seqs.now) number)) }
{
    Label::from(columns_ask::label(first, rows, chains, seqs, number))
}

// The rows of the events that have a state root.
pub fn ridgeoven_roots(first: u64, rows: usize, events: &[u64], list: &mut [u64]) -> Answer
    ensures value { result ≡ roots_of (roots_answer (root_entries first rows events.now (records list.old ∷ []))) }
    ensures list_after { list.new ≡ over (root_entries first rows events.now (records list.old ∷ [])) list.old }
{
    Answer::from(columns_build::roots::state_root_entries(first, rows, events, list))
}
