// Reading a granule: its three sets of edges and, where there is a cover, its label columns, in one call.
#![tactic(auto)]

pub mod sets;

ghost use Rattle.std.specs.Prelude.{◌≡◌, [], ◌∷◌, ltb, length};
ghost use Rattle.std.proofs.lemmas.List.Edits.{sets};
ghost use Rattle.lists.specs.Lists.{any, joined};
ghost use Rattle.columns.specs.Limits.{max_numbers, Served};
ghost use Rattle.columns.specs.Refusal.{short};
ghost use Rattle.columns.specs.Reading.{slots_of, cover_rules, granule_rules};
ghost use Rattle.columns.specs.Answers.{columns_of, ruling, written_over, width_of};
ghost use Rattle.columns_read.specs.Granules.{cover_of, granule_columns, rooms, sets_rules, lent_granule_rules, read_lent, counts_of, decoded_of, set_in};
ghost use Rattle.columns.specs.Readable.{Readable};
ghost use Rattle.columns_slots.specs.Lent.{edges};

use columns::kind::Kinds;
use columns::refusal::Refusal;
use columns::set::Set;
use columns_slots::sets::{Columns, both_rules};

// What a granule is lent with besides its columns: its first number, its rows, the number past its file's last one, the edge count of each
// set, and whether there is a cover.
#[derive(Clone, Copy)]
pub struct Head {
    pub first: u64,
    pub rows: usize,
    pub end: u64,
    pub forward: u64,
    pub reverse: u64,
    pub inbound: u64,
    pub cover: bool,
}

// How many targets each set of a granule has.
#[derive(Clone, Copy)]
pub struct Counts {
    pub forward: usize,
    pub reverse: usize,
    pub inbound: usize,
}

// ── limits ──

// Whether one of a granule's columns is too long, by their lengths.
fn is_granule_over(
    fo: usize,
    fd: usize,
    ro: usize,
    rd: usize,
    io: usize,
    id: usize,
    chains: usize,
    seqs: usize,
) -> bool
    ensures { result ≡ any (ltb max_numbers) (fo ∷ fd ∷ ro ∷ rd ∷ io ∷ id ∷ chains ∷ seqs ∷ []) }
{
    if columns_slots::sets::is_any_over(fo, fd, ro, rd) {
        return true;
    }
    columns_slots::sets::is_any_over(io, id, chains, seqs)
}

// Whether one of the three slices is too short, by their lengths.
fn is_any_short(f: usize, r: usize, i: usize) -> bool
    ensures { result ≡ any short (rooms f r i) }
{
    if f < 4096 {
        return true;
    }
    if r < 4096 {
        return true;
    }
    i < 4096
}

// ── rules ──

// The rules of the label columns, where there is a cover.
fn cover_rules(rows: usize, cover: bool, chains: &[u64], seqs: &[u64]) -> Result<(), Refusal>
    ensures { result ≡ ruling (cover_rules rows (cover_of cover chains.now seqs.now)) }
{
    if cover {
        return columns_slots::sets::label_rules(rows, chains, seqs);
    }
    Ok(())
}

// The rules of the three sets.
fn sets_rules(
    width: usize,
    head: Head,
    forward: Columns,
    reverse: Columns,
    inbound: Columns,
) -> Result<(), Refusal>
    requires { Served width }
    ensures { result ≡ ruling (sets_rules width head (edges forward.entry) (edges reverse.entry) (edges inbound.entry)) }
{
    let first = head.first;
    let rows = head.rows;
    let end = head.end;
    forward.rules(width, Set::Forward, first, rows, end)?;
    both_rules(width, first, rows, end, reverse, inbound)
}

// The rules of the three sets, then those of the labels.
fn edge_rules(
    width: usize,
    head: Head,
    forward: Columns,
    reverse: Columns,
    inbound: Columns,
    chains: &[u64],
    seqs: &[u64],
) -> Result<(), Refusal>
    requires { Served width }
    ensures { result ≡ ruling (granule_rules width head.first head.rows head.end
        (granule_columns head (edges forward.entry) (edges reverse.entry) (edges inbound.entry) chains.now seqs.now)) }
{
    sets_rules(width, head, forward, reverse, inbound)?;
    cover_rules(head.rows, head.cover, chains, seqs)
}

// The limits, by whether one of the three slices is too short, and the rules of a granule.
fn granule_rules(
    width: usize,
    head: Head,
    forward: Columns,
    reverse: Columns,
    inbound: Columns,
    chains: &[u64],
    seqs: &[u64],
    tight: bool,
) -> Result<(), Refusal>
    requires { Served width }
    ensures { result ≡ ruling (lent_granule_rules width head (edges forward.entry) (edges reverse.entry) (edges inbound.entry)
        chains.now seqs.now tight) }
{
    let over = is_granule_over(
        forward.offsets.len(),
        forward.deltas.len(),
        reverse.offsets.len(),
        reverse.deltas.len(),
        inbound.offsets.len(),
        inbound.deltas.len(),
        chains.len(),
        seqs.len(),
    );
    columns_slots::sets::limit_rules(head.rows, over, tight)?;
    edge_rules(width, head, forward, reverse, inbound, chains, seqs)
}

// ── targets ──

// Writes the targets of three sets whose rules are kept.
fn write_granule(
    width: usize,
    head: Head,
    f: Columns,
    r: Columns,
    i: Columns,
    forward: &mut [u64],
    reverse: &mut [u64],
    inbound: &mut [u64],
) -> Counts
    requires served { Served width }
    requires readable { Readable width head.first (edges f) }
    requires readable_2 { Readable width head.first (edges r) }
    requires readable_3 { Readable width head.first (edges i) }
    ensures value { result ≡ counts_of (slots_of width head.first (edges f.entry))
        (slots_of width head.first (edges r.entry)) (slots_of width head.first (edges i.entry)) }
    ensures forward_after { forward.new ≡ sets forward.old 0 (joined (slots_of width head.first (edges f.entry))) }
    ensures reverse_after { reverse.new ≡ sets reverse.old 0 (joined (slots_of width head.first (edges r.entry))) }
    ensures inbound_after { inbound.new ≡ sets inbound.old 0 (joined (slots_of width head.first (edges i.entry))) }
{
    let nf = f.write(width, head.first, forward);
    let nr = r.write(width, head.first, reverse);
    let ni = i.write(width, head.first, inbound);
    Counts {
        forward: nf,
        reverse: nr,
        inbound: ni,
    }
}

// Reads a granule: the targets of each set into a slice of its own, slot after slot. A refused granule leaves all three as they were.
// `fo` and `fd` are the offsets and deltas of the forward set, `ro` and `rd` those of the reverse set, `io` and `id` those of the inbound set.
pub fn decode_granule_edges(
    kinds: Kinds,
    head: Head,
    fo: &[u64],
    fd: &[i64],
    ro: &[u64],
    rd: &[i64],
    io: &[u64],
    id: &[i64],
    chains: &[u64],
    seqs: &[u64],
    forward: &mut [u64],
    reverse: &mut [u64],
    inbound: &mut [u64],
) -> Result<Counts, Refusal>
    ensures value { result ≡ decoded_of (read_lent (width_of kinds) head fo.now fd.now ro.now rd.now io.now
        id.now chains.now seqs.now (rooms (length forward.old) (length reverse.old) (length inbound.old))) }
    ensures forward_after { forward.new ≡ written_over forward.old
        (set_in 0 (read_lent (width_of kinds) head fo.now fd.now ro.now rd.now io.now id.now
        chains.now seqs.now (rooms (length forward.old) (length reverse.old) (length inbound.old)))) }
    ensures reverse_after { reverse.new ≡ written_over reverse.old
        (set_in 1 (read_lent (width_of kinds) head fo.now fd.now ro.now rd.now io.now id.now
        chains.now seqs.now (rooms (length forward.old) (length reverse.old) (length inbound.old)))) }
    ensures inbound_after { inbound.new ≡ written_over inbound.old
        (set_in 2 (read_lent (width_of kinds) head fo.now fd.now ro.now rd.now io.now id.now
        chains.now seqs.now (rooms (length forward.old) (length reverse.old) (length inbound.old)))) }
{
    let width = kinds.width();
    let tight = is_any_short(forward.len(), reverse.len(), inbound.len());
    let f = Columns {
        count: head.forward,
        offsets: fo,
        deltas: fd,
    };
    let r = Columns {
        count: head.reverse,
        offsets: ro,
        deltas: rd,
    };
    let i = Columns {
        count: head.inbound,
        offsets: io,
        deltas: id,
    };
    granule_rules(width, head, f, r, i, chains, seqs, tight)?;
    Ok(write_granule(width, head, f, r, i, forward, reverse, inbound))
}
