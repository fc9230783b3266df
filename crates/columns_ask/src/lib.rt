// Questions over lent columns: parents, children and label of a number. The columns that a question uses are read first.
#![tactic(auto)]

ghost use Rattle.std.specs.Prelude.{◌≡◌, true, ◌+◌, ◌<◌, ◌≤◌, ltb, length};
ghost use Rattle.std.proofs.lemmas.List.Edits.{sets};
ghost use Rattle.lists.specs.Lists.{all};
ghost use Rattle.columns.specs.Limits.{max_numbers, end32, Served};
ghost use Rattle.columns.specs.Refusal.{accepted};
ghost use Rattle.columns.specs.Reading.{slots_of, labels_of};
ghost use Rattle.columns.specs.Questions as asked;
ghost use Rattle.columns.specs.Answers.{kind_of, short32, columns_of, label_columns, room, ruling, counted_of, written_over, width_of};
ghost use Rattle.columns.specs.Readable.{Readable};
ghost use Rattle.columns_slots.specs.Lent.{edges};
ghost use Rattle.columns_ask.specs.Views.{children_rules, asked_rules, lent_label_rules, labelled_of};

use columns::kind::{Kind, Kinds};
use columns::refusal::Refusal;
use columns::set::Set;
use columns_slots::sets;
use columns_slots::sets::Columns;

// An event's place in a chain cover.
#[derive(Clone, Copy)]
pub struct ChainLabel {
    pub chain: u32,
    pub seq: u32,
}

// ── parents and children ──

// How many numbers the list of a number and a kind has, in a set whose rules are kept.
fn list_length(width: usize, first: u64, s: Columns, kind: usize, number: u64) -> usize
    requires served { Served width }
    requires kind_lt_width { kind < width }
    requires readable { Readable width first (edges s) }
    ensures { result ≡ length (asked.list_of width first (slots_of width first (edges s.entry)) kind number) }
{
    if s.count == 0 {
        return 0;
    }
    if number < first {
        return 0;
    }
    let row = number - first;
    if ((s.offsets.len() - 1) / width) as u64 <= row {
        return 0;
    }
    let slot = width * (row as usize) + kind;
    (s.offsets[slot + 1] - s.offsets[slot]) as usize
}

// Writes that list from `at` on, and answers where it ends.
fn write_list(
    width: usize,
    first: u64,
    s: Columns,
    kind: usize,
    number: u64,
    out: &mut [u64],
    at: usize,
) -> usize
    requires served { Served width }
    requires kind_lt_width { (kind < width) × (at ≤ max_numbers) }
    requires readable { Readable width first (edges s) }
    ensures value { result ≡ at + length (asked.list_of width first (slots_of width first (edges s.entry)) kind number) }
    ensures out_after { out.new ≡ sets out.old at (asked.list_of width first (slots_of width first (edges s.entry)) kind number) }
{
    if list_length(width, first, s, kind, number) == 0 {
        return at;
    }
    let slot = width * ((number - first) as usize) + kind;
    sets::write_slot(width, first, s, slot, number, out, at)
}

// The parents of a number by a kind, in the order in which they stand.
pub fn parents(
    kinds: Kinds,
    first: u64,
    rows: usize,
    end: u64,
    count: u64,
    offsets: &[u64],
    deltas: &[i64],
    kind: Kind,
    number: u64,
    out: &mut [u64],
) -> Result<usize, Refusal>
    ensures value { result ≡ counted_of (asked.parents (width_of kinds) first rows end (columns_of count offsets.now deltas.now) (kind_of kind) number
        (room (length out.old))) }
    ensures out_after { out.new ≡ written_over out.old
        (asked.parents (width_of kinds) first rows end (columns_of count offsets.now deltas.now) (kind_of kind) number (room (length out.old))) }
{
    let width = kinds.width();
    let s = Columns {
        count,
        offsets,
        deltas,
    };
    sets::csr_rules(width, Set::Forward, first, rows, end, s, out.len())?;
    Ok(write_list(width, first, s, kind.slot(), number, out, 0))
}

// The limits and the rules of the two sets that children come from, with a slice of length `out` for the answer.
fn children_rules(
    width: usize,
    first: u64,
    rows: usize,
    end: u64,
    reverse: Columns,
    inbound: Columns,
    out: usize,
) -> Result<(), Refusal>
    requires { Served width }
    ensures { result ≡ ruling (children_rules width first rows end (edges reverse.entry) (edges inbound.entry) (room out)) }
{
    let over = sets::is_any_over(
        reverse.offsets.len(),
        reverse.deltas.len(),
        inbound.offsets.len(),
        inbound.deltas.len(),
    );
    sets::limit_rules(rows, over, out < 4096)?;
    sets::both_rules(width, first, rows, end, reverse, inbound)
}

// Whether a number has more children in two sets whose rules are kept than a column holds.
fn are_children_over(
    width: usize,
    first: u64,
    reverse: Columns,
    inbound: Columns,
    kind: usize,
    number: u64,
) -> bool
    requires served { Served width }
    requires kind_lt_width { kind < width }
    requires readable { Readable width first (edges reverse) }
    requires readable_2 { Readable width first (edges inbound) }
    ensures { result ≡ ltb max_numbers (length (asked.children_of width first (edges reverse.entry) (edges inbound.entry) kind number)) }
{
    let n = list_length(width, first, reverse, kind, number);
    let m = list_length(width, first, inbound, kind, number);
    4096 < n + m
}

// Writes the children of a number out of two sets whose rules are kept, those in the file first, and answers how many there are.
fn write_children(
    width: usize,
    first: u64,
    reverse: Columns,
    inbound: Columns,
    kind: usize,
    number: u64,
    out: &mut [u64],
) -> usize
    requires served { Served width }
    requires kind_lt_width { kind < width }
    requires readable { Readable width first (edges reverse) }
    requires readable_2 { Readable width first (edges inbound) }
    ensures value { result ≡ length (asked.children_of width first (edges reverse.entry) (edges inbound.entry) kind number) }
    ensures out_after { out.new ≡ sets out.old 0
        (asked.children_of width first (edges reverse.entry) (edges inbound.entry) kind number) }
{
    let n = write_list(width, first, reverse, kind, number, out, 0);
    write_list(width, first, inbound, kind, number, out, n)
}

// The limits and the rules of the two sets, and whether the number has more children than a column holds.
fn asked_rules(
    width: usize,
    first: u64,
    rows: usize,
    end: u64,
    reverse: Columns,
    inbound: Columns,
    kind: usize,
    number: u64,
    out: usize,
) -> Result<(), Refusal>
    requires served { Served width }
    requires kind_lt_width { kind < width }
    ensures { result ≡ ruling (asked_rules width first rows end (edges reverse.entry) (edges inbound.entry) kind number (room out)) }
{
    children_rules(width, first, rows, end, reverse, inbound, out)?;
    if are_children_over(width, first, reverse, inbound, kind, number) {
        return Err(Refusal::OverNumbers);
    }
    Ok(())
}

// The children of a number by a kind: those in the file, then those past it.
pub fn children(
    kinds: Kinds,
    first: u64,
    rows: usize,
    end: u64,
    rcount: u64,
    roffsets: &[u64],
    rdeltas: &[i64],
    icount: u64,
    ioffsets: &[u64],
    ideltas: &[i64],
    kind: Kind,
    number: u64,
    out: &mut [u64],
) -> Result<usize, Refusal>
    ensures value { result ≡ counted_of (asked.children (width_of kinds) first rows end (columns_of rcount roffsets.now rdeltas.now)
        (columns_of icount ioffsets.now ideltas.now) (kind_of kind) number (room (length out.old))) }
    ensures out_after { out.new ≡ written_over out.old
        (asked.children (width_of kinds) first rows end (columns_of rcount roffsets.now rdeltas.now)
        (columns_of icount ioffsets.now ideltas.now) (kind_of kind) number (room (length out.old))) }
{
    let width = kinds.width();
    let slot = kind.slot();
    let reverse = Columns {
        count: rcount,
        offsets: roffsets,
        deltas: rdeltas,
    };
    let inbound = Columns {
        count: icount,
        offsets: ioffsets,
        deltas: ideltas,
    };
    asked_rules(
        width,
        first,
        rows,
        end,
        reverse,
        inbound,
        slot,
        number,
        out.len(),
    )?;
    Ok(write_children(width, first, reverse, inbound, slot, number, out))
}

// ── labels ──

// The limits and the rules of label columns that are lent by themselves.
fn lent_label_rules(rows: usize, chains: &[u64], seqs: &[u64]) -> Result<(), Refusal>
    ensures { result ≡ ruling (lent_label_rules rows (label_columns chains.now seqs.now)) }
{
    sets::limit_rules(rows, sets::is_over(chains.len(), seqs.len()), false)?;
    sets::label_rules(rows, chains, seqs)
}

// The label of a number in columns whose rules are kept.
fn label_at(
    first: u64,
    chains: &[u64],
    seqs: &[u64],
    number: u64,
) -> Result<Option<ChainLabel>, Refusal>
    requires { (length seqs.now ≡ length chains.now) × ((all short32 chains.now ≡ true) × (all short32 seqs.now ≡ true)) }
    ensures { result ≡ labelled_of (accepted (asked.label_at first (labels_of chains.now seqs.now) number)) }
{
    if number < first {
        return Ok(None);
    }
    let row = number - first;
    if chains.len() as u64 <= row {
        return Ok(None);
    }
    let i = row as usize;
    let chain = chains[i] as u32;
    let seq = seqs[i] as u32;
    Ok(Some(ChainLabel { chain, seq }))
}

// The label of a number.
pub fn label(
    first: u64,
    rows: usize,
    chains: &[u64],
    seqs: &[u64],
    number: u64,
) -> Result<Option<ChainLabel>, Refusal>
    ensures { result ≡ labelled_of (asked.label first rows (label_columns chains.now seqs.now) number) }
{
    lent_label_rules(rows, chains, seqs)?;
    label_at(first, chains, seqs, number)
}
