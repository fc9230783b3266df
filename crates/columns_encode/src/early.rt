// The limits of building (42, 43, 41), then its rules on the file and its records (1 to 10), in order.
ghost use Rattle.std.specs.Prelude.{◌≡◌, [], ◌∷◌, ◌++◌, ◌≤◌, ltb};
ghost use Rattle.lists.specs.Lists.{any};
ghost use Rattle.columns.specs.Limits.{max_numbers};
ghost use Rattle.columns.specs.Refusal.{short};
ghost use Rattle.columns.specs.Reading.{idle_labels};
ghost use Rattle.columns.specs.Answers.{ruling};
ghost use Rattle.columns_rules.specs.records.Recorded.{labels_given, depth_of};
ghost use Rattle.columns_encode.specs.Encoded.{rooms, limit_rules, input_rules, early_rules};

use columns::depth::Depth;
use columns::refusal::Refusal;
use columns_rules::file::file_rules;
use columns_rules::records::groups::record_rules;
use columns_rules::records::parts::longest;
use columns_slots::sets::{is_any_over, is_over};

// Whether one of the columns is too long, by their lengths.
fn are_columns_over(
    offsets: usize,
    targets: usize,
    children: usize,
    parents: usize,
    kinds: usize,
    chains: usize,
    seqs: usize,
) -> bool
    ensures { result ≡ any (ltb max_numbers) (offsets ∷ targets ∷ children ∷ parents ∷ kinds ∷ chains ∷ seqs ∷ []) }
{
    if is_any_over(offsets, targets, children, parents) {
        return true;
    }
    if 4096 < kinds {
        return true;
    }
    is_over(chains, seqs)
}

// Whether one of a set's two slices is too short, by their lengths.
fn is_set_short(offsets: usize, deltas: usize) -> bool
    ensures { result ≡ any short (rooms offsets deltas) }
{
    if offsets < 2049 {
        return true;
    }
    deltas < 4096
}

// The same of three sets.
pub fn are_sets_short(fo: usize, fd: usize, ro: usize, rd: usize, io: usize, id: usize) -> bool
    ensures { result ≡ any short (rooms fo fd ++ (rooms ro rd ++ rooms io id)) }
{
    if is_set_short(fo, fd) {
        return true;
    }
    if is_set_short(ro, rd) {
        return true;
    }
    is_set_short(io, id)
}

// The limits, by how many rows and unresolved records there are, whether a column is too long and whether a lent slice is too short.
fn limit_rules(rows: usize, records: usize, over: bool, tight: bool) -> Result<(), Refusal>
    ensures { result ≡ ruling (limit_rules rows records over tight) }
{
    if 1024 < rows {
        return Err(Refusal::OverRecords);
    }
    if 1024 < records {
        return Err(Refusal::OverRecords);
    }
    if over {
        return Err(Refusal::OverNumbers);
    }
    if tight {
        return Err(Refusal::SliceShort);
    }
    Ok(())
}

// 1 to 10.
fn input_rules(
    subject: &[u8],
    first: u64,
    rows: usize,
    offsets: &[u64],
    targets: &[u64],
    children: &[u64],
    kinds: &[u64],
    flags: &[u64],
    depth: Depth,
    labelled: bool,
    chains: &[u32],
    seqs: &[u32],
) -> Result<(), Refusal>
    requires { rows ≤ 1024 }
    ensures { result ≡ ruling (input_rules subject.now first rows offsets.now targets.now children.now kinds.now
        flags.now (depth_of depth)
        (labels_given labelled chains.now seqs.now)) }
{
    file_rules(subject, first, rows, offsets, targets)?;
    record_rules(
        first, rows, children, kinds, flags, depth, labelled, chains, seqs,
    )
}

// The limits, then 1 to 10. `tight` says whether a slice lent for the answer is too short.
pub fn early_rules(
    subject: &[u8],
    first: u64,
    rows: usize,
    offsets: &[u64],
    targets: &[u64],
    children: &[u64],
    kinds: &[u64],
    flags: &[u64],
    depth: Depth,
    labelled: bool,
    chains: &[u32],
    seqs: &[u32],
    inbound: usize,
    parents: usize,
    ikinds: usize,
    tight: bool,
) -> Result<(), Refusal>
    ensures { result ≡ ruling (early_rules (idle_labels labelled chains.now seqs.now) subject.now first rows offsets.now
        targets.now children.now kinds.now flags.now (depth_of depth)
        (labels_given labelled chains.now seqs.now) inbound parents ikinds tight) }
{
    let over = are_columns_over(
        offsets.len(),
        targets.len(),
        inbound,
        parents,
        ikinds,
        chains.len(),
        seqs.len(),
    );
    limit_rules(rows, longest(children, kinds, flags), over, tight)?;
    input_rules(
        subject, first, rows, offsets, targets, children, kinds, flags, depth, labelled, chains,
        seqs,
    )
}
