// Whether a record of references can be written. Its rules are those of rows; they are asked of the columns that the references stand in.
ghost use Rattle.std.specs.Prelude.{◌≡◌, true, [], ◌∷◌, ◌+◌, ◌≤◌, ltb, length, drop};
ghost use Rattle.lists.specs.Lists.{all, any};
ghost use Rattle.lists.specs.Order.{climbs_to};
ghost use Rattle.columns.specs.Answers.{ruling};
ghost use Rattle.columns.specs.EdgeSet.{from_to, cut};
ghost use Rattle.columns.specs.Limits.{max_records};
ghost use Rattle.archive_store.specs.records.Sizes.{references_size};
ghost use Rattle.archive_write.specs.ByColumns.{up_to, times_in, once_at_most, columns_ok};
ghost use Rattle.archive_write.specs.Writes.{citing_rows, whole_references, references_rules};

use crate::rules::{NUMBERS, RECORDS, is_over, low, same_three};
use archive_store::references::references_size;
use arrays::index;
use columns::refusal::Refusal;

// ── offsets ──

// How many rows so many offsets are of.
fn rows_of(offsets: usize) -> usize
    ensures { result ≡ citing_rows offsets }
{
    if offsets == 0 {
        return 0;
    }
    offsets - 1
}

fn rows_over(offsets: usize) -> bool
    ensures { result ≡ any (ltb max_records) (citing_rows offsets ∷ []) }
{
    is_over(&[rows_of(offsets)], RECORDS)
}

// Whether the offsets after the first rise or stay level from 0, and end at `high`.
fn climbs(offsets: &[u64], high: u64) -> bool
    ensures { result ≡ climbs_to high 0 (drop 1 offsets.now) }
{
    let mut low = 0;
    for i in 1..offsets.len() {
        let next = offsets[i];
        if next < low {
            return false;
        }
        low = next;
    }
    low == high
}

// Whether offsets rise or stay level from 0 to n.
fn is_cut(offsets: &[u64], n: usize) -> bool
    ensures { result ≡ from_to 0 n offsets.now }
{
    if offsets.len() == 0 {
        return false;
    }
    if offsets[0] != 0 {
        return false;
    }
    climbs(offsets, n as u64)
}

// ── columns ──

// Whether no number of a column is above the greatest that there is.
fn is_up_to(column: &[u8], greatest: u8) -> bool
    ensures { result ≡ up_to greatest column.now }
{
    column.iter().all(|&x| x <= greatest)
}

// How many of a row's references are of one kind.
fn count_kind(row: &[u8], kind: u8) -> usize
    ensures { result ≡ times_in kind row.now }
{
    row.iter().filter(|&&k| k == kind).count()
}

// Whether no row has two references of one kind.
fn is_once(offsets: &[u64], kinds: &[u8], kind: u8) -> bool
    requires { from_to 0 (length kinds.now) offsets.now ≡ true }
    ensures { result ≡ all (once_at_most kind) (cut offsets.now kinds.now) }
{
    for i in 0..rows_of(offsets.len()) {
        let from = index(offsets[i]);
        let to = index(offsets[i + 1]);
        if 1 < count_kind(&kinds[from..to], kind) {
            return false;
        }
    }
    true
}

fn columns_ok(offsets: &[u64], kinds: &[u8], spaces: &[u8]) -> bool
    requires { from_to 0 (length kinds.now) offsets.now ≡ true }
    ensures { result ≡ columns_ok offsets.now kinds.now spaces.now }
{
    if !is_up_to(kinds, 5) {
        return false;
    }
    if !is_up_to(spaces, 3) {
        return false;
    }
    if !is_once(offsets, kinds, 3) {
        return false;
    }
    is_once(offsets, kinds, 5)
}

// ── the record ──

fn whole_references(offsets: &[u64], kinds: &[u8], spaces: &[u8], targets: &[u64]) -> bool
    ensures { result ≡ whole_references offsets.now kinds.now spaces.now targets.now }
{
    if !same_three(kinds.len(), spaces.len(), targets.len()) {
        return false;
    }
    if !is_cut(offsets, kinds.len()) {
        return false;
    }
    if kinds.len() == 0 {
        return false;
    }
    columns_ok(offsets, kinds, spaces)
}

// Whether fewer bytes are left than the record of so many offsets and references has.
fn low_references(offsets: usize, references: usize, len: usize, at: usize) -> bool
    requires { (offsets ≤ 1025) × (references ≤ 4096) }
    ensures { result ≡ ltb len (at + references_size (citing_rows offsets) references) }
{
    let n = references_size(rows_of(offsets), references);
    low(len, at, n)
}

pub fn references_rules(
    offsets: &[u64],
    kinds: &[u8],
    spaces: &[u8],
    targets: &[u64],
    len: usize,
    at: usize,
) -> Result<(), Refusal>
    ensures { result ≡ ruling (references_rules offsets.now kinds.now spaces.now targets.now len at) }
{
    if rows_over(offsets.len()) {
        return Err(Refusal::OverRecords);
    }
    if is_over(&[kinds.len(), spaces.len(), targets.len()], NUMBERS) {
        return Err(Refusal::OverNumbers);
    }
    if !whole_references(offsets, kinds, spaces, targets) {
        return Err(Refusal::RecordBroken);
    }
    if low_references(offsets.len(), kinds.len(), len, at) {
        return Err(Refusal::SliceShort);
    }
    Ok(())
}
