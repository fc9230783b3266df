// What `resolve_graph` refuses: the limits (42, 43, 41), then 2 and 3, in order.
ghost use Rattle.std.specs.Prelude.{◌≡◌, ◌&&◌, [], ◌∷◌, ◌+◌, ltb, eqb, length, drop};
ghost use Rattle.lists.specs.Lists.{any};
ghost use Rattle.lists.specs.Order.{climbs_to};
ghost use Rattle.columns.specs.Limits.{max_numbers};
ghost use Rattle.columns.specs.Refusal.{short};
ghost use Rattle.columns.specs.EdgeSet.{from_to};
ghost use Rattle.columns.specs.Building.{numbers_ok};
ghost use Rattle.columns.specs.Answers.{ruling};
ghost use Rattle.columns_refs.specs.References.{input_rules, resolve_rules};
ghost use Rattle.columns_refs.specs.Lent.{referred_lent};
ghost use Rattle.columns_refs.specs.Resolved.{referred, slices_of, limit_rules};

use crate::refs::{Lent, count_unresolved};
use columns::refusal::Refusal;
use columns_slots::sets::{is_any_over, is_over};

// ── 42, 43, 41 ──

// Whether one of the columns is too long, by their lengths.
fn are_over(
    starts: usize,
    kinds: usize,
    spaces: usize,
    targets: usize,
    known: usize,
    numbers: usize,
) -> bool
    ensures { result ≡ any (ltb max_numbers) (starts ∷ kinds ∷ spaces ∷ targets ∷ known ∷ numbers ∷ []) }
{
    if is_any_over(starts, kinds, spaces, targets) {
        return true;
    }
    is_over(known, numbers)
}

// Whether one of the slices is too short, by their lengths.
fn are_short(offsets: usize, parents: usize, children: usize, ukinds: usize, handles: usize) -> bool
    ensures { result ≡ any short (slices_of offsets parents children ukinds handles) }
{
    if offsets < 2049 {
        return true;
    }
    if parents < 4096 {
        return true;
    }
    if children < 1024 {
        return true;
    }
    if ukinds < 1024 {
        return true;
    }
    handles < 1024
}

// The limits, by how many rows and unresolved records there are, whether a column is too long and whether a lent slice is too short.
fn limit_rules(rows: usize, records: usize, over: bool, tight: bool) -> Result<(), Refusal>
    ensures { result ≡ ruling (limit_rules rows records over tight) }
{
    if 1024 < rows {
        return Err(Refusal::OverRecords);
    }
    if 1024 < records {
        return Err(Refusal::OverRecords);
    }
    if over {
        return Err(Refusal::OverNumbers);
    }
    if tight {
        return Err(Refusal::SliceShort);
    }
    Ok(())
}

// ── 2, 3 ──

// Whether the offsets after the first rise or stay level from 0, and end at `high`.
fn climbs(high: u64, starts: &[u64]) -> bool
    ensures { result ≡ climbs_to high 0 (drop 1 starts.now) }
{
    let mut low = 0;
    for i in 1..starts.len() {
        let next = starts[i];
        if next < low {
            return false;
        }
        low = next;
    }
    low == high
}

// Whether there is an offset for each row and one more, rising or level from 0 to the number of references.
fn are_rows(rows: usize, count: usize, starts: &[u64]) -> bool
    ensures { result ≡ (eqb (length starts.now) (rows + 1) && from_to 0 count starts.now) }
{
    if starts.len() == 0 {
        return false;
    }
    if starts.len() - 1 != rows {
        return false;
    }
    if starts[0] != 0 {
        return false;
    }
    climbs(count as u64, starts)
}

// Whether five columns have one length.
fn are_even(kinds: usize, spaces: usize, targets: usize, known: usize, numbers: usize) -> bool
    ensures { result ≡ (eqb spaces kinds && (eqb targets kinds && (eqb known kinds && eqb numbers kinds))) }
{
    if spaces != kinds {
        return false;
    }
    if targets != kinds {
        return false;
    }
    if known != kinds {
        return false;
    }
    numbers == kinds
}

// Whether the file's numbers, and the one past them, have 64 bits.
fn numbers_fit(first: u64, rows: usize) -> bool
    ensures { result ≡ numbers_ok first rows }
{
    first <= 18446744073709551615 - (rows as u64)
}

// 2, then 3.
fn input_rules(first: u64, rows: usize, starts: &[u64], lent: Lent) -> Result<(), Refusal>
    ensures { result ≡ ruling (input_rules (referred_lent first rows starts.now lent.entry)) }
{
    if !are_even(
        lent.kinds.len(),
        lent.spaces.len(),
        lent.targets.len(),
        lent.known.len(),
        lent.numbers.len(),
    ) {
        return Err(Refusal::EdgeEntries);
    }
    if !are_rows(rows, lent.kinds.len(), starts) {
        return Err(Refusal::EdgeEntries);
    }
    if !numbers_fit(first, rows) {
        return Err(Refusal::NumberRange);
    }
    Ok(())
}

// ── in order ──

// 42, 43, 41, then 2 and 3. The last five are the lengths of the slices lent for what is made.
pub(crate) fn resolve_rules(
    first: u64,
    rows: usize,
    starts: &[u64],
    lent: Lent,
    offsets: usize,
    parents: usize,
    children: usize,
    ukinds: usize,
    handles: usize,
) -> Result<(), Refusal>
    ensures { result ≡ ruling (resolve_rules (referred_lent first rows starts.now lent.entry) (slices_of offsets parents children ukinds handles)) }
{
    let records = count_unresolved(lent);
    let over = are_over(
        starts.len(),
        lent.kinds.len(),
        lent.spaces.len(),
        lent.targets.len(),
        lent.known.len(),
        lent.numbers.len(),
    );
    let tight = are_short(offsets, parents, children, ukinds, handles);
    limit_rules(rows, records, over, tight)?;
    input_rules(first, rows, starts, lent)
}
