// Building's rules on records in parallel columns: unresolved records (6, 7) and inbound edges (11, 12). A part that a shorter column does not have passes no test.
ghost use Rattle.std.specs.Prelude.{◌≡◌, ◌+◌, leb, ltb, eqb};
ghost use Rattle.std.proofs.Math.ListN.{get_elem?};
ghost use Rattle.columns.specs.Limits.{kinds, kinds as run_kinds};
ghost use Rattle.columns.specs.Building.{has, in_file, greater, record_count, unresolved_rules, inbound_rules};
ghost use Rattle.columns.specs.Answers.{ruling};
ghost use Rattle.columns_rules.specs.records.Recorded.{unresolved_from, inbound_from};

use columns::refusal::Refusal;

// Whether a number is one of the rows from `first` on.
pub fn is_in_file(first: u64, rows: usize, number: u64) -> bool
    ensures { result ≡ in_file first (first + rows) number }
{
    if number < first {
        return false;
    }
    number - first < rows as u64
}

// Whether there is a number at i, and it is one of the file.
fn in_file_at(first: u64, rows: usize, list: &[u64], i: usize) -> bool
    ensures { result ≡ has (in_file first (first + rows)) (get_elem? list.now i) }
{
    if i < list.len() {
        return is_in_file(first, rows, list[i]);
    }
    false
}

// Whether there is a number at i, and it is at or past the file's end.
fn past_file_at(first: u64, rows: usize, list: &[u64], i: usize) -> bool
    ensures { result ≡ has (leb (first + rows)) (get_elem? list.now i) }
{
    if i < list.len() {
        let x = list[i];
        if x < first {
            return false;
        }
        return rows as u64 <= x - first;
    }
    false
}

// Whether there is a number at i, and it is a kind.
fn kind_at(list: &[u64], i: usize) -> bool
    ensures { result ≡ has (λ k. ltb k kinds) (get_elem? list.now i) }
{
    if i < list.len() {
        return list[i] < 2;
    }
    false
}

// Whether there is a number at i, and it is 0.
fn zero_at(list: &[u64], i: usize) -> bool
    ensures { result ≡ has (eqb 0) (get_elem? list.now i) }
{
    if i < list.len() {
        return list[i] == 0;
    }
    false
}

// The greater of two numbers.
fn larger(a: usize, b: usize) -> usize
    ensures { result ≡ greater a b }
{
    if a < b {
        return b;
    }
    a
}

// Records are as many as the longest of their columns has entries.
pub fn longest(a: &[u64], b: &[u64], c: &[u64]) -> usize
    ensures { result ≡ record_count a.now b.now c.now }
{
    let n = larger(b.len(), c.len());
    larger(a.len(), n)
}

// The unresolved record at i.
fn unresolved_rule(
    first: u64,
    rows: usize,
    children: &[u64],
    kinds: &[u64],
    flags: &[u64],
    i: usize,
) -> Result<(), Refusal>
    ensures { result ≡ ruling (unresolved_rules first (first + rows) (get_elem? children.now i) (get_elem? kinds.now i) (get_elem? flags.now i)) }
{
    if !in_file_at(first, rows, children, i) {
        return Err(Refusal::UnresolvedChild);
    }
    if !kind_at(kinds, i) {
        return Err(Refusal::UnresolvedKind);
    }
    if !zero_at(flags, i) {
        return Err(Refusal::UnresolvedKind);
    }
    Ok(())
}

// Record by record.
pub fn unresolved_rules(
    first: u64,
    rows: usize,
    children: &[u64],
    kinds: &[u64],
    flags: &[u64],
) -> Result<(), Refusal>
    ensures { result ≡ ruling (unresolved_from first (first + rows) children.now kinds.now flags.now 0
        (record_count children.now kinds.now flags.now)) }
{
    let n = longest(children, kinds, flags);
    for i in 0..n {
        unresolved_rule(first, rows, children, kinds, flags, i)?;
    }
    Ok(())
}

// The inbound edge at i.
fn inbound_rule(
    first: u64,
    rows: usize,
    children: &[u64],
    parents: &[u64],
    kinds: &[u64],
    i: usize,
) -> Result<(), Refusal>
    ensures { result ≡ ruling (inbound_rules run_kinds first (first + rows) (get_elem? children.now i) (get_elem? parents.now i) (get_elem? kinds.now i)) }
{
    if !past_file_at(first, rows, children, i) {
        return Err(Refusal::InboundChild);
    }
    if !in_file_at(first, rows, parents, i) {
        return Err(Refusal::InboundParent);
    }
    if !kind_at(kinds, i) {
        return Err(Refusal::InboundParent);
    }
    Ok(())
}

// Edge by edge.
pub fn inbound_rules(
    first: u64,
    rows: usize,
    children: &[u64],
    parents: &[u64],
    kinds: &[u64],
) -> Result<(), Refusal>
    ensures { result ≡ ruling (inbound_from first (first + rows) children.now parents.now kinds.now 0
        (record_count children.now parents.now kinds.now)) }
{
    let n = longest(children, parents, kinds);
    for i in 0..n {
        inbound_rule(first, rows, children, parents, kinds, i)?;
    }
    Ok(())
}
