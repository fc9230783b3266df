// Whether a record can be written: 42 and 43 of its columns, then what would break it, and last whether there is room for it from a place on.
ghost use Rattle.std.specs.Prelude.{◌≡◌, false, [], ◌∷◌, ◌+◌, ◌≤◌, ltb, eqb};
ghost use Rattle.lists.specs.Lists.{any};
ghost use Rattle.columns.specs.Answers.{ruling};
ghost use Rattle.columns.specs.Limits.{max_records, max_numbers};
ghost use Rattle.archive_store.specs.records.Sizes.{head_size, sets_size, rows_size, unresolved_size, roots_size, cover_body};
ghost use Rattle.archive_write.specs.Writes.{even3, even_cover, subject_fits, whole_sets, whole_unresolved, whole_roots, head_rules, edges_rules, rows_rules, unresolved_rules, roots_rules, cover_rules};

use archive_store::order::{is_level, rises};
use archive_store::records::{cover_body, sets_size};
use columns::refusal::Refusal;

// The most records, and the most numbers, that one column may have.
pub const RECORDS: usize = 1024;

pub const NUMBERS: usize = 4096;

// Whether fewer than n bytes are left from `at` on.
pub fn low(len: usize, at: usize, n: usize) -> bool
    ensures { result ≡ ltb len (at + n) }
{
    if len < at {
        return true;
    }
    len - at < n
}

// Whether one of the counts is above the greatest that there may be.
pub fn is_over(counts: &[usize], most: usize) -> bool
    ensures { result ≡ any (ltb most) counts.now }
{
    counts.iter().any(|&n| most < n)
}

fn subject_fits(n: usize) -> bool
    ensures { result ≡ subject_fits n }
{
    if n == 0 {
        return false;
    }
    n <= 255
}

pub fn same_three(a: usize, b: usize, c: usize) -> bool
    ensures { result ≡ even3 a b c }
{
    if b != a {
        return false;
    }
    c == a
}

fn same_cover(
    chains: usize,
    seqs: usize,
    ids: usize,
    minima: usize,
    maxima: usize,
    a: usize,
    b: usize,
    c: usize,
    d: usize,
) -> bool
    ensures { result ≡ even_cover chains seqs ids minima maxima a b c d }
{
    if seqs != chains {
        return false;
    }
    if !same_three(ids, minima, maxima) {
        return false;
    }
    if b != a {
        return false;
    }
    same_three(a, c, d)
}

fn same_two(a: usize, b: usize) -> bool
    ensures { result ≡ eqb a b }
{
    a == b
}

// Three sets of the same rows, with two offsets for each row and one more.
fn whole_sets(fo: usize, ro: usize, io: usize) -> bool
    ensures { result ≡ whole_sets fo ro io }
{
    if fo != 2 * (fo / 2) + 1 {
        return false;
    }
    same_three(fo, ro, io)
}

fn whole_unresolved(children: &[u64], kinds: usize, handles: usize) -> bool
    ensures { result ≡ whole_unresolved children.now kinds handles }
{
    if !same_three(children.len(), kinds, handles) {
        return false;
    }
    is_level(children, children.len())
}

fn whole_roots(rows: &[u64], handles: usize) -> bool
    ensures { result ≡ whole_roots rows.now handles }
{
    if handles != rows.len() {
        return false;
    }
    rises(rows, rows.len())
}

// Whether fewer bytes are left than the record of such a subject, of so many rows, references and roots has.
fn low_head(n: usize, len: usize, at: usize) -> bool
    requires { n ≤ 255 }
    ensures { result ≡ ltb len (at + head_size n) }
{
    low(len, at, 6 + (31 + n))
}

fn low_rows(n: usize, len: usize, at: usize) -> bool
    requires { n ≤ 1024 }
    ensures { result ≡ ltb len (at + rows_size n) }
{
    low(len, at, 6 + n * 9)
}

fn low_unresolved(n: usize, len: usize, at: usize) -> bool
    requires { n ≤ 1024 }
    ensures { result ≡ ltb len (at + unresolved_size n) }
{
    low(len, at, 6 + (4 + n * 13))
}

fn low_roots(n: usize, len: usize, at: usize) -> bool
    requires { n ≤ 1024 }
    ensures { result ≡ ltb len (at + roots_size n) }
{
    low(len, at, 6 + (4 + n * 16))
}

fn low_sets(
    fo: usize,
    fd: usize,
    ro: usize,
    rd: usize,
    io: usize,
    id: usize,
    len: usize,
    at: usize,
) -> bool
    requires { any (ltb max_numbers) (fo ∷ fd ∷ ro ∷ rd ∷ io ∷ id ∷ []) ≡ false }
    ensures { result ≡ ltb len (at + (6 + sets_size fo fd ro rd io id)) }
{
    let n = sets_size(fo, fd, ro, rd, io, id);
    low(len, at, 6 + n)
}

fn low_cover(
    chains: usize,
    seqs: usize,
    ids: usize,
    minima: usize,
    maxima: usize,
    a: usize,
    b: usize,
    c: usize,
    d: usize,
    len: usize,
    at: usize,
) -> bool
    requires { any (ltb max_records) (chains ∷ seqs ∷ ids ∷ minima ∷ maxima ∷ a ∷ b ∷ c ∷ d ∷ []) ≡ false }
    ensures { result ≡ ltb len (at + (6 + cover_body chains seqs ids a b c d)) }
{
    let n = cover_body(chains, seqs, ids, a, b, c, d);
    low(len, at, 6 + n)
}

pub fn head_rules(rows: u32, subject: usize, len: usize, at: usize) -> Result<(), Refusal>
    ensures { result ≡ ruling (head_rules rows subject len at) }
{
    if is_over(&[rows as usize], RECORDS) {
        return Err(Refusal::OverRecords);
    }
    if !subject_fits(subject) {
        return Err(Refusal::SubjectLength);
    }
    if low_head(subject, len, at) {
        return Err(Refusal::SliceShort);
    }
    Ok(())
}

pub fn edges_rules(
    fo: usize,
    fd: usize,
    ro: usize,
    rd: usize,
    io: usize,
    id: usize,
    len: usize,
    at: usize,
) -> Result<(), Refusal>
    ensures { result ≡ ruling (edges_rules fo fd ro rd io id len at) }
{
    if is_over(&[fo / 2, ro / 2, io / 2], RECORDS) {
        return Err(Refusal::OverRecords);
    }
    if is_over(&[fo, fd, ro, rd, io, id], NUMBERS) {
        return Err(Refusal::OverNumbers);
    }
    if !whole_sets(fo, ro, io) {
        return Err(Refusal::RecordBroken);
    }
    if low_sets(fo, fd, ro, rd, io, id, len, at) {
        return Err(Refusal::SliceShort);
    }
    Ok(())
}

pub fn rows_rules(flags: usize, tags: usize, len: usize, at: usize) -> Result<(), Refusal>
    ensures { result ≡ ruling (rows_rules flags tags len at) }
{
    if is_over(&[flags, tags], RECORDS) {
        return Err(Refusal::OverRecords);
    }
    if !same_two(flags, tags) {
        return Err(Refusal::RecordBroken);
    }
    if low_rows(tags, len, at) {
        return Err(Refusal::SliceShort);
    }
    Ok(())
}

pub fn unresolved_rules(
    children: &[u64],
    kinds: usize,
    handles: usize,
    len: usize,
    at: usize,
) -> Result<(), Refusal>
    ensures { result ≡ ruling (unresolved_rules children.now kinds handles len at) }
{
    if is_over(&[children.len(), kinds, handles], RECORDS) {
        return Err(Refusal::OverRecords);
    }
    if !whole_unresolved(children, kinds, handles) {
        return Err(Refusal::RecordBroken);
    }
    if low_unresolved(children.len(), len, at) {
        return Err(Refusal::SliceShort);
    }
    Ok(())
}

pub fn roots_rules(rows: &[u64], handles: usize, len: usize, at: usize) -> Result<(), Refusal>
    ensures { result ≡ ruling (roots_rules rows.now handles len at) }
{
    if is_over(&[rows.len(), handles], RECORDS) {
        return Err(Refusal::OverRecords);
    }
    if !whole_roots(rows, handles) {
        return Err(Refusal::RecordBroken);
    }
    if low_roots(rows.len(), len, at) {
        return Err(Refusal::SliceShort);
    }
    Ok(())
}

pub fn cover_rules(
    chains: usize,
    seqs: usize,
    ids: usize,
    minima: usize,
    maxima: usize,
    a: usize,
    b: usize,
    c: usize,
    d: usize,
    len: usize,
    at: usize,
) -> Result<(), Refusal>
    ensures { result ≡ ruling (cover_rules chains seqs ids minima maxima a b c d len at) }
{
    if is_over(&[chains, seqs, ids, minima, maxima, a, b, c, d], RECORDS) {
        return Err(Refusal::OverRecords);
    }
    if !same_cover(chains, seqs, ids, minima, maxima, a, b, c, d) {
        return Err(Refusal::CoverForm);
    }
    if low_cover(chains, seqs, ids, minima, maxima, a, b, c, d, len, at) {
        return Err(Refusal::SliceShort);
    }
    Ok(())
}
