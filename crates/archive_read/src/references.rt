// Record 7, the references: whether a body is one, and how many references it has. Row by row stand a count and as many references.
ghost use Rattle.std.specs.Prelude.{cond, ◌≡◌, ◌+◌, ◌*◌, ◌≤◌, eqb, length, drop};
ghost use Rattle.lists.specs.Lists.{all};
ghost use Rattle.archive.specs.Bytes.{several};
ghost use Rattle.archive.specs.Reader.{whole};
ghost use Rattle.archive.specs.Parse.{reference_at, reference_ok, of_kind, references_ok, row_references, references};
ghost use Rattle.archive_read.specs.bodies.View.{row_cited, RowInside, cited_of, CitedInside};

use arrays::index;

// Whether each of `n` references from `p` on is of a kind and a space that there are.
fn kinds_ok(b: &[u8], p: usize, n: usize) -> bool
    requires { p + n * 10 ≤ length b.now }
    ensures { result ≡ all reference_ok (several 10 reference_at n (drop p b.now)) }
{
    for i in 0..n {
        let q = p + i * 10;
        if 5 < b[q] {
            return false;
        }
        if 3 < b[q + 1] {
            return false;
        }
    }
    true
}

fn one_if(x: u8, kind: u8) -> usize
    ensures { (result ≡ cond (eqb x kind) 1 0) × (result ≤ 1) }
{
    if x == kind {
        return 1;
    }
    0
}

// How many of `n` references from `p` on are of a kind.
fn count_kind(b: &[u8], p: usize, n: usize, kind: u8) -> usize
    requires { p + n * 10 ≤ length b.now }
    ensures { result ≡ of_kind kind (several 10 reference_at n (drop p b.now)) }
{
    let mut found = 0;
    for i in 0..n {
        found += one_if(b[p + i * 10], kind);
    }
    found
}

// Whether `n` references from `p` on are a row's: of kinds and spaces that there are, with at most one parent and one root.
fn are_known(b: &[u8], p: usize, n: usize) -> bool
    requires { p + n * 10 ≤ length b.now }
    ensures { result ≡ references_ok (several 10 reference_at n (drop p b.now)) }
{
    if !kinds_ok(b, p, n) {
        return false;
    }
    if 1 < count_kind(b, p, n, 3) {
        return false;
    }
    if 1 < count_kind(b, p, n, 5) {
        return false;
    }
    true
}

// How many references the row at `p` has.
fn row_at(b: &[u8], p: usize) -> Option<usize>
    requires { p ≤ length b.now }
    ensures result_value { row_cited b.now p result ≡ row_references b.now p }
    ensures row_inside { RowInside b.now p result }
{
    if b.len() - p < 4 {
        return None;
    }
    let n = index(archive_bytes::load_u32(b, p));
    if b.len() < p + 4 + n * 10 {
        return None;
    }
    if !are_known(b, p + 4, n) {
        return None;
    }
    Some(n)
}

pub fn references_body(b: &[u8], rows: u32) -> Option<usize>
    ensures result_value { cited_of b.now rows result ≡ whole (references rows) b.now }
    ensures cited_inside { CitedInside b.now rows result }
{
    let n = rows as usize;
    let mut p = 0;
    let mut total = 0;
    for i in 0..n {
        let k = row_at(b, p)?;
        total += k;
        p = p + 4 + k * 10;
    }
    if b.len() != p {
        return None;
    }
    if total == 0 {
        return None;
    }
    Some(total)
}
