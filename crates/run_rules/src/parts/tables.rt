// The rules on roots (16) and on unresolved records (6, 7), over the bodies of their records.
ghost use Rattle.std.specs.Prelude.{◌≡◌, ◌+◌, ◌*◌, ◌≤◌, length, drop};
ghost use Rattle.lists.specs.Lists.{all};
ghost use Rattle.columns.specs.Refusal.{first_in};
ghost use Rattle.columns.specs.Answers.{ruling};
ghost use Rattle.archive.specs.Bytes.{several};
ghost use Rattle.archive.specs.Parse.{unresolved_at, root_at};
ghost use Rattle.run_rules.specs.parts.Back.{in_rows, child_rule, record_rule, records_rules};

use archive_bytes::load_u64;
use columns::refusal::Refusal;
use columns_rules::records::parts::is_in_file;

// Whether the row of each of n roots is one of the file's.
fn roots_in(b: &[u8], n: usize, rows: usize) -> bool
    requires { 4 + n * 16 ≤ length b.now }
    ensures { result ≡ all (in_rows rows) (several 16 root_at n (drop 4 b.now)) }
{
    let mut p = 4;
    for i in 0..n {
        let x = load_u64(b, p);
        if rows as u64 <= x {
            return false;
        }
        p += 16;
    }
    true
}

// 6 and 7 of one record.
fn child_rule(first: u64, rows: usize, child: u64, kind: u8) -> Result<(), Refusal>
    ensures { result ≡ ruling (child_rule first (first + rows) child kind) }
{
    if !is_in_file(first, rows, child) {
        return Err(Refusal::UnresolvedChild);
    }
    if 2 <= kind {
        return Err(Refusal::UnresolvedKind);
    }
    Ok(())
}

// 6 and 7 record by record.
fn children_rules(b: &[u8], n: usize, first: u64, rows: usize) -> Result<(), Refusal>
    requires { 4 + n * 13 ≤ length b.now }
    ensures { result ≡ ruling (first_in (record_rule first (first + rows)) (several 13 unresolved_at n (drop 4 b.now))) }
{
    let mut p = 4;
    for i in 0..n {
        child_rule(first, rows, load_u64(b, p), b[p + 8])?;
        p += 13;
    }
    Ok(())
}

// 16, then 6 and 7, of roots in one body and unresolved records in another.
pub fn records_rules(
    roots: &[u8],
    n: usize,
    unresolved: &[u8],
    m: usize,
    first: u64,
    rows: usize,
) -> Result<(), Refusal>
    requires { (4 + n * 16 ≤ length roots.now) × (4 + m * 13 ≤ length unresolved.now) }
    ensures { result ≡ ruling (records_rules first rows (first + rows) (several 16 root_at n (drop 4 roots.now)) (several 13 unresolved_at m (drop 4 unresolved.now))) }
{
    if !roots_in(roots, n, rows) {
        return Err(Refusal::RootOutside);
    }
    children_rules(unresolved, m, first, rows)
}
