// Rows, unresolved references and state roots: records of one width in a table, stored one after the other.
ghost use Rattle.std.specs.Prelude.{◌≡◌, map, ◌+◌, ◌-◌, ◌*◌, ◌≤◌, length, drop};
ghost use Rattle.std.proofs.lemmas.List.Edits.{sets};
ghost use Rattle.lists.specs.Lists.{flat};
ghost use Rattle.columns.specs.Limits.{max_records};
ghost use Rattle.archive_bytes.specs.Bytes.{several};
ghost use Rattle.archive.specs.Encode.{record_bytes, row_bytes, unresolved_bytes, root_bytes, counted_bytes};
ghost use Rattle.archive_store.specs.records.Sizes.{rows_size, unresolved_size, roots_size};
ghost use Rattle.cleaning.specs.Sections.{unerased_row};
ghost use Rattle.run_section.specs.Tables.{field, unresolved_in, root_in};
ghost use Rattle.run_records.specs.Stored.{row_in, root_above, root_above_in};
ghost use Rattle.run_records.specs.Narrow.{NarrowUnresolved};

use archive_bytes::store_u32;
use archive_store::heads::store_start;
use archive_store::tables::{store_one, store_root, store_row};

// ── 3 rows ───────────────────────────────────────────────────────────────────────────────────

fn store_rows(out: &mut [u8], at: usize, rows: &[u64], q: usize, n: usize)
    requires { (at + n * 9 ≤ length out.old) × (q + n * 4 ≤ length rows.now) }
    ensures { out.new ≡ sets out.old at (flat row_bytes (several 4 row_in n (drop q rows.now))) }
{
    let mut p = at;
    let mut j = q;
    for i in 0..n {
        store_row(out, p, 0, rows[j + 1]);
        p += 9;
        j += 4;
    }
}

// The n rows from row a on, of which none is erased.
pub fn put_rows(out: &mut [u8], at: usize, rows: &[u64], a: usize, n: usize) -> usize
    requires { (at + rows_size n ≤ length out.old) × (n ≤ max_records) × ((a + n) * 4 ≤ length rows.now) }
    ensures out_after { out.new ≡ sets out.old at (record_bytes 3 (flat row_bytes (map unerased_row (several 4 (field 1) n (drop (a * 4) rows.now))))) }
    ensures value { result ≡ at + rows_size n }
{
    store_start(out, at, n * 9, 3);
    store_rows(out, at + 6, rows, a * 4, n);
    at + 6 + n * 9
}

// ── 4 unresolved ─────────────────────────────────────────────────────────────────────────────

fn store_unresolved(out: &mut [u8], at: usize, unresolved: &[u64], q: usize, n: usize)
    requires { (at + n * 13 ≤ length out.old) × (q + n * 3 ≤ length unresolved.now) × NarrowUnresolved n (drop q unresolved.now) }
    ensures { out.new ≡ sets out.old at (flat unresolved_bytes (several 3 unresolved_in n (drop q unresolved.now))) }
{
    let mut p = at;
    let mut j = q;
    for i in 0..n {
        let kind = unresolved[j + 1] as u8;
        let handle = unresolved[j + 2] as u32;
        store_one(out, p, unresolved[j], kind, handle);
        p += 13;
        j += 3;
    }
}

// The n unresolved references from record a on.
pub fn put_unresolved(out: &mut [u8], at: usize, unresolved: &[u64], a: usize, n: usize) -> usize
    requires n_in_bounds { (at + unresolved_size n ≤ length out.old) × (n ≤ max_records) × ((a + n) * 3 ≤ length unresolved.now) }
    requires narrow_unresolved { NarrowUnresolved n (drop (a * 3) unresolved.now) }
    ensures out_after { out.new ≡ sets out.old at (record_bytes 4 (counted_bytes unresolved_bytes (several 3 unresolved_in n (drop (a * 3) unresolved.now)))) }
    ensures value { result ≡ at + unresolved_size n }
{
    store_start(out, at, 4 + n * 13, 4);
    store_u32(out, at + 6, n as u64);
    store_unresolved(out, at + 10, unresolved, a * 3, n);
    at + 10 + n * 13
}

// ── 5 roots ──────────────────────────────────────────────────────────────────────────────────

// How far a row is from `low`; one before it counts as `low` itself.
fn row_from(row: u64, low: u64) -> u64
    ensures { result ≡ row - low }
{
    if row < low {
        return 0;
    }
    row - low
}

fn store_roots(out: &mut [u8], at: usize, roots: &[u64], q: usize, n: usize, low: u64)
    requires { (at + n * 16 ≤ length out.old) × (q + n * 2 ≤ length roots.now) }
    ensures { out.new ≡ sets out.old at (flat root_bytes (several 2 (root_above_in low) n (drop q roots.now))) }
{
    let mut p = at;
    let mut j = q;
    for i in 0..n {
        let row = row_from(roots[j], low);
        store_root(out, p, row, roots[j + 1]);
        p += 16;
        j += 2;
    }
}

// The n roots from record a on, whose rows count from row `low`.
pub fn put_roots(out: &mut [u8], at: usize, roots: &[u64], a: usize, n: usize, low: u64) -> usize
    requires { (at + roots_size n ≤ length out.old) × (n ≤ max_records) × ((a + n) * 2 ≤ length roots.now) }
    ensures out_after { out.new ≡ sets out.old at (record_bytes 5 (counted_bytes root_bytes (map (root_above low) (several 2 root_in n (drop (a * 2) roots.now))))) }
    ensures value { result ≡ at + roots_size n }
{
    store_start(out, at, 4 + n * 16, 5);
    store_u32(out, at + 6, n as u64);
    store_roots(out, at + 10, roots, a * 2, n, low);
    at + 10 + n * 16
}
