// Columns of a table, 4 bytes for each number: the j-th numbers of n records of one width, from place q on.
ghost use Rattle.std.specs.Prelude.{◌≡◌, ◌++◌, ◌+◌, ◌*◌, ◌≤◌, ◌<◌, ◌^◌, length, drop};
ghost use Rattle.std.proofs.lemmas.List.Edits.{sets};
ghost use Rattle.archive_bytes.specs.Bytes.{several};
ghost use Rattle.cover.specs.Cover.{wrapping_less, differences};
ghost use Rattle.archive.specs.Encode.{column_bytes};
ghost use Rattle.run_section.specs.Tables.{field};
ghost use Rattle.run_records.specs.Narrow.{HalfColumn};

use archive_bytes::store_u32;

pub fn store_halves(
    out: &mut [u8],
    at: usize,
    table: &[u64],
    q: usize,
    width: usize,
    j: usize,
    n: usize,
)
    requires { (at + n * 4 ≤ length out.old) × HalfColumn width j n q table.now }
    ensures { out.new ≡ sets out.old at (column_bytes 4 (several width (field j) n (drop q table.now))) }
{
    let mut p = at;
    let mut k = q;
    for i in 0..n {
        store_u32(out, p, table[k + j]);
        p += 4;
        k += width;
    }
}

// Two columns that stand side by side, one after the other.
pub fn store_two(
    out: &mut [u8],
    at: usize,
    table: &[u64],
    q: usize,
    width: usize,
    j: usize,
    n: usize,
)
    requires { (at + (4 * n + 4 * n) ≤ length out.old) × HalfColumn width j n q table.now × HalfColumn width (j + 1) n q table.now }
    ensures { out.new ≡ sets out.old at
        (column_bytes 4 (several width (field j) n (drop q table.now)) ++ column_bytes 4 (several width (field (j + 1)) n (drop q table.now))) }
{
    store_halves(out, at, table, q, width, j, n);
    store_halves(out, at + 4 * n, table, q, width, j + 1, n);
}

// The difference of two numbers of 32 bits, wrapping.
fn wrapping_less(x: u64, before: u64) -> u64
    requires { (x < 2 ^ 32) × (before < 2 ^ 32) }
    ensures { (result ≡ wrapping_less x before) × (result < 2 ^ 32) }
{
    (x + (4294967296 - before)) % 4294967296
}

// Each number less the one before it, the first less 0.
pub fn store_differences(
    out: &mut [u8],
    at: usize,
    table: &[u64],
    q: usize,
    width: usize,
    j: usize,
    n: usize,
)
    requires { (at + n * 4 ≤ length out.old) × HalfColumn width j n q table.now }
    ensures { out.new ≡ sets out.old at (column_bytes 4 (differences 0 (several width (field j) n (drop q table.now)))) }
{
    let mut before: u64 = 0;
    let mut p = at;
    let mut k = q;
    for i in 0..n {
        let x = table[k + j];
        store_u32(out, p, wrapping_less(x, before));
        before = x;
        p += 4;
        k += width;
    }
}
