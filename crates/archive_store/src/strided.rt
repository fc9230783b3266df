// Columns out of a table of records: records of `width` numbers stand one after the other, and of n of them the number at one place is stored,
// that of the first record at place p of the table.
ghost use Rattle.std.specs.Prelude.{◌≡◌, ◌+◌, ◌*◌, ◌^◌, ◌<◌, ◌≤◌, length, drop, slice_index};
ghost use Rattle.std.proofs.lemmas.List.Edits.{sets};
ghost use Rattle.lists.specs.Lists.{Each, flat};
ghost use Rattle.archive_bytes.specs.Bytes.{bytes_of, several};

use archive_bytes::{store_u32, store_u64};

// The number of the record that is i records on.
fn number_at(table: &[u64], p: usize, i: usize, width: usize) -> u64
    requires { p + i * width < length table.now }
    ensures { result ≡ slice_index table.now (p + i * width) }
{
    table[p + i * width]
}

// 8 bytes each.
pub fn store_words(out: &mut [u8], at: usize, table: &[u64], p: usize, width: usize, n: usize)
    requires { (p + n * width < length table.now + width) × (at + 8 * n ≤ length out.old) }
    ensures { out.new ≡ sets out.old at (flat (bytes_of 8) (several width (λ l. slice_index l 0) n (drop p table.now))) }
{
    for i in 0..n {
        store_u64(out, at + 8 * i, number_at(table, p, i, width));
    }
}

// 4 bytes each, of numbers below 2^32. It stands beside `store_words`, since a number of the table is no u32 before its bound is known.
pub fn store_halves(out: &mut [u8], at: usize, table: &[u64], p: usize, width: usize, n: usize)
    requires width_in_bounds { (p + n * width < length table.now + width) × (at + 4 * n ≤ length out.old) }
    requires each { Each (λ x. x < 2 ^ 32) (several width (λ l. slice_index l 0) n (drop p table.now)) }
    ensures { out.new ≡ sets out.old at (flat (bytes_of 4) (several width (λ l. slice_index l 0) n (drop p table.now))) }
{
    for i in 0..n {
        store_u32(out, at + 4 * i, number_at(table, p, i, width));
    }
}
