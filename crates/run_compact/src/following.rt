// Records of rows: whether the row that each names is erased, and the row's new number.
ghost use Rattle.std.specs.Prelude.{◌≡◌, ◌-◌, ◌≤◌, length, take, get_or};
ghost use Rattle.run_compact.specs.Columns.{flags_of, new_rows};

use arrays::index;

// The flag of row x, 0 past the end. Rows count from base.
fn flag_of(flags: &[u8], base: u64, x: u64) -> u8
    ensures { result ≡ get_or flags.now (x - base) 0 }
{
    flags
        .get(index(x.saturating_sub(base)))
        .copied()
        .unwrap_or(0)
}

// The new number of row x, counted from `from`.
fn number_of(numbers: &[u64], base: u64, from: u64, x: u64) -> u64
    ensures { result ≡ get_or numbers.now (x - base) 0 - from }
{
    let n = numbers
        .get(index(x.saturating_sub(base)))
        .copied()
        .unwrap_or(0);
    n.saturating_sub(from)
}

// The flags of the rows that the first n records name.
pub fn put_flags(out: &mut [u8; 1024], rows: &[u64], n: usize, flags: &[u8], base: u64)
    requires { (n ≤ 1024) × (n ≤ length rows.now) }
    ensures { (take n out.new ≡ flags_of base flags.now (take n rows.now)) × (length out.new ≡ 1024) }
{
    for i in 0..n {
        out[i] = flag_of(flags, base, rows[i]);
    }
}

// The first n records name rows by their new numbers, which count from `from`.
pub fn move_rows(rows: &mut [u64; 1024], n: usize, numbers: &[u64], base: u64, from: u64)
    requires { n ≤ 1024 }
    ensures { take n rows.new ≡ new_rows base from numbers.now (take n rows.old) }
{
    for i in 0..n {
        let x = rows[i];
        rows[i] = number_of(numbers, base, from, x);
    }
}
