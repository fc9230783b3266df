// Numbers as text in lent bytes, in decimal. Each function writes from `at` on and answers the place after what it wrote.
ghost use Rattle.std.specs.Prelude.{◌∷◌, [], ◌+◌, ◌≤◌, ◌<◌, length};
ghost use Rattle.cleaning.specs.Lines.{decimal, signed};
ghost use Rattle.run_text.specs.numbers.Wrote.{Wrote};

use archive_bytes::{narrow, store_u8, unsigned};

pub fn put_byte(out: &mut [u8], at: usize, b: u8) -> usize
    requires { at < length out.old }
    ensures { Wrote (b ∷ []) 1 out.old at out.new result }
{
    store_u8(out, at, b);
    at + 1
}

// The digits of n: those of n / 10 first.
fn put_digits(out: &mut [u8], at: usize, n: u64) -> usize
    requires { at + length (decimal n) ≤ length out.old }
    ensures { Wrote (decimal n) (length (decimal n)) out.old at out.new result }
{
    if n < 10 {
        return put_byte(out, at, narrow(48 + n));
    }
    let p = put_digits(out, at, n / 10);
    put_byte(out, p, narrow(48 + n % 10))
}

pub fn put_decimal(out: &mut [u8], at: usize, n: u64) -> usize
    requires { at + 20 ≤ length out.old }
    ensures { Wrote (decimal n) 20 out.old at out.new result }
{
    put_digits(out, at, n)
}

// A number below 0 has a minus and then what its two's complement lacks to 2^64.
pub fn put_signed(out: &mut [u8], at: usize, d: i64) -> usize
    requires { at + 20 ≤ length out.old }
    ensures { Wrote (signed d) 20 out.old at out.new result }
{
    let n = unsigned(d);
    if n < 9223372036854775808 {
        return put_decimal(out, at, n);
    }
    let p = put_byte(out, at, b'-');
    put_digits(out, p, 18446744073709551615 - n + 1)
}
