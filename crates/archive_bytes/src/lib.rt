// Big-endian numbers in lent bytes: one number read or written at a place that its caller has looked at.
#![tactic(auto)]

pub mod big_endian;
pub mod number_columns;

ghost use Rattle.std.specs.Prelude.{◌≡◌, ◌∷◌, [], ◌+◌, ◌≤◌, ◌<◌, ◌^◌, length};
ghost use Rattle.std.proofs.lemmas.List.Edits.{sets};
ghost use Rattle.archive_bytes.specs.Bytes.{be, bytes_of, signed_of, unsigned_of};

pub fn wide(x: u8) -> u64
    ensures { (result ≡ x) × (result < 256) }
{
    x as u64
}

pub fn long(x: u32) -> u64
    ensures { (result ≡ x) × (result < 2 ^ 32) }
{
    x as u64
}

pub fn narrow(x: u64) -> u8
    requires { x < 256 }
    ensures { result ≡ x }
{
    x as u8
}

// The number of 4 bytes at `at`.
pub fn load_u32(bytes: &[u8], at: usize) -> u64
    requires { at + 4 ≤ length bytes.now }
    ensures { (result ≡ be 4 bytes.now at) × (result < 2 ^ 32) }
{
    let a = wide(bytes[at]);
    let b = wide(bytes[at + 1]);
    let c = wide(bytes[at + 2]);
    let d = wide(bytes[at + 3]);
    ((a * 256 + b) * 256 + c) * 256 + d
}

// The number of 8 bytes at `at`.
pub fn load_u64(bytes: &[u8], at: usize) -> u64
    requires { at + 8 ≤ length bytes.now }
    ensures { result ≡ be 8 bytes.now at }
{
    let high = load_u32(bytes, at);
    let low = load_u32(bytes, at + 4);
    high * 4294967296 + low
}

// The signed number that an unsigned one stands for in two's complement.
pub fn signed(n: u64) -> i64
    ensures { result ≡ signed_of n }
{
    if n < 9223372036854775808 {
        return n as i64;
    }
    let m = 18446744073709551615 - n;
    let k = m as i64;
    -1 - k
}

// The unsigned number whose bytes are those of a signed one.
pub fn unsigned(x: i64) -> u64
    ensures { result ≡ unsigned_of x }
{
    if x < 0 {
        let k = -1 - x;
        let m = k as u64;
        return 18446744073709551615 - m;
    }
    x as u64
}

pub fn store_u8(out: &mut [u8], at: usize, b: u8)
    requires { at < length out.old }
    ensures { out.new ≡ sets out.old at (b ∷ []) }
{
    out[at] = b;
}

// The 4 bytes of a number, at `at`.
pub fn store_u32(out: &mut [u8], at: usize, n: u64)
    requires { (at + 4 ≤ length out.old) × (n < 2 ^ 32) }
    ensures { out.new ≡ sets out.old at (bytes_of 4 n) }
{
    out[at] = narrow(n / 16777216);
    out[at + 1] = narrow(n / 65536 % 256);
    out[at + 2] = narrow(n / 256 % 256);
    out[at + 3] = narrow(n % 256);
}

// The 8 bytes of a number, at `at`.
pub fn store_u64(out: &mut [u8], at: usize, n: u64)
    requires { at + 8 ≤ length out.old }
    ensures { out.new ≡ sets out.old at (bytes_of 8 n) }
{
    store_u32(out, at, n / 4294967296);
    store_u32(out, at + 4, n % 4294967296);
}
