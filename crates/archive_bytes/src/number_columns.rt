// Columns of big-endian numbers in lent bytes, read or written at a place that the caller has looked at.
ghost use Rattle.std.specs.Prelude.{◌≡◌, map, ◌+◌, ◌*◌, ◌≤◌, ◌<◌, leb, length, take};
ghost use Rattle.std.proofs.lemmas.List.Edits.{sets};
ghost use Rattle.lists.specs.Lists.{flat};
ghost use Rattle.archive_bytes.specs.Bytes.{bytes_of, signed_of, unsigned_of, column};

use crate::big_endian::BigEndian;

// Whether n things of w bytes each are there from `at` on; no product is formed, so none can wrap.
pub fn fits(len: usize, at: usize, n: usize, w: usize) -> bool
    requires { 0 < w }
    ensures { result ≡ leb (at + n * w) len }
{
    if len < at {
        return false;
    }
    n <= (len - at) / w
}

// The n numbers from `at` on, into the front of `out`.
pub fn fill<T: BigEndian>(bytes: &[u8], at: usize, n: usize, out: &mut [T])
    requires { (at + n * T.WIDTH ≤ length bytes.now) × (n ≤ length out.old) }
    ensures { out.new ≡ sets out.old 0 (map T.number_of (column T.WIDTH n bytes.now at)) }
{
    // A place, since it moves by a number's width.
    let mut p = at;
    for i in 0..n {
        out[i] = T::load(bytes, p);
        p += T::WIDTH;
    }
}

// The first n numbers of a column, from `at` on.
pub fn store_all<T: BigEndian>(xs: &[T], n: usize, out: &mut [u8], at: usize)
    requires { (n ≤ length xs.now) × (at + n * T.WIDTH ≤ length out.old) }
    ensures { out.new ≡ sets out.old at (flat (bytes_of T.WIDTH) (map T.bits_of (take n xs.now))) }
{
    let mut p = at;
    for i in 0..n {
        xs[i].store(out, p);
        p += T::WIDTH;
    }
}

// Numbers of one type, named by it.
pub fn fill_u64s(bytes: &[u8], at: usize, n: usize, out: &mut [u64])
    requires { (at + n * 8 ≤ length bytes.now) × (n ≤ length out.old) }
    ensures { out.new ≡ sets out.old 0 (column 8 n bytes.now at) }
{
    fill(bytes, at, n, out);
}

pub fn fill_i64s(bytes: &[u8], at: usize, n: usize, out: &mut [i64])
    requires { (at + n * 8 ≤ length bytes.now) × (n ≤ length out.old) }
    ensures { out.new ≡ sets out.old 0 (map signed_of (column 8 n bytes.now at)) }
{
    fill(bytes, at, n, out);
}

pub fn fill_u32s(bytes: &[u8], at: usize, n: usize, out: &mut [u32])
    requires { (at + n * 4 ≤ length bytes.now) × (n ≤ length out.old) }
    ensures { out.new ≡ sets out.old 0 (column 4 n bytes.now at) }
{
    fill(bytes, at, n, out);
}

pub fn store_u64s(xs: &[u64], n: usize, out: &mut [u8], at: usize)
    requires { (n ≤ length xs.now) × (at + n * 8 ≤ length out.old) }
    ensures { out.new ≡ sets out.old at (flat (bytes_of 8) (take n xs.now)) }
{
    store_all(xs, n, out, at);
}

pub fn store_i64s(xs: &[i64], n: usize, out: &mut [u8], at: usize)
    requires { (n ≤ length xs.now) × (at + n * 8 ≤ length out.old) }
    ensures { out.new ≡ sets out.old at (flat (bytes_of 8) (map unsigned_of (take n xs.now))) }
{
    store_all(xs, n, out, at);
}

pub fn store_u32s(xs: &[u32], n: usize, out: &mut [u8], at: usize)
    requires { (n ≤ length xs.now) × (at + n * 4 ≤ length out.old) }
    ensures { out.new ≡ sets out.old at (flat (bytes_of 4) (take n xs.now)) }
{
    store_all(xs, n, out, at);
}

// Bytes as they are, from `at` on.
pub fn store_bytes(s: &[u8], out: &mut [u8], at: usize)
    requires { at + length s.now ≤ length out.old }
    ensures { out.new ≡ sets out.old at s.now }
{
    for i in 0..s.len() {
        out[at + i] = s[i];
    }
}
