// The columns of a run grown by the entries of one record of an archive: each function writes one column from a place on. Things of `width`
// bytes stand one after the other from `base` on, and of each the number that starts `skip` bytes after its first is taken.
ghost use Rattle.std.specs.Prelude.{◌≡◌, true, List, ℕ, map, ◌+◌, ◌≤◌, ◌<◌, ◌^◌, eqb, length, get_or, take, drop, replicate};
ghost use Rattle.std.proofs.lemmas.List.Edits.{sets};
ghost use Rattle.std.proofs.lemmas.List.{get_or-drop};
ghost use Rattle.columns.specs.Limits.{kinds};
ghost use Rattle.lists.specs.Lists.{joined};
ghost use Rattle.archive_bytes.specs.Bytes.{be, several, column};
ghost use Rattle.archive_bytes.proofs.Several.{be-drop};
ghost use Rattle.cover.specs.Cover.{sums, sums_fit};
ghost use Rattle.columns.specs.EdgeSet.{from_to};
ghost use Rattle.columns.specs.Reading.{slots_of};
ghost use Rattle.columns.specs.Answers.{columns_of};
ghost use Rattle.columns.specs.Readable.{Readable};
ghost use Rattle.run_store.specs.grow.Column.{Room, Small, bit};

use archive_bytes::{load_u32, load_u64};
use columns::kind::KINDS;

// A number as an archive holds it, its highest byte first.
pub trait Number: Copy {
    // how many bytes it takes
    ghost size: { ℕ };
    // the number that starts at a place of bytes
    ghost held: { List ℕ → ℕ → Self };

    fn load(bytes: &[u8], at: usize) -> Self
        requires { at + size ≤ length bytes.now }
        ensures { result ≡ held bytes.now at };

    ghost behind: { (l : List ℕ) (p k : ℕ) → held (drop p l) k ≡ held l (p + k) };
}

impl Number for u8 {
    ghost size = { 1 };

    ghost held = { λ l k. get_or l k 0 };

    fn load(bytes: &[u8], at: usize) -> u8 {
        bytes[at]
    }

    ghost behind = { λ l p k. get_or-drop p l k 0 };
}

impl Number for u32 {
    ghost size = { 4 };

    ghost held = { be 4 };

    fn load(bytes: &[u8], at: usize) -> u32 {
        load_u32(bytes, at) as u32
    }

    ghost behind = { be-drop 4 };
}

impl Number for u64 {
    ghost size = { 8 };

    ghost held = { be 8 };

    fn load(bytes: &[u8], at: usize) -> u64 {
        load_u64(bytes, at)
    }

    ghost behind = { be-drop 8 };
}

// The numbers of n things.
pub fn put_numbers<T: Number>(
    out: &mut [T; 1024],
    at: usize,
    bytes: &[u8],
    base: usize,
    width: usize,
    skip: usize,
    n: usize,
)
    requires { Room (length bytes.now) base width n × ((skip + T.size ≤ width) × (at + n ≤ 1024)) }
    ensures { out.new ≡ sets out.old at (several width (λ l. T.held l skip) n (drop base bytes.now)) }
{
    let mut p = base;
    for i in 0..n {
        out[at + i] = T::load(bytes, p + skip);
        p += width;
    }
}

// 1 for a flag of 1, 0 for any other.
fn flag(x: u8) -> u8
    ensures { result ≡ bit (eqb x 1) }
{
    u8::from(x == 1)
}

// The flags of rows: whether the first byte of each is 1.
pub fn put_flags(out: &mut [u8; 1024], at: usize, bytes: &[u8], base: usize, width: usize, n: usize)
    requires { Room (length bytes.now) base width n × ((1 ≤ width) × (at + n ≤ 1024)) }
    ensures { out.new ≡ sets out.old at (several width (λ l. bit (eqb (get_or l 0 0) 1)) n (drop base bytes.now)) }
{
    let mut p = base;
    for i in 0..n {
        out[at + i] = flag(bytes[p]);
        p += width;
    }
}

// Small numbers of 8 bytes, each moved up by `add`.
pub fn put_moved(
    out: &mut [u64; 1024],
    at: usize,
    bytes: &[u8],
    base: usize,
    width: usize,
    skip: usize,
    n: usize,
    add: u64,
)
    requires room { Room (length bytes.now) base width n × ((skip + 8 ≤ width) × (at + n ≤ 1024)) }
    requires add_bound { (add ≤ 1024) × Small (several width (λ l. be 8 l skip) n (drop base bytes.now)) }
    ensures { out.new ≡ sets out.old at (several width (λ l. add + be 8 l skip) n (drop base bytes.now)) }
{
    let mut p = base;
    for i in 0..n {
        out[at + i] = add + load_u64(bytes, p + skip);
        p += width;
    }
}

// The same byte n times.
pub fn fill(out: &mut [u8; 1024], at: usize, n: usize, x: u8)
    requires { at + n ≤ 1024 }
    ensures { out.new ≡ sets out.old at (replicate n x) }
{
    for i in 0..n {
        out[at + i] = x;
    }
}

// The sums of stored differences of 4 bytes each, none of them past 2^32 − 1.
pub fn put_sums(out: &mut [u32; 1024], at: usize, bytes: &[u8], base: usize, n: usize)
    requires room { Room (length bytes.now) base 4 n × (at + n ≤ 1024) }
    requires base_value { sums_fit (column 4 n bytes.now base) ≡ true }
    ensures { out.new ≡ sets out.old at (sums 0 (column 4 n bytes.now base)) }
{
    let mut p = base;
    let mut sum: u64 = 0;
    for i in 0..n {
        sum += load_u32(bytes, p);
        out[at + i] = sum as u32;
        p += 4;
    }
}

// The bytes of a subject.
pub fn put_subject(out: &mut [u8; 255], bytes: &[u8], base: usize, n: usize)
    requires { (base + n ≤ length bytes.now) × (n ≤ 255) }
    ensures { out.new ≡ sets out.old 0 (take n (drop base bytes.now)) }
{
    for i in 0..n {
        out[i] = bytes[base + i];
    }
}

// All offsets but the first, each moved up by `add`: that of place 1 to place at + 1, and so on.
pub fn put_offsets(out: &mut [u64; 2049], at: usize, offsets: &[u64], count: usize, add: u64)
    requires { (at + length offsets.now ≤ 2049) × ((add + count ≤ 4096) × (from_to 0 count offsets.now ≡ true)) }
    ensures { out.new ≡ sets out.old (at + 1) (map (λ o. add + o) (drop 1 offsets.now)) }
{
    for i in 1..offsets.len() {
        out[at + i] = add + offsets[i];
    }
}

fn put_behind(out: &mut [u64], at: usize, first: u64, count: u64, offsets: &[u64], deltas: &[i64])
    requires at_in_bounds { at ≤ length out.old }
    requires readable { Readable kinds first (columns_of count offsets.now deltas.now) }
    ensures { out.new ≡ sets out.old at (joined (slots_of kinds first (columns_of count offsets.now deltas.now))) }
{
    columns_slots::sets::write_csr(KINDS, first, count, offsets, deltas, &mut out[at..]);
}

// The targets of a set whose rules are kept.
pub fn put_targets(
    out: &mut [u64; 4096],
    at: usize,
    first: u64,
    count: u64,
    offsets: &[u64],
    deltas: &[i64],
)
    requires at_bound { at ≤ 4096 }
    requires readable { Readable kinds first (columns_of count offsets.now deltas.now) }
    ensures { out.new ≡ sets out.old at (joined (slots_of kinds first (columns_of count offsets.now deltas.now))) }
{
    put_behind(out, at, first, count, offsets, deltas);
}
