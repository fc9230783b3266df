// Columns of big-endian numbers in lent bytes: 23 where there are fewer numbers than are asked for, 41 where what is lent has no room for them.
ghost use Rattle.std.specs.Prelude.{◌≡◌, map, take};
ghost use Rattle.std.proofs.lemmas.List.Edits.{sets};
ghost use Rattle.lists.specs.Lists.{flat};
ghost use Rattle.columns.specs.Answers.{ruling};
ghost use Rattle.archive_bytes.specs.After.{left};
ghost use Rattle.archive_bytes.specs.Bytes.{bytes_of, signed_of, unsigned_of, column};
ghost use Rattle.archive_cursor.specs.number_columns.Room.{load_rules, store_rules};

use archive_bytes::big_endian::BigEndian;
use archive_bytes::number_columns::{fill, fits, store_all};
use columns::refusal::Refusal;

// The n numbers from `at` on, into the front of `out`.
fn load<T: BigEndian>(bytes: &[u8], at: usize, n: usize, out: &mut [T]) -> Result<(), Refusal>
    ensures value { result ≡ ruling (load_rules T.WIDTH n bytes.now at out.old) }
    ensures out_after { out.new ≡ left (load_rules T.WIDTH n bytes.now at out.old) out.old
        (sets out.old 0 (map T.number_of (column T.WIDTH n bytes.now at))) }
{
    if !fits(bytes.len(), at, n, T::WIDTH) {
        return Err(Refusal::RecordBroken);
    }
    if out.len() < n {
        return Err(Refusal::SliceShort);
    }
    fill(bytes, at, n, out);
    Ok(())
}

// The first n numbers of a column, from `at` on.
fn put<T: BigEndian>(xs: &[T], n: usize, out: &mut [u8], at: usize) -> Result<(), Refusal>
    ensures value { result ≡ ruling (store_rules T.WIDTH n xs.now out.old at) }
    ensures out_after { out.new ≡ left (store_rules T.WIDTH n xs.now out.old at) out.old
        (sets out.old at (flat (bytes_of T.WIDTH) (map T.bits_of (take n xs.now)))) }
{
    if xs.len() < n {
        return Err(Refusal::RecordBroken);
    }
    if !fits(out.len(), at, n, T::WIDTH) {
        return Err(Refusal::SliceShort);
    }
    store_all(xs, n, out, at);
    Ok(())
}

pub fn load_u64s(bytes: &[u8], at: usize, n: usize, out: &mut [u64]) -> Result<(), Refusal>
    ensures value { result ≡ ruling (load_rules 8 n bytes.now at out.old) }
    ensures out_after { out.new ≡ left (load_rules 8 n bytes.now at out.old) out.old (sets out.old 0 (column 8 n bytes.now at)) }
{
    load::<u64>(bytes, at, n, out)
}

pub fn load_i64s(bytes: &[u8], at: usize, n: usize, out: &mut [i64]) -> Result<(), Refusal>
    ensures value { result ≡ ruling (load_rules 8 n bytes.now at out.old) }
    ensures out_after { out.new ≡ left (load_rules 8 n bytes.now at out.old) out.old
        (sets out.old 0 (map signed_of (column 8 n bytes.now at))) }
{
    load::<i64>(bytes, at, n, out)
}

pub fn load_u32s(bytes: &[u8], at: usize, n: usize, out: &mut [u32]) -> Result<(), Refusal>
    ensures value { result ≡ ruling (load_rules 4 n bytes.now at out.old) }
    ensures out_after { out.new ≡ left (load_rules 4 n bytes.now at out.old) out.old (sets out.old 0 (column 4 n bytes.now at)) }
{
    load::<u32>(bytes, at, n, out)
}

pub fn put_u64s(xs: &[u64], n: usize, out: &mut [u8], at: usize) -> Result<(), Refusal>
    ensures value { result ≡ ruling (store_rules 8 n xs.now out.old at) }
    ensures out_after { out.new ≡ left (store_rules 8 n xs.now out.old at) out.old (sets out.old at (flat (bytes_of 8) (take n xs.now))) }
{
    put::<u64>(xs, n, out, at)
}

pub fn put_i64s(xs: &[i64], n: usize, out: &mut [u8], at: usize) -> Result<(), Refusal>
    ensures value { result ≡ ruling (store_rules 8 n xs.now out.old at) }
    ensures out_after { out.new ≡ left (store_rules 8 n xs.now out.old at) out.old
        (sets out.old at (flat (bytes_of 8) (map unsigned_of (take n xs.now)))) }
{
    put::<i64>(xs, n, out, at)
}

pub fn put_u32s(xs: &[u32], n: usize, out: &mut [u8], at: usize) -> Result<(), Refusal>
    ensures value { result ≡ ruling (store_rules 4 n xs.now out.old at) }
    ensures out_after { out.new ≡ left (store_rules 4 n xs.now out.old at) out.old (sets out.old at (flat (bytes_of 4) (take n xs.now))) }
{
    put::<u32>(xs, n, out, at)
}
