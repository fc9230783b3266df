// One big-endian number at a place of lent bytes: 23 where it is not there to be read, 41 where there is no room to write it.
ghost use Rattle.std.specs.Prelude.{◌≡◌, ◌∷◌, []};
ghost use Rattle.std.proofs.lemmas.List.Edits.{sets};
ghost use Rattle.columns.specs.Answers.{ruling};
ghost use Rattle.archive_bytes.specs.After.{left};
ghost use Rattle.archive_bytes.specs.Bytes.{bytes_of, unsigned_of};
ghost use Rattle.archive_cursor.specs.Short.{no_room};
ghost use Rattle.archive_cursor.specs.cursor.Cursor.{read_as, number_at, delta_at};

use archive_bytes::big_endian::BigEndian;
use archive_bytes::number_columns::fits;
use archive_bytes::store_u8;
use columns::refusal::Refusal;

fn number<T: BigEndian>(bytes: &[u8], at: usize) -> Result<T, Refusal>
    ensures { result ≡ read_as T.number_of T.WIDTH bytes.now at }
{
    if !fits(bytes.len(), at, 1, T::WIDTH) {
        return Err(Refusal::RecordBroken);
    }
    Ok(T::load(bytes, at))
}

// Writes a number, if there is room.
fn put<T: BigEndian>(out: &mut [u8], at: usize, n: T) -> Result<(), Refusal>
    ensures value { result ≡ ruling (no_room T.WIDTH out.old at) }
    ensures out_after { out.new ≡ left (no_room T.WIDTH out.old at) out.old (sets out.old at (bytes_of T.WIDTH (T.bits_of n))) }
{
    if !fits(out.len(), at, 1, T::WIDTH) {
        return Err(Refusal::SliceShort);
    }
    n.store(out, at);
    Ok(())
}

pub fn u8_at(bytes: &[u8], at: usize) -> Result<u64, Refusal>
    ensures { result ≡ number_at 1 bytes.now at }
{
    if bytes.len() <= at {
        return Err(Refusal::RecordBroken);
    }
    Ok(u64::from(bytes[at]))
}

pub fn u32_at(bytes: &[u8], at: usize) -> Result<u64, Refusal>
    ensures { result ≡ number_at 4 bytes.now at }
{
    let n: u32 = number(bytes, at)?;
    Ok(u64::from(n))
}

pub fn u64_at(bytes: &[u8], at: usize) -> Result<u64, Refusal>
    ensures { result ≡ number_at 8 bytes.now at }
{
    number(bytes, at)
}

pub fn i64_at(bytes: &[u8], at: usize) -> Result<i64, Refusal>
    ensures { result ≡ delta_at bytes.now at }
{
    number(bytes, at)
}

// Writes a byte, if there is room.
pub fn put_u8(out: &mut [u8], at: usize, b: u8) -> Result<(), Refusal>
    ensures value { result ≡ ruling (no_room 1 out.old at) }
    ensures out_after { out.new ≡ left (no_room 1 out.old at) out.old (sets out.old at (b ∷ [])) }
{
    if out.len() <= at {
        return Err(Refusal::SliceShort);
    }
    store_u8(out, at, b);
    Ok(())
}

pub fn put_u32(out: &mut [u8], at: usize, n: u32) -> Result<(), Refusal>
    ensures value { result ≡ ruling (no_room 4 out.old at) }
    ensures out_after { out.new ≡ left (no_room 4 out.old at) out.old (sets out.old at (bytes_of 4 n)) }
{
    put::<u32>(out, at, n)
}

pub fn put_u64(out: &mut [u8], at: usize, n: u64) -> Result<(), Refusal>
    ensures value { result ≡ ruling (no_room 8 out.old at) }
    ensures out_after { out.new ≡ left (no_room 8 out.old at) out.old (sets out.old at (bytes_of 8 n)) }
{
    put::<u64>(out, at, n)
}

pub fn put_i64(out: &mut [u8], at: usize, x: i64) -> Result<(), Refusal>
    ensures value { result ≡ ruling (no_room 8 out.old at) }
    ensures out_after { out.new ≡ left (no_room 8 out.old at) out.old (sets out.old at (bytes_of 8 (unsigned_of x))) }
{
    put::<i64>(out, at, x)
}
