// What the programs share: room for an archive and how it is read, and what they tell of a refusal, of a failure and of a count.
#![tactic(auto)]

pub mod failures;
pub mod input;
pub mod words;

ghost use Rattle.std.specs.Prelude.{◌≡◌, length};
ghost use Rattle.io.specs.Counts.{IsPrefixLen};

use columns::refusal::Refusal;

// Where a program answers, and where it tells what went wrong.
pub const STANDARD_OUTPUT: i32 = 1;

pub const STANDARD_ERROR: i32 = 2;

// Room for an archive as it is read, and one byte more by which a longer one is told. An archive with a row in every file has at most 606,208
// bytes.
pub fn input_room() -> [u8; 655361]
    ensures { 655361 ≡ length result }
{
    [0; 655361]
}

// Room for a cleaned archive: none is longer.
pub fn output_room() -> [u8; 196448]
    ensures { 196448 ≡ length result }
{
    [0; 196448]
}

// Room for a listing: none is longer.
pub fn text_room() -> [u8; 437792]
    ensures { 437792 ≡ length result }
{
    [0; 437792]
}

// A number of buf's bytes: n, which is never more than they are.
pub fn within(n: usize, buf: &[u8]) -> usize
    ensures { IsPrefixLen result buf.now }
{
    if n < buf.len() { n } else { buf.len() }
}

// What a refusal means.
fn tell_words(fd: i32, refusal: Refusal) {
    let mut text = [0u8; 120];
    let n = crate::words::words(refusal, &mut text, 0);
    io::write_all(fd, &text[..n]);
}

// `refused 25: ` and what the number means, in one line.
pub fn tell_refusal(fd: i32, refusal: Refusal) {
    io::write_all(fd, b"refused ");
    io::print_decimal(fd, refusal.number());
    io::write_all(fd, b": ");
    tell_words(fd, refusal);
    io::write_all(fd, b"\n");
}

// A number after the words that say of what.
pub fn tell_count(fd: i32, what: &[u8], n: usize) {
    io::write_all(fd, what);
    io::print_decimal(fd, n as u64);
}
