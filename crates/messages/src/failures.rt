// What is told of a read or a write that failed.
ghost use Rattle.io.specs.Counts.{IsPrefixLen};

use crate::within;
use std::io::{Cursor, Error, Write};

// Where the number of an error begins, ` (os error 21)` behind its words, or all of them where it has none.
fn words_end(text: &[u8]) -> usize
    ensures { IsPrefixLen result text.now }
{
    let mut end = text.len();
    for i in 0..text.len() {
        if text[i] == b'(' {
            end = if 0 < i { i - 1 } else { 0 };
        }
    }
    within(end, text)
}

// An error's words in `text`, and how many bytes they take.
fn put_words(error: Error, text: &mut [u8]) -> usize {
    let mut to = Cursor::new(text);
    match write!(to, "{error}") {
        Ok(()) => to.position() as usize,
        Err(_) => 0,
    }
}

// A line of what failed and of the system's words for why.
pub fn tell_failure(fd: i32, what: &[u8], failure: Option<Error>) {
    let mut text = [0u8; 256];
    let n = match failure {
        Some(error) => put_words(error, &mut text),
        None => 0,
    };
    let m = within(n, &text);
    let k = words_end(&text[..m]);
    io::write_all(fd, what);
    io::write_all(fd, b": ");
    let j = within(k, &text);
    io::write_all(fd, &text[..j]);
    io::write_all(fd, b"\n");
}
