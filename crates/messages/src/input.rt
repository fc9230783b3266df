// An input is read to its end, or it is known that it was not.
ghost use Rattle.io.specs.Counts.{IsPrefixLen};

use std::io::{Error, Read};

// How many bytes were read, and why a read failed, if one did.
#[derive(Clone, Copy)]
pub struct Reading {
    pub count: usize,
    pub failure: Option<Error>,
}

// Reads until buf is full or the input ends, in as many reads as that takes. The first read that fails ends it: an interrupted one and one that would
// have to wait have failed too. A read that moves nothing is where the input ends.
pub fn read_whole<R: Read>(input: &mut R, buf: &mut [u8]) -> Reading
    ensures { IsPrefixLen result.count buf.new }
{
    let mut n = 0;
    while n < buf.len() {
        match input.read(&mut buf[n..]) {
            Ok(0) => break,
            Ok(k) => n += k,
            Err(e) => {
                return Reading {
                    count: n,
                    failure: Some(e),
                };
            }
        }
    }
    Reading {
        count: n,
        failure: None,
    }
}
