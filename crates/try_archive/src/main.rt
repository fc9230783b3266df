// Tries the reader on a good archive, on every truncation of it and on every change of one of its bytes: the counts of the archive,
// and how many of the others are accepted.
#![tactic(auto)]

ghost use Rattle.std.specs.Prelude.{◌≤◌, ◌<◌, length};

use archive_read::files::{Totals, sum_up};

// 1 where the bytes are an archive, 0 where they are refused with 23.
fn accepted(bytes: &[u8]) -> usize
    ensures { result ≤ 1 }
{
    let x = sum_up(bytes);
    match x {
        Ok(_) => 1,
        Err(_) => 0,
    }
}

// How many of the shorter beginnings are accepted.
fn truncations(bytes: &[u8]) -> usize
    ensures { result ≤ length bytes.now }
{
    let mut n = 0;
    for k in 0..bytes.len() {
        n += accepted(&bytes[..k]);
    }
    n
}

// How many values of the byte at `i` are accepted; the byte is put back.
fn changes_at(bytes: &mut [u8], i: usize) -> usize
    requires { i < length bytes.old }
    ensures { result ≤ 256 }
{
    let old = bytes[i];
    let mut n = 0;
    for v in 0..256 {
        bytes[i] = archive_bytes::narrow(v);
        n += accepted(bytes);
    }
    bytes[i] = old;
    n
}

fn print_number(n: usize) {
    io::print_decimal(1, n as u64);
    io::write_all(1, b"\n");
}

fn print_totals(t: Totals) {
    print_number(t.files);
    print_number(t.events);
    print_number(t.roots);
    print_number(t.unresolved);
    print_number(t.ranges);
    print_number(t.links);
    print_number(t.forward);
    print_number(t.reverse);
    print_number(t.inbound);
}

fn print_counts(bytes: &[u8]) {
    let x = sum_up(bytes);
    match x {
        Ok(t) => print_totals(t),
        Err(why) => print_number(why.number() as usize),
    }
}

// A line for each byte: how many values of it are accepted.
fn print_changes(bytes: &mut [u8]) {
    for i in 0..bytes.len() {
        print_number(changes_at(bytes, i));
    }
}

fn main() {
    let mut buf = [0u8; 4096];
    let n = io::read_full(0, &mut buf);
    if n <= 4096 {
        print_counts(&buf[..n]);
        print_number(truncations(&buf[..n]));
        print_changes(&mut buf[..n]);
    }
}
