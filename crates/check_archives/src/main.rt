// Opens every archive that its arguments name and says of each, in a line, whether it is accepted: taken, resolved and written. It goes on after a
// bad one, and ends with how many were accepted, refused and not read.
#![tactic(auto)]

ghost use Rattle.io.specs.Counts.{IsPrefixLen};

use archive_read::files::sum_up;
use columns::refusal::Refusal;
use messages::STANDARD_OUTPUT;
use messages::input::{Reading, read_whole};
use std::env::FillError;
use std::io::Read;
use std::rt::{Env, Files};
use std::{fs, str};

#[derive(Clone, Copy)]
enum Outcome {
    Accepted,
    Refused,
    Unread,
}

// How many events an archive has.
fn events_of(bytes: &[u8]) -> usize {
    let x = sum_up(bytes);
    match x {
        Ok(t) => t.events,
        Err(_) => 0,
    }
}

fn files_of(bytes: &[u8]) -> usize {
    let x = sum_up(bytes);
    match x {
        Ok(t) => t.files,
        Err(_) => 0,
    }
}

fn less(a: usize, b: usize) -> usize {
    if a < b {
        return 0;
    }
    a - b
}

// What an accepted archive holds. The rows of the cleaned archive are the survivors.
fn tell_accepted(bytes: &[u8], cleaned: &[u8]) {
    let events = events_of(bytes);
    let survivors = events_of(cleaned);
    messages::tell_count(STANDARD_OUTPUT, b"accepted: files ", files_of(bytes));
    messages::tell_count(STANDARD_OUTPUT, b", events ", events);
    messages::tell_count(STANDARD_OUTPUT, b", erased ", less(events, survivors));
    messages::tell_count(STANDARD_OUTPUT, b", survivors ", survivors);
    io::write_all(STANDARD_OUTPUT, b"\n");
}

fn check_bytes(bytes: &[u8]) -> Outcome {
    let mut out = messages::output_room();
    let r = run_clean::clean(bytes, &mut out);
    match r {
        Err(x) => {
            messages::tell_refusal(STANDARD_OUTPUT, x);
            Outcome::Refused
        }
        Ok(n) => {
            let m = messages::within(n, &out);
            tell_accepted(bytes, &out[..m]);
            Outcome::Accepted
        }
    }
}

fn unread() -> Outcome {
    io::write_all(STANDARD_OUTPUT, b"cannot be read\n");
    Outcome::Unread
}

// Reads an open file, and closes it.
fn read_file<F: Read + Drop>(file: F, input: &mut [u8]) -> Reading
    ensures { IsPrefixLen result.count input.new }
{
    let mut file = file;
    read_whole(&mut file, input)
}

// Reads an open file, of at most 655,360 bytes, and checks it.
fn check_file<F: Read + Drop>(file: F) -> Outcome {
    let mut input = messages::input_room();
    let r = read_file(file, &mut input);
    if r.failure.is_some() {
        return unread();
    }
    let n = r.count;
    if 655360 < n {
        messages::tell_refusal(STANDARD_OUTPUT, Refusal::SliceShort);
        return Outcome::Refused;
    }
    check_bytes(&input[..n])
}

fn check_named(rt: &impl Files, path: &[u8]) -> Outcome {
    io::write_all(STANDARD_OUTPUT, path);
    io::write_all(STANDARD_OUTPUT, b": ");
    match str::from_utf8(path) {
        Ok(name) => match fs::open(rt, name) {
            Ok(file) => check_file(file),
            Err(_) => unread(),
        },
        Err(_) => unread(),
    }
}

// The archive that argument i names, or nothing where there are no more arguments.
fn check_argument(rt: &(impl Files + Env), i: usize) -> Option<Outcome> {
    let mut path = io::buffer();
    match rt.arg(i, &mut path) {
        Ok(n) => Some(check_named(rt, &path[..n])),
        Err(FillError::TooLong) => {
            io::write_all(STANDARD_OUTPUT, b"an argument cannot be read\n");
            Some(Outcome::Unread)
        }
        Err(FillError::NotPresent) => None,
    }
}

fn has_arguments(rt: &impl Env) -> bool {
    let mut path = io::buffer();
    match rt.arg(1, &mut path) {
        Ok(_) => true,
        Err(FillError::TooLong) => true,
        Err(FillError::NotPresent) => false,
    }
}

// The three counts.
#[derive(Clone, Copy)]
struct Tally {
    accepted: u64,
    refused: u64,
    unread: u64,
}

fn one_more(n: u64) -> u64 {
    std::num::wrapping_add_u64(n, 1)
}

fn counted(t: Tally, o: Outcome) -> Tally {
    match o {
        Outcome::Accepted => Tally {
            accepted: one_more(t.accepted),
            refused: t.refused,
            unread: t.unread,
        },
        Outcome::Refused => Tally {
            accepted: t.accepted,
            refused: one_more(t.refused),
            unread: t.unread,
        },
        Outcome::Unread => Tally {
            accepted: t.accepted,
            refused: t.refused,
            unread: one_more(t.unread),
        },
    }
}

fn check_all(rt: &(impl Files + Env)) -> Tally {
    let mut t = Tally {
        accepted: 0,
        refused: 0,
        unread: 0,
    };
    for i in 1..usize::MAX {
        match check_argument(rt, i) {
            Some(o) => t = counted(t, o),
            None => break,
        }
    }
    t
}

fn main(rt: HostRuntime) {
    if !has_arguments(&rt) {
        io::write_all(
            STANDARD_OUTPUT,
            b"check_archives ARCHIVE..: says of each archive whether it is accepted\n",
        );
        return;
    }
    let t = check_all(&rt);
    io::print_decimal(STANDARD_OUTPUT, t.accepted);
    io::write_all(STANDARD_OUTPUT, b" accepted, ");
    io::print_decimal(STANDARD_OUTPUT, t.refused);
    io::write_all(STANDARD_OUTPUT, b" refused, ");
    io::print_decimal(STANDARD_OUTPUT, t.unread);
    io::write_all(STANDARD_OUTPUT, b" not read\n");
}
