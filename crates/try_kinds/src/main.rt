// Asks the column functions for two kinds and for three: the same events with and without a third list, read, asked for parents and children, and walked.
#![tactic(auto)]

use columns::kind::{Kind, Kinds};
use columns::refusal::Refusal;
use columns::set::Set;

// A number and a space.
fn print_number(n: u64) {
    io::print_decimal(1, n);
    io::write_all(1, b" ");
}

// The first n numbers, or as many as there are.
fn print_first(list: &[u64], n: usize) {
    for i in 0..n {
        if i < list.len() {
            print_number(list[i]);
        }
    }
}

// A line: how many numbers were answered and which, or the refusal's number.
fn print_answer(answer: Result<usize, Refusal>, out: &[u64]) {
    match answer {
        Ok(n) => {
            print_number(n as u64);
            io::write_all(1, b": ");
            print_first(out, n);
        }
        Err(why) => {
            io::write_all(1, b"refused ");
            print_number(why.number());
        }
    }
    io::write_all(1, b"\n");
}

// Reads a set of three rows from 10 on, then asks it for the parents of 11, prev and auth.
fn ask(kinds: Kinds, count: u64, offsets: &[u64], deltas: &[i64]) {
    let mut out = [0u64; 4096];
    let read = columns_read::sets::decode_csr(
        kinds,
        Set::Forward,
        10,
        3,
        13,
        count,
        offsets,
        deltas,
        &mut out,
    );
    print_answer(read, &out);
    let prev = columns_ask::parents(
        kinds,
        10,
        3,
        13,
        count,
        offsets,
        deltas,
        Kind::Prev,
        11,
        &mut out,
    );
    print_answer(prev, &out);
    let auth = columns_ask::parents(
        kinds,
        10,
        3,
        13,
        count,
        offsets,
        deltas,
        Kind::Auth,
        11,
        &mut out,
    );
    print_answer(auth, &out);
    let level = columns_walk::level::next(
        kinds,
        10,
        3,
        13,
        count,
        offsets,
        deltas,
        Kind::Prev,
        10,
        &[12u64; 1],
        &[12u64; 1],
        &mut out,
    );
    print_answer(level, &out);
}

fn main() {
    // event 10 names 6 by prev; 11 names 10 by prev and 6 by auth; 12 names 11 by prev
    let two: [u64; 7] = [0, 1, 1, 2, 3, 4, 4];
    let of_two: [i64; 4] = [4, 1, 5, 1];
    ask(Kinds::Two, 4, &two, &of_two);
    // and 11 names 10 by a third kind
    let three: [u64; 10] = [0, 1, 1, 1, 2, 3, 4, 5, 5, 5];
    let of_three: [i64; 5] = [4, 1, 5, 1, 1];
    ask(Kinds::Three, 5, &three, &of_three);
    // offsets for three kinds are not those of two, nor the other way round
    ask(Kinds::Two, 5, &three, &of_three);
    ask(Kinds::Three, 4, &two, &of_two);
}
