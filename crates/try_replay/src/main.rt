// The original's kept answers, asked of the proved functions: a line for each question. A case is how many words of 64 bits follow, the
// number of its question, the parts of its input, and the answer. Behind the last case are words 0, cases of no question.
#![tactic(auto)]

mod builds;
mod covers;
mod refs;

use try_cases::parts::{after, behind, number, part};
use try_cases::tally::Tally;
use try_cases::{granules, walks};

// Whether a case of a question agrees.
fn agrees(question: u64, words: &[u64], signed: &[i64], shorts: &[u32], bytes: &[u8]) -> bool {
    match question {
        1 => builds::build_agrees(words, shorts, bytes),
        2 => granules::read_agrees(words, signed),
        3 => granules::parents_agree(words, signed),
        4 => granules::children_agree(words, signed),
        5 => granules::label_agrees(words),
        6 => granules::roots_agree(words),
        7 => walks::walk_agrees(words, signed),
        8 => walks::next_agrees(words, signed),
        9 => covers::stored_agrees(words, shorts),
        10 => covers::decode_agrees(words, shorts),
        11 => covers::window_agrees(words, shorts),
        12 => covers::cover_agrees(words, shorts),
        13 => covers::links_agree(words, shorts),
        14 => refs::resolve_agrees(words, bytes),
        _ => refs::handed_agrees(words, bytes),
    }
}

// Adds the case at a place, if it is of the question.
fn add_case(
    t: &mut Tally,
    question: u64,
    at: usize,
    words: &[u64],
    signed: &[i64],
    shorts: &[u32],
    bytes: &[u8],
) {
    if number(words, after(at)) != question {
        return;
    }
    let from = after(after(at));
    let to = behind(words, at);
    let agree = agrees(
        question,
        part(words, from, to),
        part(signed, from, to),
        part(shorts, from, to),
        part(bytes, from, to),
    );
    t.add(agree);
}

// Replays the cases of a question, and prints its line.
fn replay(name: &[u8], question: u64, words: &[u64], signed: &[i64], shorts: &[u32], bytes: &[u8]) {
    let mut t = Tally::new();
    let mut at = 0;
    while at < words.len() {
        let to = behind(words, at);
        add_case(&mut t, question, at, words, signed, shorts, bytes);
        if to <= at {
            return;
        }
        at = to;
    }
    t.print(name);
}

// A line for each question.
fn replay_all(
    words: &[u64; 57344],
    signed: &[i64; 57344],
    shorts: &[u32; 57344],
    bytes: &[u8; 57344],
) {
    replay(b"build", 1, words, signed, shorts, bytes);
    replay(b"read", 2, words, signed, shorts, bytes);
    replay(b"parents", 3, words, signed, shorts, bytes);
    replay(b"children", 4, words, signed, shorts, bytes);
    replay(b"label", 5, words, signed, shorts, bytes);
    replay(b"roots", 6, words, signed, shorts, bytes);
    replay(b"walk", 7, words, signed, shorts, bytes);
    replay(b"next", 8, words, signed, shorts, bytes);
    replay(b"stored", 9, words, signed, shorts, bytes);
    replay(b"decode", 10, words, signed, shorts, bytes);
    replay(b"window", 11, words, signed, shorts, bytes);
    replay(b"cover", 12, words, signed, shorts, bytes);
    replay(b"links", 13, words, signed, shorts, bytes);
    replay(b"resolve", 14, words, signed, shorts, bytes);
    replay(b"handed", 15, words, signed, shorts, bytes);
}

// The low 32 and the low 8 bits of each word.
fn narrow(words: &[u64; 57344], shorts: &mut [u32; 57344], bytes: &mut [u8; 57344]) {
    for (i, word) in words.iter().enumerate() {
        shorts[i] = (word & 0xffff_ffff) as u32;
        bytes[i] = (word & 0xff) as u8;
    }
}

fn main() {
    let mut input = [0u8; 458752];
    let n = io::read_full(0, &mut input) / 8;
    let mut words = [0u64; 57344];
    let mut signed = [0i64; 57344];
    let mut shorts = [0u32; 57344];
    let mut bytes = [0u8; 57344];
    // Nothing is refused here: the input has n words, and the slices room for them.
    let _ = archive_cursor::number_columns::load_u64s(&input, 0, n, &mut words);
    let _ = archive_cursor::number_columns::load_i64s(&input, 0, n, &mut signed);
    narrow(&words, &mut shorts, &mut bytes);
    replay_all(&words, &signed, &shorts, &bytes);
}
