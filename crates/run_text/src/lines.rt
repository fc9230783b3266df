// The short lines of the listing in lent bytes, and columns of numbers as words. Each function writes from `at` on and answers the place after
// what it wrote.
ghost use Rattle.std.specs.Prelude.{◌∷◌, [], map, ◌+◌, ◌*◌, ◌≤◌, length};
ghost use Rattle.lists.specs.Text.{text};
ghost use Rattle.cleaning.specs.Lines.{decimal, signed, line, refused_line};
ghost use Rattle.run_text.specs.numbers.Wrote.{Wrote};
ghost use Rattle.run_text.specs.lines.Parts.{spaced, new_text, map_text, head_text};

use crate::numbers::{put_byte, put_decimal, put_signed};
use archive_bytes::number_columns::store_bytes;
use columns::refusal::Refusal;

// ── parts of a line ──────────────────────────────────────────────────────────────────────────

pub fn put_word(out: &mut [u8], at: usize, word: &[u8]) -> usize
    requires { at + length word.now ≤ length out.old }
    ensures { Wrote word.now (length word.now) out.old at out.new result }
{
    store_bytes(word, out, at);
    at + word.len()
}

// A space and a number.
fn put_number(out: &mut [u8], at: usize, n: u64) -> usize
    requires { at + 21 ≤ length out.old }
    ensures { Wrote (32 ∷ decimal n) 21 out.old at out.new result }
{
    let p = put_byte(out, at, b' ');
    put_decimal(out, p, n)
}

fn put_delta(out: &mut [u8], at: usize, d: i64) -> usize
    requires { at + 21 ≤ length out.old }
    ensures { Wrote (32 ∷ signed d) 21 out.old at out.new result }
{
    let p = put_byte(out, at, b' ');
    put_signed(out, p, d)
}

// ── columns ──────────────────────────────────────────────────────────────────────────────────

pub fn put_numbers(out: &mut [u8], at: usize, xs: &[u64]) -> usize
    requires { at + 21 * length xs.now ≤ length out.old }
    ensures { Wrote (spaced (map decimal xs.now)) (21 * length xs.now) out.old at out.new result }
{
    let mut p = at;
    for &x in xs {
        p = put_number(out, p, x);
    }
    p
}

pub fn put_deltas(out: &mut [u8], at: usize, ds: &[i64]) -> usize
    requires { at + 21 * length ds.now ≤ length out.old }
    ensures { Wrote (spaced (map signed ds.now)) (21 * length ds.now) out.old at out.new result }
{
    let mut p = at;
    for &d in ds {
        p = put_delta(out, p, d);
    }
    p
}

// ── lines ────────────────────────────────────────────────────────────────────────────────────

// A word and a number.
fn put_line(out: &mut [u8], at: usize, word: &[u8], n: u64) -> usize
    requires { at + (length word.now + 22) ≤ length out.old }
    ensures { Wrote (line word.now (decimal n ∷ [])) (length word.now + 22) out.old at out.new result }
{
    let p = put_word(out, at, word);
    let q = put_number(out, p, n);
    put_byte(out, q, b'\n')
}

pub fn put_refused(out: &mut [u8], at: usize, refusal: Refusal) -> usize
    requires { at + 29 ≤ length out.old }
    ensures { Wrote (refused_line refusal) 29 out.old at out.new result }
{
    put_line(out, at, b"refused", refusal.number())
}

// How many survivors were reparented.
pub fn put_reparented(out: &mut [u8], at: usize, n: usize) -> usize
    requires { at + 32 ≤ length out.old }
    ensures { Wrote (line (text "reparented") (decimal n ∷ [])) 32 out.old at out.new result }
{
    put_line(out, at, b"reparented", n as u64)
}

// A new number, or a dash for an erased event.
fn put_new(out: &mut [u8], at: usize, erased: bool, new: u64) -> usize
    requires { at + 21 ≤ length out.old }
    ensures { Wrote (32 ∷ new_text erased new) 21 out.old at out.new result }
{
    if erased {
        return put_word(out, at, b" -");
    }
    put_number(out, at, new)
}

// The old number of an event, and its new one.
pub fn put_map(out: &mut [u8], at: usize, old: u64, erased: bool, new: u64) -> usize
    requires { at + 46 ≤ length out.old }
    ensures { Wrote (map_text old erased new) 46 out.old at out.new result }
{
    let p = put_word(out, at, b"map");
    let q = put_number(out, p, old);
    let r = put_new(out, q, erased, new);
    put_byte(out, r, b'\n')
}

// What a file's lines begin with: its group, its first number and its rows.
pub fn put_head(out: &mut [u8], at: usize, group: u64, first: u64, rows: usize) -> usize
    requires { at + 68 ≤ length out.old }
    ensures { Wrote (head_text group first rows) 68 out.old at out.new result }
{
    let p = put_word(out, at, b"file");
    let q = put_number(out, p, group);
    let r = put_number(out, q, first);
    let s = put_number(out, r, rows as u64);
    put_byte(out, s, b'\n')
}
