// The lines of a set of the listing in lent bytes. Each function writes from `at` on and answers the place after what it wrote.
ghost use Rattle.std.specs.Prelude.{◌∷◌, map, ◌+◌, ◌*◌, ◌≤◌, length};
ghost use Rattle.lists.specs.Text.{text};
ghost use Rattle.cleaning.specs.Lines.{decimal, signed, line, set_lines};
ghost use Rattle.run_text.specs.numbers.Wrote.{Wrote};
ghost use Rattle.run_text.specs.files.Files.{columns_of, set_size};

use crate::lines::{put_deltas, put_numbers, put_word};
use crate::numbers::put_byte;

// A space and a word.
fn put_name(out: &mut [u8], at: usize, name: &[u8]) -> usize
    requires { at + (1 + length name.now) ≤ length out.old }
    ensures { Wrote (32 ∷ name.now) (1 + length name.now) out.old at out.new result }
{
    let p = put_byte(out, at, b' ');
    put_word(out, p, name)
}

fn put_offsets_line(out: &mut [u8], at: usize, name: &[u8], xs: &[u64]) -> usize
    requires { at + (9 + (length name.now + 21 * length xs.now)) ≤ length out.old }
    ensures { Wrote (line (text "offsets") (name.now ∷ map decimal xs.now)) (9 + (length name.now + 21 * length xs.now))
        out.old at out.new result }
{
    let p = put_word(out, at, b"offsets");
    let q = put_name(out, p, name);
    let r = put_numbers(out, q, xs);
    put_byte(out, r, b'\n')
}

fn put_deltas_line(out: &mut [u8], at: usize, name: &[u8], ds: &[i64]) -> usize
    requires { at + (8 + (length name.now + 21 * length ds.now)) ≤ length out.old }
    ensures { Wrote (line (text "deltas") (name.now ∷ map signed ds.now)) (8 + (length name.now + 21 * length ds.now))
        out.old at out.new result }
{
    let p = put_word(out, at, b"deltas");
    let q = put_name(out, p, name);
    let r = put_deltas(out, q, ds);
    put_byte(out, r, b'\n')
}

pub fn put_set(out: &mut [u8], at: usize, name: &[u8], offsets: &[u64], deltas: &[i64]) -> usize
    requires { at + set_size (length name.now) (length offsets.now) (length deltas.now) ≤ length out.old }
    ensures { Wrote (set_lines name.now (columns_of offsets.now deltas.now))
        (set_size (length name.now) (length offsets.now) (length deltas.now)) out.old at out.new result }
{
    let p = put_offsets_line(out, at, name, offsets);
    put_deltas_line(out, p, name, deltas)
}
