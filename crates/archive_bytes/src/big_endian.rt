// Numbers that have big-endian bytes of their own: unsigned ones of 4 and of 8, and signed ones of 8 in two's complement.
ghost use Rattle.std.specs.Prelude.{◌≡◌, ℕ, ◌+◌, ◌≤◌, ◌<◌, length};
ghost use Rattle.std.proofs.Common.{rules};
ghost use Rattle.std.proofs.lemmas.List.Edits.{sets};
ghost use Rattle.archive_bytes.specs.Bytes.{be, bytes_of, signed_of, unsigned_of};

use crate::{load_u32, load_u64, signed, store_u32, store_u64, unsigned};

pub trait BigEndian: Copy {
    // How many bytes a number has.
    ghost WIDTH: { ℕ };

    const WIDTH: usize;

    // The number that an unsigned one of so many bytes stands for, and back.
    ghost number_of: { ℕ → Self };

    ghost bits_of: { Self → ℕ };

    // The number at `at`.
    fn load(bytes: &[u8], at: usize) -> Self
        requires { at + WIDTH ≤ length bytes.now }
        ensures { result ≡ number_of (be WIDTH bytes.now at) };

    // Its bytes, at `at`.
    fn store(self, out: &mut [u8], at: usize)
        requires { at + WIDTH ≤ length out.old }
        ensures { out.new ≡ sets out.old at (bytes_of WIDTH (bits_of self)) };

    ghost some_bytes: { 0 < WIDTH };
}

impl BigEndian for u32 {
    ghost WIDTH = { 4 };

    const WIDTH: usize = 4;

    ghost number_of = { λ n. n };

    ghost bits_of = { λ n. n };

    fn load(bytes: &[u8], at: usize) -> u32 {
        load_u32(bytes, at) as u32
    }

    fn store(self, out: &mut [u8], at: usize) {
        store_u32(out, at, u64::from(self));
    }

    ghost some_bytes = { Prim.search rules };
}

impl BigEndian for u64 {
    ghost WIDTH = { 8 };

    const WIDTH: usize = 8;

    ghost number_of = { λ n. n };

    ghost bits_of = { λ n. n };

    fn load(bytes: &[u8], at: usize) -> u64 {
        load_u64(bytes, at)
    }

    fn store(self, out: &mut [u8], at: usize) {
        store_u64(out, at, self);
    }

    ghost some_bytes = { Prim.search rules };
}

impl BigEndian for i64 {
    ghost WIDTH = { 8 };

    const WIDTH: usize = 8;

    ghost number_of = { signed_of };

    ghost bits_of = { unsigned_of };

    fn load(bytes: &[u8], at: usize) -> i64 {
        signed(load_u64(bytes, at))
    }

    fn store(self, out: &mut [u8], at: usize) {
        store_u64(out, at, unsigned(self));
    }

    ghost some_bytes = { Prim.search rules };
}
