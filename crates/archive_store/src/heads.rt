// What stands before each body, and the body of record 1.
ghost use Rattle.std.specs.Prelude.{◌≡◌, ◌+◌, ◌^◌, ◌<◌, ◌≤◌, [], ◌∷◌, ◌++◌, length};
ghost use Rattle.std.proofs.lemmas.List.Edits.{sets};
ghost use Rattle.archive_bytes.specs.Bytes.{bytes_of};
ghost use Rattle.archive.specs.Encode.{depth_bytes};
ghost use Rattle.archive_store.specs.Lent.{start_bytes, depth_from, head_from};

use archive_bytes::number_columns::store_bytes;
use archive_bytes::{long, store_u8, store_u32, store_u64};

// The numbers of record 1: whether the depth is known, and from where to where it goes.
#[derive(Clone, Copy)]
pub struct HeadOut {
    pub first: u64,
    pub rows: u32,
    pub group: u8,
    pub known: bool,
    pub least: u64,
    pub greatest: u64,
}

// Length, version and kind of a record whose body has n bytes.
pub fn store_start(out: &mut [u8], at: usize, n: usize, kind: u8)
    requires { (at + 6 ≤ length out.old) × (2 + n < 2 ^ 32) }
    ensures { out.new ≡ sets out.old at (start_bytes kind n) }
{
    store_u32(out, at, 2 + n as u64);
    store_u8(out, at + 4, 1);
    store_u8(out, at + 5, kind);
}

fn store_front(out: &mut [u8], at: usize, first: u64, rows: u32, group: u8, n: u8)
    requires { at + 14 ≤ length out.old }
    ensures { out.new ≡ sets out.old at (bytes_of 8 first ++ (bytes_of 4 rows ++ ((group ∷ []) ++ (n ∷ [])))) }
{
    store_u64(out, at, first);
    store_u32(out, at + 8, long(rows));
    store_u8(out, at + 12, group);
    store_u8(out, at + 13, n);
}

fn store_three(out: &mut [u8], at: usize, flag: u8, least: u64, greatest: u64)
    requires { at + 17 ≤ length out.old }
    ensures { out.new ≡ sets out.old at ((flag ∷ []) ++ (bytes_of 8 least ++ bytes_of 8 greatest)) }
{
    store_u8(out, at, flag);
    store_u64(out, at + 1, least);
    store_u64(out, at + 9, greatest);
}

fn store_depth(out: &mut [u8], at: usize, known: bool, least: u64, greatest: u64)
    requires { at + 17 ≤ length out.old }
    ensures { out.new ≡ sets out.old at (depth_bytes (depth_from known least greatest)) }
{
    if known {
        store_three(out, at, 1, least, greatest);
        return;
    }
    store_three(out, at, 0, 0, 0);
}

pub fn store_head(out: &mut [u8], at: usize, h: HeadOut, s: &[u8])
    requires { (at + (31 + length s.now) ≤ length out.old) × (length s.now < 256) }
    ensures { out.new ≡ sets out.old at (head_from h s.now) }
{
    let n = s.len();
    store_front(out, at, h.first, h.rows, h.group, n as u8);
    store_bytes(s, out, at + 14);
    store_depth(out, at + 14 + n, h.known, h.least, h.greatest);
}
