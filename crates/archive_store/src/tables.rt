// Tables of records 3 to 6: rows, unresolved references, roots and ranges, each from columns side by side.
ghost use Rattle.std.specs.Prelude.{◌≡◌, ◌+◌, ◌*◌, ◌≤◌, not, length, ◌==◌};
ghost use Rattle.std.proofs.lemmas.List.Edits.{sets};
ghost use Rattle.lists.specs.Lists.{flat};
ghost use Rattle.archive.specs.Encode.{flag_of, row_bytes, unresolved_bytes, root_bytes, range_bytes};
ghost use Rattle.archive_store.specs.Lent.{zip2, zip3, row_from, unresolved_from, root_from, range_from};

use archive_bytes::{long, store_u8, store_u32, store_u64};

fn flag_byte(x: u8) -> u8
    ensures { result ≡ flag_of (not (x == 0)) }
{
    if x == 0 {
        return 0;
    }
    1
}

pub fn store_row(out: &mut [u8], at: usize, flag: u8, tag: u64)
    requires { at + 9 ≤ length out.old }
    ensures { out.new ≡ sets out.old at (row_bytes (row_from flag tag)) }
{
    store_u8(out, at, flag_byte(flag));
    store_u64(out, at + 1, tag);
}

pub fn store_rows(out: &mut [u8], at: usize, flags: &[u8], tags: &[u64])
    requires { (length flags.now ≡ length tags.now) × (at + length tags.now * 9 ≤ length out.old) }
    ensures { out.new ≡ sets out.old at (flat row_bytes (zip2 row_from flags.now tags.now)) }
{
    let mut p = at;
    for i in 0..tags.len() {
        store_row(out, p, flags[i], tags[i]);
        p += 9;
    }
}

pub fn store_one(out: &mut [u8], at: usize, child: u64, kind: u8, handle: u32)
    requires { at + 13 ≤ length out.old }
    ensures { out.new ≡ sets out.old at (unresolved_bytes (unresolved_from child kind handle)) }
{
    store_u64(out, at, child);
    store_u8(out, at + 8, kind);
    store_u32(out, at + 9, long(handle));
}

pub fn store_unresolved(out: &mut [u8], at: usize, children: &[u64], kinds: &[u8], handles: &[u32])
    requires { (length kinds.now ≡ length children.now) × (length handles.now ≡ length children.now) × (at + length children.now * 13 ≤ length out.old) }
    ensures { out.new ≡ sets out.old at (flat unresolved_bytes (zip3 unresolved_from children.now kinds.now handles.now)) }
{
    let mut p = at;
    for i in 0..children.len() {
        store_one(out, p, children[i], kinds[i], handles[i]);
        p += 13;
    }
}

pub fn store_root(out: &mut [u8], at: usize, row: u64, handle: u64)
    requires { at + 16 ≤ length out.old }
    ensures { out.new ≡ sets out.old at (root_bytes (root_from row handle)) }
{
    store_u64(out, at, row);
    store_u64(out, at + 8, handle);
}

pub fn store_roots(out: &mut [u8], at: usize, rows: &[u64], handles: &[u64])
    requires { (length handles.now ≡ length rows.now) × (at + length rows.now * 16 ≤ length out.old) }
    ensures { out.new ≡ sets out.old at (flat root_bytes (zip2 root_from rows.now handles.now)) }
{
    let mut p = at;
    for i in 0..rows.len() {
        store_root(out, p, rows[i], handles[i]);
        p += 16;
    }
}

fn store_range(out: &mut [u8], at: usize, chain: u32, least: u32, greatest: u32)
    requires { at + 12 ≤ length out.old }
    ensures { out.new ≡ sets out.old at (range_bytes (range_from chain least greatest)) }
{
    store_u32(out, at, long(chain));
    store_u32(out, at + 4, long(least));
    store_u32(out, at + 8, long(greatest));
}

pub fn store_ranges(out: &mut [u8], at: usize, ids: &[u32], minima: &[u32], maxima: &[u32])
    requires { (length minima.now ≡ length ids.now) × (length maxima.now ≡ length ids.now) × (at + length ids.now * 12 ≤ length out.old) }
    ensures { out.new ≡ sets out.old at (flat range_bytes (zip3 range_from ids.now minima.now maxima.now)) }
{
    let mut p = at;
    for i in 0..ids.len() {
        store_range(out, p, ids[i], minima[i], maxima[i]);
        p += 12;
    }
}
