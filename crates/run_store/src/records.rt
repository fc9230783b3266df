// The unresolved references and state roots of a run, grown by those of every file of an archive, in place.
ghost use Rattle.std.specs.Prelude.{◌≡◌, ◌+◌, ◌*◌, ◌≤◌, length, drop};
ghost use Rattle.archive_bytes.specs.Bytes.{be, several};
ghost use Rattle.archive.specs.Parse.{unresolved_at, root_at};
ghost use Rattle.archive_read.specs.Layout.{part_in, Holds};
ghost use Rattle.run_store.specs.grow.Column.{Small};
ghost use Rattle.run_store.specs.parts.Grown.{unresolved_with, roots_with};
ghost use Rattle.run_store.specs.turns.Parts.{stored, Accepted};
ghost use Rattle.run_state.specs.ByColumns.{unresolved_of, roots_of};

use crate::grow::{put_moved, put_numbers};
use crate::turns::next;
use archive_read::records::{MiddleAt, TailAt, file_at};
use run_state::{Held, Roots, Unresolved};

// n unresolved references, after c others.
fn put_unresolved(
    children: &mut [u64; 1024],
    kinds: &mut [u8; 1024],
    handles: &mut [u32; 1024],
    c: usize,
    n: usize,
    bytes: &[u8],
)
    requires { (c + n ≤ 1024) × (4 + n * 13 ≤ length bytes.now) }
    ensures { unresolved_of (c + n) children.new kinds.new handles.new
        ≡ unresolved_with (unresolved_of c children.old kinds.old handles.old) (several 13 unresolved_at n (drop 4 bytes.now)) }
{
    put_numbers(children, c, bytes, 4, 13, 0, n);
    put_numbers(kinds, c, bytes, 4, 13, 8, n);
    put_numbers(handles, c, bytes, 4, 13, 9, n);
}

// Those of a file.
fn add_unresolved(
    children: &mut [u64; 1024],
    kinds: &mut [u8; 1024],
    handles: &mut [u32; 1024],
    c: usize,
    bytes: &[u8],
    m: MiddleAt,
)
    requires { Holds bytes.now m.unresolved (4 + m.count * 13) × (c + m.count ≤ 1024) }
    ensures { unresolved_of (c + m.count) children.new kinds.new handles.new
        ≡ unresolved_with (unresolved_of c children.old kinds.old handles.old)
        (several 13 unresolved_at m.count (drop 4 (part_in bytes.now m.unresolved))) }
{
    let a = m.unresolved;
    let at = a.at;
    let end = a.end;
    put_unresolved(children, kinds, handles, c, m.count, &bytes[at..end]);
}

// The unresolved references that are held, with those of the files of an archive more, in lent columns. `h` is what the contract
// speaks of: no column of it is read.
pub fn grow_unresolved(
    h: Held,
    children: &mut [u64; 1024],
    kinds: &mut [u8; 1024],
    handles: &mut [u32; 1024],
    count: usize,
    bytes: &[u8],
) -> usize
    requires { Accepted h bytes.now × (unresolved_of count children.old kinds.old handles.old ≡ h.sheet.unresolved) }
    ensures { unresolved_of result children.new kinds.new handles.new ≡ (stored h bytes.now).unresolved }
{
    let mut c = count;
    let mut k: usize = 0;
    let mut p = 0;
    // No `for`: p moves by a file's size.
    while p < bytes.len() {
        let x = file_at(bytes, p);
        let Some(f) = x else {
            break;
        };
        let m = f.middle;
        add_unresolved(children, kinds, handles, c, bytes, m);
        c += m.count;
        let t = f.tail;
        p = t.end;
        k = next(h, k, p);
    }
    c
}

// The same by value.
pub fn store_unresolved(h: Held, bytes: &[u8]) -> Unresolved
    requires { Accepted h bytes.now }
    ensures { result ≡ (stored h bytes.now).unresolved }
{
    let mut children = h.sheet.unresolved.children;
    let mut kinds = h.sheet.unresolved.kinds;
    let mut handles = h.sheet.unresolved.handles;
    let c = grow_unresolved(
        h,
        &mut children,
        &mut kinds,
        &mut handles,
        h.sheet.unresolved.count,
        bytes,
    );
    Unresolved {
        count: c,
        children,
        kinds,
        handles,
    }
}

// n state roots, after c others, of rows that stand after `before` others.
fn put_roots(
    rows: &mut [u64; 1024],
    handles: &mut [u64; 1024],
    c: usize,
    before: usize,
    n: usize,
    bytes: &[u8],
)
    requires n_bound { (c + n ≤ 1024) × ((before ≤ 1024) × (4 + n * 16 ≤ length bytes.now)) }
    requires small { Small (several 16 (λ l. be 8 l 0) n (drop 4 bytes.now)) }
    ensures { roots_of (c + n) rows.new handles.new
        ≡ roots_with (roots_of c rows.old handles.old) before (several 16 root_at n (drop 4 bytes.now)) }
{
    put_moved(rows, c, bytes, 4, 16, 0, n, before as u64);
    put_numbers(handles, c, bytes, 4, 16, 8, n);
}

// Those of a file.
fn add_roots(
    rows: &mut [u64; 1024],
    handles: &mut [u64; 1024],
    c: usize,
    before: usize,
    bytes: &[u8],
    t: TailAt,
)
    requires holds { Holds bytes.now t.roots (4 + t.count * 16) × ((c + t.count ≤ 1024) × (before ≤ 1024)) }
    requires small { Small (several 16 (λ l. be 8 l 0) t.count (drop 4 (part_in bytes.now t.roots))) }
    ensures { roots_of (c + t.count) rows.new handles.new
        ≡ roots_with (roots_of c rows.old handles.old) before (several 16 root_at t.count (drop 4 (part_in bytes.now t.roots))) }
{
    let a = t.roots;
    let at = a.at;
    let end = a.end;
    put_roots(rows, handles, c, before, t.count, &bytes[at..end]);
}

// The roots that are held, with those of the files of an archive more, in lent columns; `before` rows are held.
pub fn grow_roots(
    h: Held,
    rows: &mut [u64; 1024],
    handles: &mut [u64; 1024],
    count: usize,
    before: usize,
    bytes: &[u8],
) -> usize
    requires { Accepted h bytes.now × ((roots_of count rows.old handles.old ≡ h.sheet.roots) × (before ≡ h.sheet.rows.count)) }
    ensures { roots_of result rows.new handles.new ≡ (stored h bytes.now).roots }
{
    let mut c = count;
    let mut n = before;
    let mut k: usize = 0;
    let mut p = 0;
    // No `for`: p moves by a file's size.
    while p < bytes.len() {
        let x = file_at(bytes, p);
        let Some(f) = x else {
            break;
        };
        let t = f.tail;
        add_roots(rows, handles, c, n, bytes, t);
        c += t.count;
        let a = f.front;
        let d = a.head;
        n += d.rows as usize;
        p = t.end;
        k = next(h, k, p);
    }
    c
}

// The same by value.
pub fn store_roots(h: Held, bytes: &[u8]) -> Roots
    requires { Accepted h bytes.now }
    ensures { result ≡ (stored h bytes.now).roots }
{
    let mut rows = h.sheet.roots.rows;
    let mut handles = h.sheet.roots.handles;
    let c = grow_roots(
        h,
        &mut rows,
        &mut handles,
        h.sheet.roots.count,
        h.sheet.rows.count,
        bytes,
    );
    Roots {
        count: c,
        rows,
        handles,
    }
}
