// The rows of a run, their labels and their flags, grown by those of every file of an archive, in place.
ghost use Rattle.std.specs.Prelude.{◌≡◌, map, ◌+◌, ◌*◌, ◌≤◌, length};
ghost use Rattle.std.proofs.lemmas.List.Edits.{sets};
ghost use Rattle.archive_bytes.specs.Bytes.{several, column};
ghost use Rattle.archive.specs.Parse.{row_at};
ghost use Rattle.archive_read.specs.Layout.{part_in, tail_in, file_in, Holds, HoldsCover, HoldsTail, HoldsFile};
ghost use Rattle.run_store.specs.grow.Column.{bit};
ghost use Rattle.run_store.specs.turns.Parts.{stored, Accepted};
ghost use Rattle.run_state.specs.ByColumns.{rows_of};
ghost use Rattle.run_store.specs.rows.Rows.{rows_more, chains_more, seqs_more};

use crate::grow::{fill, put_flags, put_numbers};
use crate::turns::next;
use archive_read::records::{FileAt, Part, TailAt, file_at};
use run_state::{Held, Rows};

// The labels of n rows from a place on.
fn put_labels(chains: &mut [u32; 1024], seqs: &mut [u32; 1024], at: usize, n: usize, bytes: &[u8])
    requires { (at + n ≤ 1024) × (n * 4 + n * 4 ≤ length bytes.now) }
    ensures chains_after { chains.new ≡ sets chains.old at (column 4 n bytes.now 0) }
    ensures seqs_after { seqs.new ≡ sets seqs.old at (column 4 n bytes.now (n * 4)) }
{
    put_numbers(chains, at, bytes, 0, 4, 0, n);
    put_numbers(seqs, at, bytes, n * 4, 4, 0, n);
}

// The labels of a cover.
fn cover_labels(
    chains: &mut [u32; 1024],
    seqs: &mut [u32; 1024],
    at: usize,
    n: usize,
    bytes: &[u8],
    t: TailAt,
)
    requires { HoldsCover bytes.now n t.cover t.body × (at + n ≤ 1024) }
    ensures chains_after { chains.new ≡ sets chains.old at (column 4 n (part_in bytes.now t.body) 0) }
    ensures seqs_after { seqs.new ≡ sets seqs.old at (column 4 n (part_in bytes.now t.body) (n * 4)) }
{
    let a = t.body;
    let start = a.at;
    let end = a.end;
    put_labels(chains, seqs, at, n, &bytes[start..end]);
}

// The same where there is a cover.
fn add_labels(
    chains: &mut [u32; 1024],
    seqs: &mut [u32; 1024],
    at: usize,
    n: usize,
    bytes: &[u8],
    t: TailAt,
)
    requires { HoldsTail bytes.now n t × (at + n ≤ 1024) }
    ensures chains_after { chains.new ≡ chains_more chains.old at (tail_in bytes.now n t).cover }
    ensures seqs_after { seqs.new ≡ seqs_more seqs.old at (tail_in bytes.now n t).cover }
{
    if !t.covered {
        return;
    }
    cover_labels(chains, seqs, at, n, bytes, t);
}

// The tags of n rows.
fn add_tags(out: &mut [u64; 1024], at: usize, n: usize, bytes: &[u8], a: Part)
    requires { Holds bytes.now a (n * 9) × (at + n ≤ 1024) }
    ensures { out.new ≡ sets out.old at (map (λ r. r.tag) (several 9 row_at n (part_in bytes.now a))) }
{
    let start = a.at;
    let end = a.end;
    put_numbers(out, at, &bytes[start..end], 0, 9, 1, n);
}

// The erased flags of n rows.
fn add_flags(out: &mut [u8; 1024], at: usize, n: usize, bytes: &[u8], a: Part)
    requires { Holds bytes.now a (n * 9) × (at + n ≤ 1024) }
    ensures { out.new ≡ sets out.old at (map (λ r. bit r.erased) (several 9 row_at n (part_in bytes.now a))) }
{
    let start = a.at;
    let end = a.end;
    put_flags(out, at, &bytes[start..end], 0, 9, n);
}

// The rows of a file, after c others.
fn add_rows(
    groups: &mut [u8; 1024],
    tags: &mut [u64; 1024],
    chains: &mut [u32; 1024],
    seqs: &mut [u32; 1024],
    c: usize,
    bytes: &[u8],
    f: FileAt,
)
    requires { HoldsFile bytes.now f × (c + f.front.head.rows ≤ 1024) }
    ensures { rows_of (c + f.front.head.rows) groups.new tags.new chains.new seqs.new
        ≡ rows_more (rows_of c groups.old tags.old chains.old seqs.old) (file_in bytes.now f) }
{
    let a = f.front;
    let d = a.head;
    let m = f.middle;
    let n = d.rows as usize;
    fill(groups, c, n, d.group);
    add_tags(tags, c, n, bytes, m.rows);
    add_labels(chains, seqs, c, n, bytes, f.tail);
}

// The rows that are held, with those of the files of an archive more, in lent columns. `h` is what the contract speaks of: no
// column of it is read.
pub fn grow_rows(
    h: Held,
    groups: &mut [u8; 1024],
    tags: &mut [u64; 1024],
    chains: &mut [u32; 1024],
    seqs: &mut [u32; 1024],
    count: usize,
    bytes: &[u8],
) -> usize
    requires { Accepted h bytes.now × (rows_of count groups.old tags.old chains.old seqs.old ≡ h.sheet.rows) }
    ensures { rows_of result groups.new tags.new chains.new seqs.new ≡ (stored h bytes.now).rows }
{
    let mut c = count;
    let mut k: usize = 0;
    let mut p = 0;
    // No `for`: p moves by a file's size.
    while p < bytes.len() {
        let x = file_at(bytes, p);
        let Some(f) = x else {
            break;
        };
        add_rows(groups, tags, chains, seqs, c, bytes, f);
        let a = f.front;
        let d = a.head;
        c += d.rows as usize;
        let t = f.tail;
        p = t.end;
        k = next(h, k, p);
    }
    c
}

// The same by value.
pub fn store_rows(h: Held, bytes: &[u8]) -> Rows
    requires { Accepted h bytes.now }
    ensures { result ≡ (stored h bytes.now).rows }
{
    let mut groups = h.sheet.rows.groups;
    let mut tags = h.sheet.rows.tags;
    let mut chains = h.sheet.rows.chains;
    let mut seqs = h.sheet.rows.seqs;
    let c = grow_rows(
        h,
        &mut groups,
        &mut tags,
        &mut chains,
        &mut seqs,
        h.sheet.rows.count,
        bytes,
    );
    Rows {
        count: c,
        groups,
        tags,
        chains,
        seqs,
    }
}

// The flags that are held, with those of the files of an archive more, in a lent column.
pub fn grow_flags(h: Held, flags: &mut [u8; 1024], rows: usize, bytes: &[u8])
    requires { Accepted h bytes.now × ((flags.old ≡ h.erased) × (rows ≡ h.sheet.rows.count)) }
    ensures { flags.new ≡ (stored h bytes.now).erased }
{
    let mut c = rows;
    let mut k: usize = 0;
    let mut p = 0;
    // No `for`: p moves by a file's size.
    while p < bytes.len() {
        let x = file_at(bytes, p);
        let Some(f) = x else {
            break;
        };
        let a = f.front;
        let d = a.head;
        let n = d.rows as usize;
        let m = f.middle;
        add_flags(flags, c, n, bytes, m.rows);
        c += n;
        let t = f.tail;
        p = t.end;
        k = next(h, k, p);
    }
}

// The same by value.
pub fn store_flags(h: Held, bytes: &[u8]) -> [u8; 1024]
    requires { Accepted h bytes.now }
    ensures { result ≡ (stored h bytes.now).erased }
{
    let mut flags = h.erased;
    grow_flags(h, &mut flags, h.sheet.rows.count, bytes);
    flags
}
