// The links of a run, grown by those of every file of an archive, in place.
ghost use Rattle.std.specs.Prelude.{◌≡◌, true, ◌+◌, ◌*◌, ◌≤◌, length};
ghost use Rattle.std.proofs.lemmas.List.Edits.{sets};
ghost use Rattle.archive_bytes.specs.Bytes.{column};
ghost use Rattle.cover.specs.Cover.{sums, sums_fit};
ghost use Rattle.archive_read.specs.bodies.View.{cover_in};
ghost use Rattle.archive_read.specs.Layout.{part_in, tail_in, HoldsCover, HoldsTail, Uncovers};
ghost use Rattle.run_store.specs.joined.Joined.{links_more};
ghost use Rattle.run_store.specs.file.Fits.{SumsIn};
ghost use Rattle.run_store.specs.turns.Parts.{stored, Accepted};
ghost use Rattle.run_state.specs.ByColumns.{links_of};
ghost use Rattle.run_store.specs.links.Columns.{EndsMore};

use crate::grow::{fill, put_numbers, put_sums};
use crate::turns::next;
use archive_read::records::{FileAt, TailAt, file_at};
use run_state::{Ends, Held, Links};

// The ends of n links, after those of c others, by four columns that start at `at`.
fn put_ends(
    chains: &mut [u32; 1024],
    seqs: &mut [u32; 1024],
    tochains: &mut [u32; 1024],
    toseqs: &mut [u32; 1024],
    c: usize,
    at: usize,
    n: usize,
    bytes: &[u8],
)
    requires n_bound { (c + n ≤ 1024) × (at + n * 4 + n * 4 + n * 4 + n * 4 ≤ length bytes.now) }
    requires at_value { sums_fit (column 4 n bytes.now at) ≡ true }
    ensures chains_after { chains.new ≡ sets chains.old c (sums 0 (column 4 n bytes.now at)) }
    ensures seqs_after { seqs.new ≡ sets seqs.old c (column 4 n bytes.now (at + n * 4)) }
    ensures tochains_after { tochains.new ≡ sets tochains.old c (column 4 n bytes.now (at + n * 4 + n * 4)) }
    ensures toseqs_after { toseqs.new ≡ sets toseqs.old c (column 4 n bytes.now (at + n * 4 + n * 4 + n * 4)) }
{
    put_sums(chains, c, bytes, at, n);
    put_numbers(seqs, c, bytes, at + n * 4, 4, 0, n);
    put_numbers(tochains, c, bytes, at + n * 4 + n * 4, 4, 0, n);
    put_numbers(toseqs, c, bytes, at + n * 4 + n * 4 + n * 4, 4, 0, n);
}

// The ends of the links of a cover of n rows.
fn cover_links(
    chains: &mut [u32; 1024],
    seqs: &mut [u32; 1024],
    tochains: &mut [u32; 1024],
    toseqs: &mut [u32; 1024],
    c: usize,
    n: usize,
    bytes: &[u8],
    t: TailAt,
)
    requires holds_cover { HoldsCover bytes.now n t.cover t.body × SumsIn true bytes.now n t }
    requires links_bound { (c + t.cover.links ≤ 1024) × ((n ≤ 1024) × (t.cover.ranges ≤ 1024)) }
    ensures { EndsMore c chains.old seqs.old tochains.old toseqs.old chains.new seqs.new
        tochains.new toseqs.new (cover_in (part_in bytes.now t.body) n t.cover) }
{
    let a = t.body;
    let at = a.at;
    let end = a.end;
    let k = t.cover;
    let place = n * 4 + n * 4 + 4 + k.ranges * 12 + 4;
    put_ends(
        chains,
        seqs,
        tochains,
        toseqs,
        c,
        place,
        k.links,
        &bytes[at..end],
    );
}

// The links of a file, after c others.
fn add_links(
    groups: &mut [u8; 1024],
    chains: &mut [u32; 1024],
    seqs: &mut [u32; 1024],
    tochains: &mut [u32; 1024],
    toseqs: &mut [u32; 1024],
    c: usize,
    bytes: &[u8],
    f: FileAt,
)
    requires holds_tail { HoldsTail bytes.now f.front.head.rows f.tail × (SumsIn f.tail.covered bytes.now f.front.head.rows f.tail × Uncovers f.tail.covered f.tail.cover) }
    requires links_bound { (c + f.tail.cover.links ≤ 1024) × ((f.front.head.rows ≤ 1024) × (f.tail.cover.ranges ≤ 1024)) }
    ensures { links_of (c + f.tail.cover.links) groups.new chains.new seqs.new tochains.new toseqs.new
        ≡ links_more (links_of c groups.old chains.old seqs.old tochains.old toseqs.old) f.front.head.group
        (tail_in bytes.now f.front.head.rows f.tail).cover }
{
    let t = f.tail;
    if !t.covered {
        return;
    }
    let a = f.front;
    let d = a.head;
    let n = d.rows as usize;
    let k = t.cover;
    fill(groups, c, k.links, d.group);
    cover_links(chains, seqs, tochains, toseqs, c, n, bytes, t);
}

// The links that are held, with those of the files of an archive more, in lent columns. `h` is what the contract speaks of: no
// column of it is read.
pub fn grow_links(
    h: Held,
    groups: &mut [u8; 1024],
    chains: &mut [u32; 1024],
    seqs: &mut [u32; 1024],
    tochains: &mut [u32; 1024],
    toseqs: &mut [u32; 1024],
    count: usize,
    bytes: &[u8],
) -> usize
    requires { Accepted h bytes.now × (links_of count groups.old chains.old seqs.old tochains.old toseqs.old ≡ h.sheet.links) }
    ensures { links_of result groups.new chains.new seqs.new tochains.new toseqs.new ≡ (stored h bytes.now).links }
{
    let mut c = count;
    let mut k: usize = 0;
    let mut p = 0;
    // No `for`: p moves by a file's size.
    while p < bytes.len() {
        let x = file_at(bytes, p);
        let Some(f) = x else {
            break;
        };
        add_links(groups, chains, seqs, tochains, toseqs, c, bytes, f);
        let t = f.tail;
        let w = t.cover;
        c += w.links;
        p = t.end;
        k = next(h, k, p);
    }
    c
}

// The same by value.
pub fn store_links(h: Held, bytes: &[u8]) -> Links
    requires { Accepted h bytes.now }
    ensures { result ≡ (stored h bytes.now).links }
{
    let mut groups = h.sheet.links.groups;
    let mut chains = h.sheet.links.from.chains;
    let mut seqs = h.sheet.links.from.seqs;
    let mut tochains = h.sheet.links.to.chains;
    let mut toseqs = h.sheet.links.to.seqs;
    let c = grow_links(
        h,
        &mut groups,
        &mut chains,
        &mut seqs,
        &mut tochains,
        &mut toseqs,
        h.sheet.links.count,
        bytes,
    );
    Links {
        count: c,
        groups,
        from: Ends { chains, seqs },
        to: Ends {
            chains: tochains,
            seqs: toseqs,
        },
    }
}
