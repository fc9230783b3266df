// The lists of a run grown by one set of every file of an archive, in place.
ghost use Rattle.std.specs.Prelude.{◌≡◌, true, map, ◌+◌, ◌*◌, ◌≤◌, length, take, drop};
ghost use Rattle.std.proofs.lemmas.List.Edits.{sets};
ghost use Rattle.columns.specs.Limits.{kinds};
ghost use Rattle.lists.specs.Lists.{joined};
ghost use Rattle.columns.specs.EdgeSet.{from_to};
ghost use Rattle.columns.specs.Reading.{slots_of};
ghost use Rattle.columns.specs.Answers.{columns_of};
ghost use Rattle.columns.specs.Readable.{Readable};
ghost use Rattle.archive_read.specs.bodies.View.{set_end};
ghost use Rattle.archive_read.specs.Layout.{part_in, Holds};
ghost use Rattle.run_store.specs.parts.Grown.{set_at, edges_with};
ghost use Rattle.run_store.specs.file.Fits.{SetRoom};
ghost use Rattle.run_store.specs.turns.Parts.{parts_of, stored, Accepted};
ghost use Rattle.run_state.specs.ByColumns.{edges_of};
ghost use Rattle.run_store.specs.sets.Sides.{place_of, side_of};

use crate::grow::{put_offsets, put_targets};
use crate::turns::next;
use archive_bytes::number_columns::{fill_i64s, fill_u64s};
use archive_read::bodies::EdgesAt;
use archive_read::records::{FrontAt, Part, file_at};
use run_state::{Edges, Held};

// One of the three sets of a file.
#[derive(Clone, Copy)]
pub enum Side {
    Forward,
    Reverse,
    Inbound,
}

// Where a set starts in the edges record, and how many deltas it has.
#[derive(Clone, Copy)]
pub struct SetPlace {
    pub at: usize,
    pub count: usize,
}

fn set_place(side: Side, c: EdgesAt) -> SetPlace
    ensures { result ≡ place_of side c }
{
    match side {
        Side::Forward => SetPlace {
            at: 0,
            count: c.forwards,
        },
        Side::Reverse => SetPlace {
            at: c.reverse,
            count: c.reverses,
        },
        Side::Inbound => SetPlace {
            at: c.inbound,
            count: c.inbounds,
        },
    }
}

// The columns of a set that starts at `at` of an edges record, to the front of two arrays.
fn read_columns(
    bytes: &[u8],
    rows: usize,
    at: usize,
    count: usize,
    offsets: &mut [u64; 2049],
    deltas: &mut [i64; 4096],
)
    requires { (at + 4 + (2 * rows + 1) * 8 + count * 8 ≤ length bytes.now) × ((rows ≤ 1024) × (count ≤ 4096)) }
    ensures deltas_after { columns_of count (take (2 * rows + 1) offsets.new) (take count deltas.new) ≡ set_at bytes.now rows at count }
    ensures offsets_len { (length offsets.new ≡ 2049) × (length deltas.new ≡ 4096) }
{
    let m = 2 * rows + 1;
    fill_u64s(bytes, at + 4, m, offsets);
    fill_i64s(bytes, at + 4 + m * 8, count, deltas);
}

// The same of the record's place in an archive.
fn read_set(
    bytes: &[u8],
    a: Part,
    rows: usize,
    s: SetPlace,
    offsets: &mut [u64; 2049],
    deltas: &mut [i64; 4096],
)
    requires { Holds bytes.now a (set_end rows s.at s.count) × ((rows ≤ 1024) × (s.count ≤ 4096)) }
    ensures deltas_after { columns_of s.count (take (2 * rows + 1) offsets.new) (take s.count deltas.new) ≡ set_at (part_in bytes.now a) rows s.at s.count }
    ensures offsets_len { (length offsets.new ≡ 2049) × (length deltas.new ≡ 4096) }
{
    let at = a.at;
    let end = a.end;
    read_columns(&bytes[at..end], rows, s.at, s.count, offsets, deltas);
}

// The starts of lists, after those of n rows.
fn add_offsets(
    out: &mut [u64; 2049],
    n: usize,
    rows: usize,
    count: usize,
    add: usize,
    offsets: &[u64],
)
    requires rows_bound { (n + rows ≤ 1024) × (length offsets.now ≡ 2049) }
    requires count_bound { (add + count ≤ 4096) × (from_to 0 count (take (2 * rows + 1) offsets.now) ≡ true) }
    ensures { out.new ≡ sets out.old (2 * n + 1) (map (λ o. add + o) (drop 1 (take (2 * rows + 1) offsets.now))) }
{
    let m = 2 * rows + 1;
    put_offsets(out, 2 * n, &offsets[..m], count, add as u64);
}

// The numbers of lists, after c others.
fn add_targets(
    out: &mut [u64; 4096],
    c: usize,
    first: u64,
    rows: usize,
    count: usize,
    offsets: &[u64],
    deltas: &[i64],
)
    requires count_bound { ((c + count ≤ 4096) × (rows ≤ 1024)) × ((length offsets.now ≡ 2049) × (length deltas.now ≡ 4096)) }
    requires readable { Readable kinds first (columns_of count (take (2 * rows + 1) offsets.now) (take count deltas.now)) }
    ensures { out.new ≡ sets out.old c (joined (slots_of kinds first (columns_of count (take (2 * rows + 1) offsets.now) (take count deltas.now)))) }
{
    let m = 2 * rows + 1;
    put_targets(out, c, first, count as u64, &offsets[..m], &deltas[..count]);
}

// The lists of a set of a file more, after c numbers and the lists of n rows; the set is read to the last two arrays.
fn add_set(
    starts: &mut [u64; 2049],
    targets: &mut [u64; 4096],
    c: usize,
    n: usize,
    bytes: &[u8],
    f: FrontAt,
    s: SetPlace,
    offsets: &mut [u64; 2049],
    deltas: &mut [i64; 4096],
)
    requires holds { Holds bytes.now f.sets (set_end f.head.rows s.at s.count) }
    requires set_room { SetRoom c n bytes.now f s.at s.count }
    ensures { edges_of (c + s.count) starts.new targets.new
        ≡ edges_with (edges_of c starts.old targets.old) n f.head.first (set_at (part_in bytes.now f.sets) f.head.rows s.at s.count) }
{
    let d = f.head;
    let rows = d.rows as usize;
    read_set(bytes, f.sets, rows, s, offsets, deltas);
    add_offsets(starts, n, rows, s.count, c, offsets);
    add_targets(targets, c, d.first, rows, s.count, offsets, deltas);
}

// The lists of one set, with those of the files of an archive more, in lent columns. `h` is what the contract speaks of: no column of
// it is read. The last two arrays are work space.
pub fn grow_set(
    h: Held,
    side: Side,
    starts: &mut [u64; 2049],
    targets: &mut [u64; 4096],
    count: usize,
    rows: usize,
    offsets: &mut [u64; 2049],
    deltas: &mut [i64; 4096],
    bytes: &[u8],
) -> usize
    requires { Accepted h bytes.now × ((edges_of count starts.old targets.old ≡ side_of side (parts_of h)) × (rows ≡ h.sheet.rows.count)) }
    ensures { edges_of result starts.new targets.new ≡ side_of side (stored h bytes.now) }
{
    let mut c = count;
    let mut n = rows;
    let mut k: usize = 0;
    let mut p = 0;
    // No `for`: p moves by a file's size.
    while p < bytes.len() {
        let x = file_at(bytes, p);
        let Some(f) = x else {
            break;
        };
        let a = f.front;
        let d = a.head;
        let s = set_place(side, a.edges);
        add_set(starts, targets, c, n, bytes, a, s, offsets, deltas);
        c += s.count;
        n += d.rows as usize;
        let t = f.tail;
        p = t.end;
        k = next(h, k, p);
    }
    c
}

// The same by value.
pub fn store_set(h: Held, e: Edges, side: Side, bytes: &[u8]) -> Edges
    requires { Accepted h bytes.now × (e ≡ side_of side (parts_of h)) }
    ensures { result ≡ side_of side (stored h bytes.now) }
{
    let mut offsets = [0u64; 2049];
    let mut deltas = [0i64; 4096];
    let mut starts = e.offsets;
    let mut targets = e.targets;
    let c = grow_set(
        h,
        side,
        &mut starts,
        &mut targets,
        e.count,
        h.sheet.rows.count,
        &mut offsets,
        &mut deltas,
        bytes,
    );
    Edges {
        count: c,
        offsets: starts,
        targets,
    }
}
