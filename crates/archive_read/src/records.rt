// A file's records, one after the other, and where their parts lie in the archive's bytes.
ghost use Rattle.std.specs.Prelude.{◌≡◌, ◌+◌, ◌≤◌, length, get_or};
ghost use Rattle.columns.specs.Limits.{kinds};
ghost use Rattle.archive.specs.Reader.{body, optionally};
ghost use Rattle.archive.specs.Parse.{cover, references, file};
ghost use Rattle.archive_read.specs.Layout.{part_in, body_of, Inside, optional_of, AfterOptional, front, front_of, AfterFront, middle, middle_of, AfterMiddle, tail};
ghost use Rattle.archive_read.specs.Layout.{cites_of, AfterCites, tail_of, covered, covered_with, Plain, AfterTail, cited_with, rest, rest_of, AfterRest, file_of, AfterFile};

use crate::bodies::{
    CoverAt, EdgesAt, HeadAt, cover_body, edges_body, head_body, roots_body, rows_body,
    unresolved_body,
};
use crate::references::references_body;
use arrays::index;

// The body of a record: the bytes from `at` up to `end`.
#[derive(Clone, Copy)]
pub struct Part {
    pub at: usize,
    pub end: usize,
}

// Record 6: its counts, and its body.
#[derive(Clone, Copy)]
pub struct CoverPart {
    pub cover: CoverAt,
    pub part: Part,
}

// Record 7: how many references it has, and its body.
#[derive(Clone, Copy)]
pub struct CitesPart {
    pub count: usize,
    pub part: Part,
}

// Records 1 and 2.
#[derive(Clone, Copy)]
pub struct FrontAt {
    pub head: HeadAt,
    pub file: Part,
    pub edges: EdgesAt,
    pub sets: Part,
}

// Records 3 and 4, and how many unresolved references there are.
#[derive(Clone, Copy)]
pub struct MiddleAt {
    pub rows: Part,
    pub count: usize,
    pub unresolved: Part,
}

// Record 5 and how many roots there are; record 6 where there is one; record 7 where there is one, and how many references it has; the place
// after them.
#[derive(Clone, Copy)]
pub struct TailAt {
    pub count: usize,
    pub roots: Part,
    pub covered: bool,
    pub cover: CoverAt,
    pub body: Part,
    pub cited: bool,
    pub references: usize,
    pub cites: Part,
    pub end: usize,
}

// Records 3 to 7.
#[derive(Clone, Copy)]
pub struct RestAt {
    pub middle: MiddleAt,
    pub tail: TailAt,
}

// Where a file's parts lie, and its counts.
#[derive(Clone, Copy)]
pub struct FileAt {
    pub front: FrontAt,
    pub middle: MiddleAt,
    pub tail: TailAt,
}

// The body of the record at `p`, if there is one and it is of that kind.
fn find_body(bytes: &[u8], p: usize, kind: u8) -> Option<Part>
    ensures result_value { body_of bytes.now result ≡ body kind bytes.now p }
    ensures inside { Inside bytes.now p result }
{
    if bytes.len() < p {
        return None;
    }
    if bytes.len() - p < 6 {
        return None;
    }
    let n = index(archive_bytes::load_u32(bytes, p));
    if n < 2 {
        return None;
    }
    if bytes.len() - p - 6 < n - 2 {
        return None;
    }
    if bytes[p + 4] != 1 {
        return None;
    }
    if bytes[p + 5] != kind {
        return None;
    }
    Some(Part {
        at: p + 6,
        end: p + 6 + (n - 2),
    })
}

fn bytes_of(bytes: &[u8], part: Part) -> &[u8]
    requires { (part.at ≤ part.end) × (part.end ≤ length bytes.now) }
    ensures { result.now ≡ part_in bytes.now part }
{
    let at = part.at;
    let end = part.end;
    &bytes[at..end]
}

// The kind of the record at `p`, or 0 where there is none.
fn kind_at(bytes: &[u8], p: usize) -> u8
    requires { p ≤ length bytes.now }
    ensures { result ≡ get_or bytes.now (p + 5) 0 }
{
    if bytes.len() - p <= 5 {
        return 0;
    }
    bytes[p + 5]
}

// The cover at `p`, where there is one; no answer where it is broken.
fn optional_record(bytes: &[u8], p: usize, n: u32) -> Option<Option<CoverPart>>
    requires { p ≤ length bytes.now }
    ensures result_value { optional_of bytes.now n p result ≡ optionally 6 (cover n) bytes.now p }
    ensures after_optional { AfterOptional bytes.now p n result }
{
    if kind_at(bytes, p) != 6 {
        return Some(None);
    }
    let part = find_body(bytes, p, 6)?;
    let cover = cover_body(bytes_of(bytes, part), n)?;
    Some(Some(CoverPart { cover, part }))
}

// The references at `p`, where there are some; no answer where they are broken.
fn cited_record(bytes: &[u8], p: usize, n: u32) -> Option<Option<CitesPart>>
    requires { p ≤ length bytes.now }
    ensures result_value { cites_of bytes.now n p result ≡ optionally 7 (references n) bytes.now p }
    ensures after_cites { AfterCites bytes.now p n result }
{
    if kind_at(bytes, p) != 7 {
        return Some(None);
    }
    let part = find_body(bytes, p, 7)?;
    let count = references_body(bytes_of(bytes, part), n)?;
    Some(Some(CitesPart { count, part }))
}

fn read_front(bytes: &[u8], p: usize) -> Option<FrontAt>
    ensures result_value { front_of bytes.now result ≡ front bytes.now p }
    ensures after_front { AfterFront bytes.now p result }
{
    let file = find_body(bytes, p, 1)?;
    let head = head_body(bytes_of(bytes, file))?;
    let sets = find_body(bytes, file.end, 2)?;
    let edges = edges_body(bytes_of(bytes, sets), head.rows)?;
    Some(FrontAt {
        head,
        file,
        edges,
        sets,
    })
}

fn read_middle(bytes: &[u8], p: usize, n: u32) -> Option<MiddleAt>
    ensures result_value { middle_of bytes.now n result ≡ middle n bytes.now p }
    ensures after_middle { AfterMiddle bytes.now p n result }
{
    let rows = find_body(bytes, p, 3)?;
    if !rows_body(bytes_of(bytes, rows), n) {
        return None;
    }
    let unresolved = find_body(bytes, rows.end, 4)?;
    let count = unresolved_body(bytes_of(bytes, unresolved))?;
    Some(MiddleAt {
        rows,
        count,
        unresolved,
    })
}

// A tail from the roots and the cover.
fn tail_of(count: usize, roots: Part, c: Option<CoverPart>) -> TailAt
    ensures { result ≡ covered_with count roots c }
{
    let bare = TailAt {
        count,
        roots,
        covered: false,
        cover: CoverAt {
            ranges: 0,
            links: 0,
        },
        body: roots,
        cited: false,
        references: 0,
        cites: roots,
        end: roots.end,
    };
    match c {
        None => bare,
        Some(c) => TailAt {
            covered: true,
            cover: c.cover,
            body: c.part,
            end: c.part.end,
            ..bare
        },
    }
}

// The roots and the cover.
fn read_covered(bytes: &[u8], p: usize, n: u32) -> Option<TailAt>
    ensures result_value { tail_of bytes.now n result ≡ covered n bytes.now p }
    ensures after_tail { AfterTail bytes.now p n result × Plain result }
{
    let roots = find_body(bytes, p, 5)?;
    let count = roots_body(bytes_of(bytes, roots))?;
    let cover = optional_record(bytes, roots.end, n)?;
    Some(tail_of(count, roots, cover))
}

// A tail with its references.
fn cite(t: TailAt, c: Option<CitesPart>) -> TailAt
    ensures { result ≡ cited_with t c }
{
    match c {
        None => t,
        Some(c) => TailAt {
            cited: true,
            references: c.count,
            cites: c.part,
            end: c.part.end,
            ..t
        },
    }
}

fn read_tail(bytes: &[u8], p: usize, n: u32) -> Option<TailAt>
    ensures result_value { tail_of bytes.now n result ≡ tail n bytes.now p }
    ensures after_tail { AfterTail bytes.now p n result }
{
    let tail = read_covered(bytes, p, n)?;
    let cites = cited_record(bytes, tail.end, n)?;
    Some(cite(tail, cites))
}

fn read_rest(bytes: &[u8], p: usize, n: u32) -> Option<RestAt>
    ensures result_value { rest_of bytes.now n result ≡ rest n bytes.now p }
    ensures after_rest { AfterRest bytes.now p n result }
{
    let middle = read_middle(bytes, p, n)?;
    let tail = read_tail(bytes, middle.unresolved.end, n)?;
    Some(RestAt { middle, tail })
}

// The file whose first record starts at `p`; or 23.
pub fn file_at(bytes: &[u8], p: usize) -> Option<FileAt>
    ensures result_value { file_of bytes.now result ≡ file kinds bytes.now p }
    ensures after_file { AfterFile bytes.now p result }
{
    let front = read_front(bytes, p)?;
    let rest = read_rest(bytes, front.sets.end, front.head.rows)?;
    Some(FileAt {
        front,
        middle: rest.middle,
        tail: rest.tail,
    })
}
