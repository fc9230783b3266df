// The body of each of a file's records, lent by itself: whether it is one, and where its columns lie in it.
ghost use Rattle.std.specs.Prelude.{◌≡◌, map, ◌+◌, ◌*◌, ◌≤◌, ◌<◌, ◌^◌, leb, length, get_or, drop};
ghost use Rattle.columns.specs.Limits.{kinds};
ghost use Rattle.lists.specs.Lists.{all};
ghost use Rattle.lists.specs.Order.{rising, not_falling};
ghost use Rattle.archive.specs.Bytes.{several};
ghost use Rattle.archive.specs.Reader.{whole};
ghost use Rattle.archive.specs.Parse.{head, depth_flag_ok, edge_set, sets, rows, unresolved_at, root_at, unresolved, roots, cover};
ghost use Rattle.archive_read.specs.bodies.View.{head_of, HeadInside, set_of, SetInside, edges_of, EdgesInside, rows_of, RowsInside, unresolved_of, roots_of, ListInside, cover_of, CoverInside};

use arrays::index;

// 1 file: its numbers, and the length of the subject, which starts at place 14.
#[derive(Clone, Copy)]
pub struct HeadAt {
    pub first: u64,
    pub rows: u32,
    pub group: u8,
    pub subject: usize,
    pub flag: u8,
    pub least: u64,
    pub greatest: u64,
}

// A set: the number of its deltas, and the place after it.
#[derive(Clone, Copy)]
pub struct SetAt {
    pub count: usize,
    pub end: usize,
}

// 2 edges: the number of deltas of each set, and where the second and the third set start.
#[derive(Clone, Copy)]
pub struct EdgesAt {
    pub forwards: usize,
    pub reverse: usize,
    pub reverses: usize,
    pub inbound: usize,
    pub inbounds: usize,
}

// 6 cover: the number of ranges and of links.
#[derive(Clone, Copy)]
pub struct CoverAt {
    pub ranges: usize,
    pub links: usize,
}

fn depth_ok(flag: u8, least: u64, greatest: u64) -> bool
    ensures { result ≡ depth_flag_ok flag least greatest }
{
    if flag == 1 {
        return true;
    }
    if flag != 0 {
        return false;
    }
    if least != 0 {
        return false;
    }
    greatest == 0
}

pub fn head_body(b: &[u8]) -> Option<HeadAt>
    ensures result_value { head_of b.now result ≡ whole head b.now }
    ensures head_inside { HeadInside b.now result }
{
    if b.len() < 31 {
        return None;
    }
    let s = usize::from(b[13]);
    let p = 14 + s;
    if b.len() != p + 1 + 8 + 8 {
        return None;
    }
    let flag = b[p];
    let least = archive_bytes::load_u64(b, p + 1);
    let greatest = archive_bytes::load_u64(b, p + 1 + 8);
    if !depth_ok(flag, least, greatest) {
        return None;
    }
    Some(HeadAt {
        first: archive_bytes::load_u64(b, 0),
        rows: archive_bytes::load_u32(b, 8) as u32,
        group: b[12],
        subject: s,
        flag,
        least,
        greatest,
    })
}

// One set from place `p` on.
fn set_at(b: &[u8], rows: usize, p: usize) -> Option<SetAt>
    requires { (rows < 2 ^ 32) × (p ≤ length b.now) }
    ensures result_value { set_of b.now rows p result ≡ edge_set kinds rows b.now p }
    ensures set_inside { SetInside b.now rows p result }
{
    if b.len() - p < 4 {
        return None;
    }
    let n = index(archive_bytes::load_u32(b, p));
    let end = p + 4 + (2 * rows + 1) * 8 + n * 8;
    if b.len() < end {
        return None;
    }
    Some(SetAt { count: n, end })
}

pub fn edges_body(b: &[u8], rows: u32) -> Option<EdgesAt>
    ensures result_value { edges_of b.now rows result ≡ whole (sets kinds rows) b.now }
    ensures edges_inside { EdgesInside b.now rows result }
{
    let n = rows as usize;
    let forward = set_at(b, n, 0)?;
    let reverse = set_at(b, n, forward.end)?;
    let inbound = set_at(b, n, reverse.end)?;
    if b.len() != inbound.end {
        return None;
    }
    Some(EdgesAt {
        forwards: forward.count,
        reverse: forward.end,
        reverses: reverse.count,
        inbound: reverse.end,
        inbounds: inbound.count,
    })
}

fn flags_ok(b: &[u8], n: usize) -> bool
    requires { n * 9 ≤ length b.now }
    ensures { result ≡ all (λ flag. leb flag 1) (several 9 (λ l. get_or l 0 0) n b.now) }
{
    for i in 0..n {
        if 1 < b[i * 9] {
            return false;
        }
    }
    true
}

// Whether the body is that many rows, each with a flag of 0 or 1.
pub fn rows_body(b: &[u8], n: u32) -> bool
    ensures result_value { rows_of b.now n result ≡ whole (rows n) b.now }
    ensures rows_inside { RowsInside b.now n result }
{
    let m = n as usize;
    if b.len() != m * 9 {
        return false;
    }
    flags_ok(b, m)
}

fn children_ok(b: &[u8], n: usize) -> bool
    requires { 4 + n * 13 ≤ length b.now }
    ensures { result ≡ not_falling (map (λ u. u.child) (several 13 unresolved_at n (drop 4 b.now))) }
{
    let mut low = 0;
    for i in 0..n {
        let x = archive_bytes::load_u64(b, 4 + i * 13);
        if x < low {
            return false;
        }
        low = x;
    }
    true
}

pub fn unresolved_body(b: &[u8]) -> Option<usize>
    ensures result_value { unresolved_of b.now result ≡ whole unresolved b.now }
    ensures list_inside { ListInside 13 b.now result }
{
    if b.len() < 4 {
        return None;
    }
    let n = index(archive_bytes::load_u32(b, 0));
    if b.len() != 4 + n * 13 {
        return None;
    }
    if !children_ok(b, n) {
        return None;
    }
    Some(n)
}

fn rows_above(b: &[u8], n: usize) -> bool
    requires { (4 + n * 16 ≤ length b.now) × (0 < n) }
    ensures { result ≡ rising (map (λ t. t.row) (several 16 root_at n (drop 4 b.now))) }
{
    let mut last = archive_bytes::load_u64(b, 4);
    for i in 1..n {
        let x = archive_bytes::load_u64(b, 4 + i * 16);
        if x <= last {
            return false;
        }
        last = x;
    }
    true
}

fn rows_rise(b: &[u8], n: usize) -> bool
    requires { 4 + n * 16 ≤ length b.now }
    ensures { result ≡ rising (map (λ t. t.row) (several 16 root_at n (drop 4 b.now))) }
{
    if n == 0 {
        return true;
    }
    rows_above(b, n)
}

pub fn roots_body(b: &[u8]) -> Option<usize>
    ensures result_value { roots_of b.now result ≡ whole roots b.now }
    ensures list_inside { ListInside 16 b.now result }
{
    if b.len() < 4 {
        return None;
    }
    let n = index(archive_bytes::load_u32(b, 0));
    if b.len() != 4 + n * 16 {
        return None;
    }
    if !rows_rise(b, n) {
        return None;
    }
    Some(n)
}

pub fn cover_body(b: &[u8], rows: u32) -> Option<CoverAt>
    ensures result_value { cover_of b.now rows result ≡ whole (cover rows) b.now }
    ensures cover_inside { CoverInside b.now rows result }
{
    let n = rows as usize;
    let p = n * 4 + n * 4;
    if b.len() < p + 4 {
        return None;
    }
    let m = index(archive_bytes::load_u32(b, p));
    let q = p + 4 + m * 12;
    if b.len() < q + 4 {
        return None;
    }
    let k = index(archive_bytes::load_u32(b, q));
    if b.len() != q + 4 + k * 4 + k * 4 + k * 4 + k * 4 {
        return None;
    }
    Some(CoverAt {
        ranges: m,
        links: k,
    })
}
