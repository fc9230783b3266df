// The rules of one file of an archive, part by part, over the archive's bytes.
ghost use Rattle.std.specs.Prelude.{◌≡◌, ◌+◌, ◌≤◌, ◌<◌, length, take, drop};
ghost use Rattle.std.proofs.Math.Option.{some};
ghost use Rattle.columns.specs.Limits.{kinds, end64};
ghost use Rattle.columns.specs.Answers.{ruling};
ghost use Rattle.archive_read.specs.Layout.{part_in, HoldsHead, HoldsSets, HoldsCover, HoldsMiddle, HoldsTail, HoldsFile, file_in};
ghost use Rattle.archive_read.specs.bodies.View.{cover_in};
ghost use Rattle.cleaning.specs.Taking.{cover_rules, file_rules};
ghost use Rattle.run_rules.specs.parts.Back.{back_of};
ghost use Rattle.run_rules.specs.files.Parts.{head_rules, subject_in, edges_rules, lists_rules, cover_rule, tail_rules, rest_rules, Small};

use crate::parts::covers::cover_rules;
use crate::parts::heads::{Back, back_rules, own_rules};
use crate::parts::sets::sets_rules;
use crate::parts::tables::records_rules;
use archive_read::bodies::HeadAt;
use archive_read::records::{FileAt, FrontAt, MiddleAt, TailAt};
use columns::refusal::Refusal;

// 1, 3, 8, 24, 25, 26 of a head and the bytes of its subject.
fn named_rules(s: &[u8], h: HeadAt, covered: bool, back: Back, before: &[u8]) -> Result<(), Refusal>
    ensures { result ≡ ruling (head_rules (back_of back before.now) s.now h covered) }
{
    let rows = h.rows as usize;
    own_rules(s, h.first, rows, h.flag, h.least, h.greatest)?;
    back_rules(back, before, h.group, s, h.first, covered)
}

// The same of the body of record 1.
fn body_rules(b: &[u8], h: HeadAt, covered: bool, back: Back, before: &[u8]) -> Result<(), Refusal>
    requires { 14 + h.subject ≤ length b.now }
    ensures { result ≡ ruling (head_rules (back_of back before.now) (take h.subject (drop 14 b.now)) h covered) }
{
    let end = 14 + h.subject;
    named_rules(&b[14..end], h, covered, back, before)
}

// The same of a file's front.
fn front_rules(
    bytes: &[u8],
    f: FrontAt,
    covered: bool,
    back: Back,
    before: &[u8],
) -> Result<(), Refusal>
    requires { HoldsHead bytes.now f.head f.file }
    ensures { result ≡ ruling (head_rules (back_of back before.now) (subject_in bytes.now f) f.head covered) }
{
    let a = f.file;
    let at = a.at;
    let end = a.end;
    let h = f.head;
    body_rules(&bytes[at..end], h, covered, back, before)
}

// 17 to 19. The two arrays are work space, here and in what calls this.
fn edges_rules(
    bytes: &[u8],
    f: FrontAt,
    offsets: &mut [u64; 2049],
    deltas: &mut [i64; 4096],
) -> Result<(), Refusal>
    requires holds_sets { HoldsSets bytes.now f.head.rows f.edges f.sets }
    requires rows_bound { (f.head.rows ≤ 1024) × (f.head.first + f.head.rows < end64) }
    requires forwards_bound { (f.edges.forwards ≤ 4096) × ((f.edges.reverses ≤ 4096) × (f.edges.inbounds ≤ 4096)) }
    ensures { result ≡ ruling (edges_rules bytes.now f) }
{
    let a = f.sets;
    let at = a.at;
    let end = a.end;
    let h = f.head;
    let s = f.edges;
    let rows = h.rows as usize;
    let last = h.first + (h.rows as u64);
    sets_rules(
        &bytes[at..end],
        h.first,
        rows,
        last,
        s.forwards,
        s.reverse,
        s.reverses,
        s.inbound,
        s.inbounds,
        offsets,
        deltas,
    )
}

// 16, 6, 7.
fn lists_rules(bytes: &[u8], h: HeadAt, m: MiddleAt, t: TailAt) -> Result<(), Refusal>
    requires { HoldsMiddle bytes.now h.rows m × HoldsTail bytes.now h.rows t }
    ensures { result ≡ ruling (lists_rules bytes.now h m t) }
{
    let a = t.roots;
    let at = a.at;
    let end = a.end;
    let b = m.unresolved;
    let from = b.at;
    let to = b.end;
    let rows = h.rows as usize;
    records_rules(
        &bytes[at..end],
        t.count,
        &bytes[from..to],
        m.count,
        h.first,
        rows,
    )
}

// 22 of a file that has a cover.
fn covered_rule(bytes: &[u8], n: u32, t: TailAt) -> Result<(), Refusal>
    requires holds_cover { HoldsCover bytes.now n t.cover t.body }
    requires n_bound { (n ≤ 1024) × ((t.cover.ranges ≤ 1024) × (t.cover.links ≤ 1024)) }
    ensures { result ≡ ruling (cover_rules (some (cover_in (part_in bytes.now t.body) n t.cover))) }
{
    let a = t.body;
    let at = a.at;
    let end = a.end;
    let c = t.cover;
    let rows = n as usize;
    cover_rules(&bytes[at..end], rows, c.ranges, c.links)
}

// 22.
fn cover_rule(bytes: &[u8], n: u32, t: TailAt) -> Result<(), Refusal>
    requires holds_tail { HoldsTail bytes.now n t }
    requires n_bound { (n ≤ 1024) × ((t.cover.ranges ≤ 1024) × (t.cover.links ≤ 1024)) }
    ensures { result ≡ ruling (cover_rule bytes.now n t) }
{
    if !t.covered {
        return Ok(());
    }
    covered_rule(bytes, n, t)
}

// 16, 6, 7, 22.
fn tail_rules(bytes: &[u8], h: HeadAt, m: MiddleAt, t: TailAt) -> Result<(), Refusal>
    requires holds_middle { HoldsMiddle bytes.now h.rows m × HoldsTail bytes.now h.rows t }
    requires rows_bound { (h.rows ≤ 1024) × ((t.cover.ranges ≤ 1024) × (t.cover.links ≤ 1024)) }
    ensures { result ≡ ruling (tail_rules bytes.now h m t) }
{
    lists_rules(bytes, h, m, t)?;
    cover_rule(bytes, h.rows, t)
}

// 17 to 19, 16, 6, 7, 22 of a file whose numbers fit.
fn rest_rules(
    bytes: &[u8],
    f: FileAt,
    offsets: &mut [u64; 2049],
    deltas: &mut [i64; 4096],
) -> Result<(), Refusal>
    requires holds_file { HoldsFile bytes.now f × Small f }
    requires rows_bound { f.front.head.first + f.front.head.rows < end64 }
    ensures { result ≡ ruling (rest_rules bytes.now f) }
{
    let a = f.front;
    let h = a.head;
    edges_rules(bytes, a, offsets, deltas)?;
    tail_rules(bytes, h, f.middle, f.tail)
}

// The rules of one file, which looks back at rows of the subject `before`.
pub fn file_rules(
    bytes: &[u8],
    f: FileAt,
    back: Back,
    before: &[u8],
    offsets: &mut [u64; 2049],
    deltas: &mut [i64; 4096],
) -> Result<(), Refusal>
    requires { HoldsFile bytes.now f × Small f }
    ensures { result ≡ ruling (file_rules kinds (back_of back before.now) (file_in bytes.now f)) }
{
    let t = f.tail;
    front_rules(bytes, f.front, t.covered, back, before)?;
    rest_rules(bytes, f, offsets, deltas)
}
