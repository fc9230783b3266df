// The names of a run, of its groups, and the number of its ranges, grown by those of every file of an archive.
ghost use Rattle.std.specs.Prelude.{◌≡◌, cond, ◌+◌, ◌≤◌, ◌<◌, take, drop};
ghost use Rattle.archive_read.specs.Layout.{part_in, HoldsHead};
ghost use Rattle.run_store.specs.parts.Grown.{subject_new};
ghost use Rattle.run_store.specs.turns.Parts.{Accepted};
ghost use Rattle.run_store.specs.names.Named.{names_of, names_more, NamesRoom, Named};

use crate::parts::{with_group, with_subject};
use crate::turns::next;
use archive_read::bodies::HeadAt;
use archive_read::records::{FileAt, Part, file_at};
use run_state::{Groups, Held, Subject};

// Start and subject of a run, the facts of its groups, and the number of its ranges.
#[derive(Clone, Copy)]
pub struct Names {
    pub start: u64,
    pub subject: Subject,
    pub groups: Groups,
    pub ranges: usize,
}

// The subject of a file.
fn put_subject(s: Subject, bytes: &[u8], h: HeadAt, a: Part) -> Subject
    requires { HoldsHead bytes.now h a × (h.subject ≤ 255) }
    ensures { result ≡ subject_new s (take h.subject (drop 14 (part_in bytes.now a))) }
{
    let at = a.at;
    let end = a.end;
    with_subject(s, h.subject, &bytes[at..end])
}

// The same where there is none yet.
fn add_subject(s: Subject, fresh: bool, bytes: &[u8], h: HeadAt, a: Part) -> Subject
    requires { HoldsHead bytes.now h a × (h.subject ≤ 255) }
    ensures { result ≡ cond fresh (subject_new s (take h.subject (drop 14 (part_in bytes.now a)))) s }
{
    if fresh {
        return put_subject(s, bytes, h, a);
    }
    s
}

fn start_of(fresh: bool, first: u64, start: u64) -> u64
    ensures { result ≡ cond fresh first start }
{
    if fresh {
        return first;
    }
    start
}

// The names with those of a file more; the first file brings start and subject.
fn add_names(q: Names, bytes: &[u8], f: FileAt) -> Names
    requires { NamesRoom q bytes.now f }
    ensures { result ≡ names_more q bytes.now f }
{
    let fresh = q.groups.count == 0;
    let a = f.front;
    let h = a.head;
    let t = f.tail;
    let k = t.cover;
    let start = start_of(fresh, h.first, q.start);
    let subject = add_subject(q.subject, fresh, bytes, h, a.file);
    let groups = with_group(q.groups, h.group, h.flag, h.least, h.greatest, t.covered);
    Names {
        start,
        subject,
        groups,
        ranges: q.ranges + k.ranges,
    }
}

// The names that are held.
pub fn names_of(h: Held) -> Names
    ensures { result ≡ names_of h }
{
    let subject = h.sheet.subject;
    let groups = h.sheet.groups;
    Names {
        start: h.sheet.start,
        subject,
        groups,
        ranges: h.ranges,
    }
}

// The names that are held, with those of the files of an archive more. What is held itself is not read.
pub fn grow_names(h: Held, names: Names, bytes: &[u8]) -> Names
    requires { (Accepted h bytes.now) × (names ≡ names_of h) }
    ensures { Named h bytes.now result }
{
    let mut q = names;
    let mut k: usize = 0;
    let mut p = 0;
    // No `for`: p moves by a file's size.
    while p < bytes.len() {
        let x = file_at(bytes, p);
        let Some(f) = x else {
            break;
        };
        q = add_names(q, bytes, f);
        let t = f.tail;
        p = t.end;
        k = next(h, k, p);
    }
    q
}

// The same by what is held.
pub fn store_names(h: Held, bytes: &[u8]) -> Names
    requires { Accepted h bytes.now }
    ensures { Named h bytes.now result }
{
    grow_names(h, names_of(h), bytes)
}
