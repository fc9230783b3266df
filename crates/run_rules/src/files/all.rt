// The rules of all files of an archive, file after file.
ghost use Rattle.std.specs.Prelude.{◌≡◌, ◌+◌, ◌≤◌, ◌<◌, length, take, drop};
ghost use Rattle.columns.specs.Limits.{kinds, end64};
ghost use Rattle.columns.specs.Answers.{ruling};
ghost use Rattle.archive.specs.Parse.{parse};
ghost use Rattle.archive_read.specs.Layout.{HoldsHead, HoldsFile, file_in};
ghost use Rattle.archive_read.specs.Sums.{totals_of};
ghost use Rattle.cleaning.specs.Taking.{file_rules};
ghost use Rattle.run_rules.specs.parts.Back.{back_of};
ghost use Rattle.run_rules.specs.files.Parts.{subject_in, Small};
ghost use Rattle.run_rules.specs.files.Archive.{rules_of, Within, seen_of, ends_with};

use crate::files::one::file_rules;
use crate::parts::heads::Back;
use archive_bytes::number_columns::store_bytes;
use archive_read::records::{FileAt, FrontAt, file_at};
use columns::refusal::Refusal;

// What the next file looks back at, with the subject.
#[derive(Clone, Copy)]
pub struct Seen {
    pub back: Back,
    pub length: usize,
    pub subject: [u8; 255],
}

// The rules of a file that looks back at what was seen.
fn next_rules(
    s: Seen,
    bytes: &[u8],
    f: FileAt,
    offsets: &mut [u64; 2049],
    deltas: &mut [i64; 4096],
) -> Result<(), Refusal>
    requires length_in_bounds { s.length ≤ length s.subject }
    requires holds_file { HoldsFile bytes.now f × Small f }
    ensures { result ≡ ruling (file_rules kinds (seen_of s) (file_in bytes.now f)) }
{
    let n = s.length;
    let name = s.subject;
    file_rules(bytes, f, s.back, &name[..n], offsets, deltas)
}

// What is seen of a subject that is lent by itself.
fn see(back: Back, subject: &[u8]) -> Seen
    requires { length subject.now ≤ 255 }
    ensures { (seen_of result ≡ back_of back subject.now) × (result.length ≤ length result.subject) }
{
    let n = subject.len();
    let mut name = [0u8; 255];
    store_bytes(subject, &mut name, 0);
    Seen {
        back,
        length: n,
        subject: name,
    }
}

// What is seen of the body of record 1: the subject's n bytes.
fn see_in(back: Back, b: &[u8], n: usize) -> Seen
    requires { (14 + n ≤ length b.now) × (n ≤ 255) }
    ensures { (seen_of result ≡ back_of back (take n (drop 14 b.now))) × (result.length ≤ length result.subject) }
{
    let end = 14 + n;
    see(back, &b[14..end])
}

// What the file after this one looks back at.
fn see_after(bytes: &[u8], f: FrontAt, covered: bool) -> Seen
    requires holds_head { HoldsHead bytes.now f.head f.file }
    requires subject_bound { (f.head.subject ≤ 255) × (f.head.first + f.head.rows < end64) }
    ensures { (seen_of result ≡ ends_with f.head.group (subject_in bytes.now f) (f.head.first + f.head.rows) covered) × (result.length ≤ length result.subject) }
{
    let h = f.head;
    let a = f.file;
    let at = a.at;
    let end = a.end;
    let back = Back {
        known: true,
        group: h.group as u64,
        end: h.first + (h.rows as u64),
        covered,
    };
    see_in(back, &bytes[at..end], h.subject)
}

// One more than a number that is below another.
fn next(k: usize, end: usize) -> usize
    requires { k < end }
    ensures { result ≡ k + 1 }
{
    k + 1
}

// The rules of an archive's files, the first of which looks back at rows of that subject. What is no archive or past the limits is refused before.
pub fn files_rules(bytes: &[u8], back: Back, subject: &[u8]) -> Result<(), Refusal>
    requires { (length subject.now ≤ 255) × Within (totals_of (parse kinds bytes.now)) }
    ensures { result ≡ ruling (rules_of (back_of back subject.now) (parse kinds bytes.now)) }
{
    // work space, made once for the sets of all files
    let mut offsets = [0u64; 2049];
    let mut deltas = [0i64; 4096];
    let mut s = see(back, subject);
    let mut k: usize = 0;
    let mut p = 0;
    // No `for`: p moves by a file's size.
    while p < bytes.len() {
        let x = file_at(bytes, p);
        let Some(f) = x else {
            return Ok(());
        };
        next_rules(s, bytes, f, &mut offsets, &mut deltas)?;
        let t = f.tail;
        s = see_after(bytes, f.front, t.covered);
        p = t.end;
        k = next(k, p);
    }
    Ok(())
}
