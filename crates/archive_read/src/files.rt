// A whole archive: 23, or the sums that 42 and 43 look at, in one pass.
ghost use Rattle.std.specs.Prelude.{◌≡◌, ◌<◌, ◌^◌};
ghost use Rattle.columns.specs.Limits.{kinds};
ghost use Rattle.archive.specs.Parse.{parse};
ghost use Rattle.archive_read.specs.Layout.{Counts};
ghost use Rattle.archive_read.specs.Sums.{totals_of, with_file, Below};

use crate::records::{FileAt, file_at};
use columns::refusal::Refusal;

// How many files there are, and the sums of their counts.
#[derive(Clone, Copy)]
pub struct Totals {
    pub files: usize,
    pub events: usize,
    pub roots: usize,
    pub unresolved: usize,
    pub ranges: usize,
    pub links: usize,
    pub forward: usize,
    pub reverse: usize,
    pub inbound: usize,
    pub references: usize,
}

// The sums with one file more, which starts at `p`.
fn with_file(t: Totals, f: FileAt, p: usize) -> Totals
    requires { Below t p × (Counts p f × ((p < f.tail.end) × (f.tail.end < 2 ^ 64))) }
    ensures { result ≡ with_file t f }
{
    let sets = f.front.edges;
    let cover = f.tail.cover;
    Totals {
        files: t.files + 1,
        events: t.events + f.front.head.rows as usize,
        roots: t.roots + f.tail.count,
        unresolved: t.unresolved + f.middle.count,
        ranges: t.ranges + cover.ranges,
        links: t.links + cover.links,
        forward: t.forward + sets.forwards,
        reverse: t.reverse + sets.reverses,
        inbound: t.inbound + sets.inbounds,
        references: t.references + f.tail.references,
    }
}

// The sums over an archive's files, or 23.
pub fn sum_up(bytes: &[u8]) -> Result<Totals, Refusal>
    ensures { result ≡ totals_of (parse kinds bytes.now) }
{
    let mut t = Totals {
        files: 0,
        events: 0,
        roots: 0,
        unresolved: 0,
        ranges: 0,
        links: 0,
        forward: 0,
        reverse: 0,
        inbound: 0,
        references: 0,
    };
    // A place and no index, since it moves by a file's size.
    let mut p = 0;
    while p < bytes.len() {
        let Some(f) = file_at(bytes, p) else {
            return Err(Refusal::RecordBroken);
        };
        t = with_file(t, f, p);
        p = f.tail.end;
    }
    Ok(t)
}
