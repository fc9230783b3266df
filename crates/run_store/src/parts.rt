// The names of a run grown by one file of an archive: the subject and the facts of a group, by value. specs/ says what a file adds to every part.
ghost use Rattle.std.specs.Prelude.{◌≡◌, cond, ◌+◌, ◌≤◌, ◌<◌, eqb, length, take, drop};
ghost use Rattle.run_store.specs.grow.Column.{bit};
ghost use Rattle.run_store.specs.parts.Grown.{smaller, greater, groups_new, groups_joined, groups_with, subject_new};

use crate::grow::put_subject;
use run_state::{Groups, Subject};

// 1 for yes, 0 for no.
fn number(x: bool) -> u8
    ensures { result ≡ bit x }
{
    u8::from(x)
}

// x where the flag is 1, else 0.
fn where_flagged(flag: u8, x: u8) -> u8
    ensures { result ≡ cond (eqb flag 1) x 0 }
{
    if flag == 1 {
        return x;
    }
    0
}

fn with_new(g: Groups, at: usize, flag: u8, least: u64, greatest: u64, covered: bool) -> Groups
    requires { (at < 16) × (g.count < 16) }
    ensures { result ≡ groups_new g at flag least greatest covered }
{
    let mut q = g;
    q.known[at] = number(flag == 1);
    q.least[at] = least;
    q.greatest[at] = greatest;
    q.covered[at] = number(covered);
    q.count = g.count + 1;
    q
}

fn with_joined(g: Groups, at: usize, flag: u8, least: u64, greatest: u64) -> Groups
    requires { at < 16 }
    ensures { result ≡ groups_joined g at flag least greatest }
{
    let mut q = g;
    q.known[at] = where_flagged(flag, g.known[at]);
    q.least[at] = g.least[at].min(least);
    q.greatest[at] = g.greatest[at].max(greatest);
    q
}

// The facts of a group that is the last one or one more.
pub fn with_group(
    g: Groups,
    group: u8,
    flag: u8,
    least: u64,
    greatest: u64,
    covered: bool,
) -> Groups
    requires { (group < 16) × (g.count ≤ 16) }
    ensures { result ≡ groups_with g group flag least greatest covered }
{
    let at = group as usize;
    if at == g.count {
        return with_new(g, at, flag, least, greatest, covered);
    }
    with_joined(g, at, flag, least, greatest)
}

// A subject of n bytes.
pub fn with_subject(s: Subject, n: usize, bytes: &[u8]) -> Subject
    requires { (14 + n ≤ length bytes.now) × (n ≤ 255) }
    ensures { result ≡ subject_new s (take n (drop 14 bytes.now)) }
{
    let mut q = s;
    put_subject(&mut q.bytes, bytes, 14, n);
    q.length = n;
    q
}
