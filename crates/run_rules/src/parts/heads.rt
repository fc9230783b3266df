// The rules on a file's head: its own (1, 3, 8), and those that look back at the rows before it (24, 25, 26).
ghost use Rattle.std.specs.Prelude.{◌≡◌, not, ◌&&◌, ◌||◌, eqb};
ghost use Rattle.std.specs.Bool.{beq};
ghost use Rattle.lists.specs.Lists.{same};
ghost use Rattle.columns.specs.Refusal.{refuse};
ghost use Rattle.columns.specs.declared.refusal.Refusal.TheVariants.{GroupOrder};
ghost use Rattle.columns.specs.Building.{subject_ok, numbers_ok, depth_ok};
ghost use Rattle.columns.specs.Answers.{ruling};
ghost use Rattle.archive.specs.Parse.{depth_read};
ghost use Rattle.run_rules.specs.parts.Back.{back_of, own_rules, back_rules, groups_near};

use columns::refusal::Refusal;

// What a file looks back at, besides the subject: the last group and its number, where the rows end, whether there is a cover.
#[derive(Clone, Copy)]
pub struct Back {
    pub known: bool,
    pub group: u64,
    pub end: u64,
    pub covered: bool,
}

fn subject_fits(subject: &[u8]) -> bool
    ensures { result ≡ subject_ok subject.now }
{
    if subject.len() == 0 {
        return false;
    }
    subject.len() <= 255
}

fn numbers_fit(first: u64, rows: usize) -> bool
    ensures { result ≡ numbers_ok first rows }
{
    first <= 18446744073709551615 - (rows as u64)
}

fn depth_fits(flag: u8, least: u64, greatest: u64) -> bool
    ensures { result ≡ depth_ok (depth_read flag least greatest) }
{
    if flag != 1 {
        return true;
    }
    least <= greatest
}

// 1, 3, 8.
pub fn own_rules(
    subject: &[u8],
    first: u64,
    rows: usize,
    flag: u8,
    least: u64,
    greatest: u64,
) -> Result<(), Refusal>
    ensures { result ≡ ruling (own_rules subject.now first rows (depth_read flag least greatest)) }
{
    if !subject_fits(subject) {
        return Err(Refusal::SubjectLength);
    }
    if !numbers_fit(first, rows) {
        return Err(Refusal::NumberRange);
    }
    if !depth_fits(flag, least, greatest) {
        return Err(Refusal::DepthOrder);
    }
    Ok(())
}

// Whether two subjects are the same bytes.
fn same_bytes(a: &[u8], b: &[u8]) -> bool
    ensures { result ≡ same a.now b.now }
{
    if a.len() != b.len() {
        return false;
    }
    for i in 0..a.len() {
        if a[i] != b[i] {
            return false;
        }
    }
    true
}

// Whether a group number is the last one or one more.
fn is_near(group: u8, last: u64) -> bool
    ensures { result ≡ groups_near group last }
{
    let g = group as u64;
    if g == last {
        return true;
    }
    if g == 0 {
        return false;
    }
    g - 1 == last
}

// Whether a file has the subject of the rows before it and starts where they end.
fn is_next(before: &[u8], end: u64, subject: &[u8], first: u64) -> bool
    ensures { result ≡ same subject.now before.now && eqb first end }
{
    if !same_bytes(subject, before) {
        return false;
    }
    first == end
}

fn is_same(a: bool, b: bool) -> bool
    ensures { result ≡ beq a b }
{
    if a { b } else { !b }
}

// Whether there is a cover in all files of a group or in none.
fn is_alike(group: u8, last: u64, covered: bool, was: bool) -> bool
    ensures { result ≡ not (eqb group last) || beq covered was }
{
    if group as u64 != last {
        return true;
    }
    is_same(covered, was)
}

// The first file of all is of group 0.
fn first_rules(group: u8) -> Result<(), Refusal>
    ensures { result ≡ ruling (refuse GroupOrder (not (eqb group 0))) }
{
    if group != 0 {
        return Err(Refusal::GroupOrder);
    }
    Ok(())
}

// 24, 25, 26.
pub fn back_rules(
    back: Back,
    before: &[u8],
    group: u8,
    subject: &[u8],
    first: u64,
    covered: bool,
) -> Result<(), Refusal>
    ensures { result ≡ ruling (back_rules (back_of back before.now) group subject.now first covered) }
{
    if !back.known {
        return first_rules(group);
    }
    if !is_near(group, back.group) {
        return Err(Refusal::GroupOrder);
    }
    if !is_next(before, back.end, subject, first) {
        return Err(Refusal::SourceOrder);
    }
    if !is_alike(group, back.group, covered, back.covered) {
        return Err(Refusal::CoverInSome);
    }
    Ok(())
}
