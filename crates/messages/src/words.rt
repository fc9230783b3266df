// A line of plain words for each refusal, by which a host knows what to look at.
ghost use Rattle.std.specs.Prelude.{◌≡◌, [], ◌+◌, ◌≤◌, ◌<◌, length, get_or};
ghost use Rattle.lists.specs.Lists.{joined, starts};
ghost use Rattle.run_text.specs.numbers.Wrote.{Wrote};
ghost use Rattle.messages.specs.words.Words.{words_of, table};

use arrays::index;
use columns::refusal::Refusal;
use run_text::lines::put_word;

// Where the words of each number start; a number that is no refusal's has none.
const STARTS: [usize; 45] = [
    0, 0, 38, 144, 203, 248, 297, 360, 458, 495, 533, 592, 650, 746, 776, 821, 902, 951, 1042,
    1081, 1151, 1220, 1245, 1331, 1426, 1519, 1601, 1660, 1692, 1692, 1692, 1692, 1692, 1692, 1692,
    1692, 1692, 1692, 1692, 1692, 1692, 1773, 1846, 1949, 2049,
];

// Where the words of a number start, or after the last one all words end.
fn start(i: usize) -> usize
    requires { i < 45 }
    ensures { result ≡ get_or (starts 0 table) i 0 }
{
    STARTS[i]
}

// The words of a number, out of those of all numbers.
fn put_some(out: &mut [u8], at: usize, all: &[u8], i: usize) -> usize
    requires { (all.now ≡ joined table) × ((i < 44) × (at + 120 ≤ length out.old)) }
    ensures { Wrote (get_or table i []) 120 out.old at out.new result }
{
    let a = start(i);
    let e = start(i + 1);
    put_word(out, at, &all[a..e])
}

// The words of a number, from `at` on; a number that is no refusal's has none. Answers the place after them.
pub fn words_of_number(number: u64, out: &mut [u8], at: usize) -> usize
    requires { at + 120 ≤ length out.old }
    ensures { Wrote (get_or table number []) 120 out.old at out.new result }
{
    if 43 < number {
        return at;
    }
    let all = b"\
        the subject is not 1 to 255 bytes long\
        the edge entries are not as many as the rows, or their offsets do not rise from 0 to the number of targets\
        the first number and the number of rows together reach 2^64\
        an event names a parent that is not before it\
        an event names a parent twice in one of its lists\
        an unresolved reference is of an event that is not in this file\
        an unresolved reference has a kind that is neither 0 nor 1, or names its parent by sequence number\
        the least depth is above the greatest\
        the labels are not as many as the rows\
        the sequence numbers of a chain do not rise from row to row\
        an inbound edge comes from an event before this file's end\
        an inbound edge goes to an event that is not in this file, or has a kind that is neither 0 nor 1\
        an inbound edge is given twice\
        the granule has rows beyond those of the file\
        an event and its parent or child are too far apart for a signed number of 64 bits\
        a state root is of a row that is not in this file\
        the offsets are not two for each row and one more, rising or level from 0 to the edge count\
        the deltas are not as many as the edges\
        a delta leads below 0, past 2^64 - 1 or to the wrong side of its event\
        the label columns that were read are not as long as the rows are many\
        a label is above 2^32 - 1\
        the cover's chains or links are out of order, or its link columns are not equally long\
        a record of the archive is broken: its length, version, kind, order, or something that it holds\
        there is no file, or this file's group is neither that of the file before it nor the next one\
        this file belongs to another room, or does not start where the one before it ended\
        some files of a group have a chain cover and some have none\
        every event of a group is erased\
        this call is out of turn: files are taken first, then resolved once, then written\
        a slice that was lent is too short, or what the listing reads is too long\
        there are more than 1,024 events, roots, unresolved references, ranges or links, or more than 16 groups\
        there are more than 4,096 numbers in a column, in one set of all files, or in all new lists together";
    put_some(out, at, all, index(number))
}

// The words of a refusal, from `at` on; answers the place after them.
pub fn words(refusal: Refusal, out: &mut [u8], at: usize) -> usize
    requires { at + 120 ≤ length out.old }
    ensures { Wrote (words_of refusal) 120 out.old at out.new result }
{
    words_of_number(refusal.number(), out, at)
}
