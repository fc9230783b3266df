// Building a granule's columns.
use columns::depth::Depth;
use columns::refusal::Refusal;
use columns_build::encode::encode_graph_blocks;
use columns_encode::writing::Counts;
use try_cases::answers::{is_list, is_refused};
use try_cases::parts::{after, behind_all, count, list, list_of, number};

// Whether the set at a place, count, offsets, deltas, is this one: so many offsets and n deltas, which are compared as words.
fn is_set(
    words: &[u64],
    at: usize,
    entries: usize,
    n: usize,
    offsets: &[u64],
    deltas: &[i64],
) -> bool {
    let mut bytes = [0u8; 32768];
    let mut numbers = [0u64; 4096];
    // Nothing is refused here: n is at most 4,096.
    let _ = archive_cursor::number_columns::put_i64s(deltas, n, &mut bytes, 0);
    let _ = archive_cursor::number_columns::load_u64s(&bytes, 0, n, &mut numbers);
    count(words, at) == n
        && is_list(words, after(at), 0, offsets, entries)
        && is_list(words, after(at), 1, &numbers, n)
}

// So many offsets do the sets of n rows have.
pub fn offset_count(n: usize) -> usize {
    if n <= 1024 {
        return 2 * n + 1;
    }
    0
}

// Whether the answer at a place is this one: three sets, with so many offsets each.
pub fn is_built(
    words: &[u64],
    at: usize,
    entries: usize,
    encoded: Result<Counts, Refusal>,
    fo: &[u64],
    fd: &[i64],
    ro: &[u64],
    rd: &[i64],
    io: &[u64],
    id: &[i64],
) -> bool {
    match encoded {
        Ok(counts) => {
            let forward = after(at);
            let reverse = behind_all(words, after(forward), 2);
            let inbound = behind_all(words, after(reverse), 2);
            number(words, at) == 0
                && is_set(words, forward, entries, counts.forward, fo, fd)
                && is_set(words, reverse, entries, counts.reverse, ro, rd)
                && is_set(words, inbound, entries, counts.inbound, io, id)
        }
        Err(why) => is_refused(words, at, why),
    }
}

// The depth that the list at a place holds.
fn depth(words: &[u64], at: usize) -> Depth {
    if number(words, at) == 0 {
        return Depth::Unknown;
    }
    let low = after(at);
    Depth::Between(number(words, low), number(words, after(low)))
}

// Of a graph whose slot offsets stand at `lists`: targets, children, kinds and flags of its unresolved records, depth; whether there are
// labels, chains, seqs, children, parents and kinds of its inbound edges; the granule's first row and its rows.
fn granule_agrees(
    words: &[u64],
    shorts: &[u32],
    subject: &[u8],
    first: u64,
    rows: usize,
    lists: usize,
) -> bool {
    let labelled = behind_all(words, lists, 6);
    let labels = after(labelled);
    let granule = behind_all(words, labels, 5);
    let mut fo = [0u64; 2049];
    let mut fd = [0i64; 4096];
    let mut ro = [0u64; 2049];
    let mut rd = [0i64; 4096];
    let mut io = [0u64; 2049];
    let mut id = [0i64; 4096];
    let encoded = encode_graph_blocks(
        subject,
        first,
        rows,
        list(words, lists, 0),
        list(words, lists, 1),
        list(words, lists, 2),
        list(words, lists, 3),
        list(words, lists, 4),
        depth(words, behind_all(words, lists, 5)),
        number(words, labelled) != 0,
        list_of(words, shorts, labels, 0),
        list_of(words, shorts, labels, 1),
        list(words, labels, 2),
        list(words, labels, 3),
        list(words, labels, 4),
        count(words, granule),
        count(words, after(granule)),
        &mut fo,
        &mut fd,
        &mut ro,
        &mut rd,
        &mut io,
        &mut id,
    );
    let entries = offset_count(count(words, after(granule)));
    is_built(
        words,
        after(after(granule)),
        entries,
        encoded,
        &fo,
        &fd,
        &ro,
        &rd,
        &io,
        &id,
    )
}

// Subject, first number, rows, slot offsets, and the rest of the graph.
pub fn build_agrees(words: &[u64], shorts: &[u32], bytes: &[u8]) -> bool {
    let first = behind_all(words, 0, 1);
    let rows = after(first);
    granule_agrees(
        words,
        shorts,
        list_of(words, bytes, 0, 0),
        number(words, first),
        count(words, rows),
        after(rows),
    )
}
