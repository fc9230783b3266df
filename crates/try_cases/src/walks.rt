// Walks, and their single steps.
use crate::answers::{is_counted, is_list, is_refused};
use crate::parts::{after, behind_all, count, kind, list, list_of, number, part};
use columns::kind::Kinds;
use columns::refusal::Refusal;
use columns_walk::level::next;

// Whether the lists from a place on are the levels that end where `ends` says, and their total stands behind them.
fn are_levels(
    words: &[u64],
    at: usize,
    out: &[u64],
    ends: &[u64],
    levels: usize,
    total: usize,
) -> bool {
    let mut from = 0;
    for i in 0..levels {
        let to = count(ends, i);
        let level = part(out, from, to);
        if !is_list(words, at, i, level, level.len()) {
            return false;
        }
        from = to;
    }
    from == total && count(words, behind_all(words, at, levels)) == total
}

// How many levels, the levels, and how many numbers they have.
fn is_handed(
    words: &[u64],
    at: usize,
    handed: Result<(usize, usize), Refusal>,
    out: &[u64],
    ends: &[u64],
) -> bool {
    match handed {
        Ok((levels, total)) => {
            let p = after(at);
            number(words, at) == 0
                && count(words, p) == levels
                && are_levels(words, after(p), out, ends, levels, total)
        }
        Err(why) => is_refused(words, at, why),
    }
}

// First, rows, end, count, offsets, deltas, kind, limit, start.
pub fn walk_agrees(words: &[u64], signed: &[i64]) -> bool {
    let asked = behind_all(words, 4, 2);
    let limit = after(asked);
    let start = after(limit);
    let mut out = [0u64; 4096];
    let mut ends = [0u64; 4096];
    let handed = columns_walk::walk(
        Kinds::Two,
        number(words, 0),
        count(words, 1),
        number(words, 2),
        number(words, 3),
        list(words, 4, 0),
        list_of(words, signed, 4, 1),
        kind(words, asked),
        count(words, limit),
        number(words, start),
        &mut out,
        &mut ends,
    );
    is_handed(words, after(start), handed, &out, &ends)
}

// First, rows, end, count, offsets, deltas, kind, limit, what was visited, the last level.
pub fn next_agrees(words: &[u64], signed: &[i64]) -> bool {
    let asked = behind_all(words, 4, 2);
    let limit = after(asked);
    let mut out = [0u64; 4096];
    let counted = next(
        Kinds::Two,
        number(words, 0),
        count(words, 1),
        number(words, 2),
        number(words, 3),
        list(words, 4, 0),
        list_of(words, signed, 4, 1),
        kind(words, asked),
        count(words, limit),
        list(words, after(limit), 0),
        list(words, after(limit), 1),
        &mut out,
    );
    is_counted(words, behind_all(words, after(limit), 2), counted, &out)
}
