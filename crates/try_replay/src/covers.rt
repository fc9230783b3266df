// Building, storing, reading a cover, and its two questions.
use columns::refusal::Refusal;
use try_cases::answers::{is_list, is_refused};
use try_cases::parts::{after, behind_all, list_of, number};

// Whether the four lists behind so many from a place on are the first n numbers of four columns.
fn are_columns(
    words: &[u64],
    at: usize,
    lists: usize,
    n: usize,
    a: &[u32],
    b: &[u32],
    c: &[u32],
    d: &[u32],
) -> bool {
    let first = behind_all(words, at, lists);
    is_list(words, first, 0, a, n)
        && is_list(words, first, 1, b, n)
        && is_list(words, first, 2, c, n)
        && is_list(words, first, 3, d, n)
}

// Four columns of links.
fn are_links(
    words: &[u64],
    at: usize,
    answer: Result<usize, Refusal>,
    a: &[u32],
    b: &[u32],
    c: &[u32],
    d: &[u32],
) -> bool {
    match answer {
        Ok(n) => number(words, at) == 0 && are_columns(words, after(at), 0, n, a, b, c, d),
        Err(why) => is_refused(words, at, why),
    }
}

// Four columns of links.
pub fn stored_agrees(words: &[u64], shorts: &[u32]) -> bool {
    let mut a = [0u32; 1024];
    let mut b = [0u32; 1024];
    let mut c = [0u32; 1024];
    let mut d = [0u32; 1024];
    let answer = cover_build::encode::encode_links(
        list_of(words, shorts, 0, 0),
        list_of(words, shorts, 0, 1),
        list_of(words, shorts, 0, 2),
        list_of(words, shorts, 0, 3),
        &mut a,
        &mut b,
        &mut c,
        &mut d,
    );
    are_links(words, behind_all(words, 0, 4), answer, &a, &b, &c, &d)
}

// Three columns of ranges, four stored columns.
pub fn decode_agrees(words: &[u64], shorts: &[u32]) -> bool {
    let mut a = [0u32; 1024];
    let mut b = [0u32; 1024];
    let mut c = [0u32; 1024];
    let mut d = [0u32; 1024];
    let answer = cover_read::read(
        list_of(words, shorts, 0, 0),
        list_of(words, shorts, 0, 1),
        list_of(words, shorts, 0, 2),
        list_of(words, shorts, 0, 3),
        list_of(words, shorts, 0, 4),
        list_of(words, shorts, 0, 5),
        list_of(words, shorts, 0, 6),
        &mut a,
        &mut b,
        &mut c,
        &mut d,
    );
    are_links(words, behind_all(words, 0, 7), answer, &a, &b, &c, &d)
}

// Four stored columns, chains.
pub fn links_agree(words: &[u64], shorts: &[u32]) -> bool {
    let mut a = [0u32; 1024];
    let mut b = [0u32; 1024];
    let mut c = [0u32; 1024];
    let mut d = [0u32; 1024];
    let answer = cover_read::links::chain_links(
        list_of(words, shorts, 0, 0),
        list_of(words, shorts, 0, 1),
        list_of(words, shorts, 0, 2),
        list_of(words, shorts, 0, 3),
        list_of(words, shorts, 0, 4),
        &mut a,
        &mut b,
        &mut c,
        &mut d,
    );
    are_links(words, behind_all(words, 0, 5), answer, &a, &b, &c, &d)
}

fn is_held(words: &[u64], at: usize, window: Result<bool, Refusal>) -> bool {
    match window {
        Ok(holds) => number(words, at) == 0 && (number(words, after(at)) == 1) == holds,
        Err(why) => is_refused(words, at, why),
    }
}

// The number at a place of a 32-bit column.
fn word(shorts: &[u32], at: usize) -> u32 {
    shorts.get(at).copied().unwrap_or(0)
}

// Three columns of ranges, chain, low, high.
pub fn window_agrees(words: &[u64], shorts: &[u32]) -> bool {
    let chain = behind_all(words, 0, 3);
    let low = after(chain);
    let high = after(low);
    let window = cover_read::window::may_hold_chain(
        list_of(words, shorts, 0, 0),
        list_of(words, shorts, 0, 1),
        list_of(words, shorts, 0, 2),
        word(shorts, chain),
        word(shorts, low),
        word(shorts, high),
    );
    is_held(words, after(high), window)
}

// Three columns of ranges and four of links.
fn is_cover(
    words: &[u64],
    at: usize,
    built: Result<(usize, usize), Refusal>,
    ids: &[u32],
    minima: &[u32],
    maxima: &[u32],
    a: &[u32],
    b: &[u32],
    c: &[u32],
    d: &[u32],
) -> bool {
    match built {
        Ok((ranges, links)) => {
            let lists = after(at);
            number(words, at) == 0
                && is_list(words, lists, 0, ids, ranges)
                && is_list(words, lists, 1, minima, ranges)
                && is_list(words, lists, 2, maxima, ranges)
                && are_columns(words, lists, 3, links, a, b, c, d)
        }
        Err(why) => is_refused(words, at, why),
    }
}

// Labels, two columns; four columns of links.
pub fn cover_agrees(words: &[u64], shorts: &[u32]) -> bool {
    let mut ids = [0u32; 1024];
    let mut minima = [0u32; 1024];
    let mut maxima = [0u32; 1024];
    let mut a = [0u32; 1024];
    let mut b = [0u32; 1024];
    let mut c = [0u32; 1024];
    let mut d = [0u32; 1024];
    let built = cover_build::build(
        list_of(words, shorts, 0, 0),
        list_of(words, shorts, 0, 1),
        list_of(words, shorts, 0, 2),
        list_of(words, shorts, 0, 3),
        list_of(words, shorts, 0, 4),
        list_of(words, shorts, 0, 5),
        &mut ids,
        &mut minima,
        &mut maxima,
        &mut a,
        &mut b,
        &mut c,
        &mut d,
    );
    let at = behind_all(words, 0, 6);
    is_cover(words, at, built, &ids, &minima, &maxima, &a, &b, &c, &d)
}
