// Whether an answer is the kept one: a refusal's number, or 0 and the answer's parts.
use crate::parts::{after, list, number};
use columns::refusal::Refusal;

// Whether a column starts with the numbers.
fn starts_with<T: Copy + Into<u64>>(out: &[T], numbers: &[u64]) -> bool {
    for (i, n) in numbers.iter().enumerate() {
        if number(out, i) != *n {
            return false;
        }
    }
    true
}

// Whether the list behind so many from a place on is the first n numbers of a column.
pub fn is_list<T: Copy + Into<u64>>(
    words: &[u64],
    at: usize,
    lists: usize,
    out: &[T],
    n: usize,
) -> bool {
    let numbers = list(words, at, lists);
    numbers.len() == n && starts_with(out, numbers)
}

// Whether the answer at a place is this refusal.
pub fn is_refused(words: &[u64], at: usize, why: Refusal) -> bool {
    number(words, at) == why.number()
}

// Whether the answer at a place is one list, the first n numbers of a slice.
pub fn is_answered(words: &[u64], at: usize, out: &[u64], n: usize) -> bool {
    number(words, at) == 0 && is_list(words, after(at), 0, out, n)
}

pub fn is_counted(words: &[u64], at: usize, counted: Result<usize, Refusal>, out: &[u64]) -> bool {
    match counted {
        Ok(n) => is_answered(words, at, out, n),
        Err(why) => is_refused(words, at, why),
    }
}
