// The parts of a case, words of 64 bits: a part is a number, or a list, its length and then its numbers. Where a part does not fit, it is 0
// or empty. The same words stand in other widths beside them, so a list of those is found by the words.
use arrays::index;
use columns::kind::Kind;

// The next place.
pub fn after(at: usize) -> usize {
    at.saturating_add(1)
}

// The number at a place.
pub fn number<T: Copy + Into<u64>>(values: &[T], at: usize) -> u64 {
    match values.get(at) {
        Some(value) => (*value).into(),
        None => 0,
    }
}

// The same as a count.
pub fn count(words: &[u64], at: usize) -> usize {
    index(number(words, at))
}

// The same as a kind: 0 is prev, any other auth. `Kind` is of another crate, so no `From` impl can stand here.
pub fn kind(words: &[u64], at: usize) -> Kind {
    match number(words, at) {
        0 => Kind::Prev,
        _ => Kind::Auth,
    }
}

// The place behind the list at a place.
pub fn behind(words: &[u64], at: usize) -> usize {
    if at < words.len() {
        let n = index(words[at]);
        if n < words.len() - at {
            return at + 1 + n;
        }
    }
    words.len()
}

// The place behind so many lists from a place on.
pub fn behind_all(words: &[u64], at: usize, lists: usize) -> usize {
    let mut p = at;
    for _ in 0..lists {
        p = behind(words, p);
    }
    p
}

pub fn part<T>(values: &[T], from: usize, to: usize) -> &[T] {
    values.get(from..to).unwrap_or(&values[..0])
}

// The list that stands behind so many lists from a place on, of values beside the words.
pub fn list_of<'a, T>(words: &[u64], values: &'a [T], at: usize, lists: usize) -> &'a [T] {
    let p = behind_all(words, at, lists);
    part(values, after(p), behind(words, p))
}

// The same of the words.
pub fn list(words: &[u64], at: usize, lists: usize) -> &[u64] {
    list_of(words, words, at, lists)
}
