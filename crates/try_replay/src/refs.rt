// References resolved to parent lists and unresolved records, and what building makes of them.
use crate::builds::{is_built, offset_count};
use columns::depth::Depth;
use columns::refusal::Refusal;
use columns_build::encode::encode_graph_blocks;
use columns_refs::{Made, resolve_graph};
use try_cases::answers::{is_list, is_refused};
use try_cases::parts::{after, behind_all, count, list, list_of, number, part};

// Asks what a case asks: first number, rows; where each row's references start; kinds, spaces, targets; whether each is known, numbers.
fn resolve(
    words: &[u64],
    bytes: &[u8],
    offsets: &mut [u64],
    parents: &mut [u64],
    children: &mut [u64],
    ukinds: &mut [u64],
    handles: &mut [u64],
) -> Result<Made, Refusal> {
    resolve_graph(
        number(words, 0),
        count(words, 1),
        list(words, 2, 0),
        list_of(words, bytes, 2, 1),
        list_of(words, bytes, 2, 2),
        list(words, 2, 3),
        list_of(words, bytes, 2, 4),
        list(words, 2, 5),
        offsets,
        parents,
        children,
        ukinds,
        handles,
    )
}

// Whether the lists from a place on are these: slot offsets, targets, and three columns of records.
fn are_made(
    words: &[u64],
    at: usize,
    made: Made,
    offsets: &[u64],
    parents: &[u64],
    children: &[u64],
    ukinds: &[u64],
    handles: &[u64],
) -> bool {
    let entries = offset_count(count(words, 1));
    is_list(words, at, 0, offsets, entries)
        && is_list(words, at, 1, parents, made.parents)
        && is_list(words, at, 2, children, made.unresolved)
        && is_list(words, at, 3, ukinds, made.unresolved)
        && is_list(words, at, 4, handles, made.unresolved)
}

pub fn resolve_agrees(words: &[u64], bytes: &[u8]) -> bool {
    let at = behind_all(words, 2, 6);
    let mut offsets = [0u64; 2049];
    let mut parents = [0u64; 4096];
    let mut children = [0u64; 1024];
    let mut ukinds = [0u64; 1024];
    let mut handles = [0u64; 1024];
    let resolved = resolve(
        words,
        bytes,
        &mut offsets,
        &mut parents,
        &mut children,
        &mut ukinds,
        &mut handles,
    );
    match resolved {
        Ok(made) => {
            number(words, at) == 0
                && are_made(
                    words,
                    after(at),
                    made,
                    &offsets,
                    &parents,
                    &children,
                    &ukinds,
                    &handles,
                )
        }
        Err(why) => is_refused(words, at, why),
    }
}

// Whether building makes the kept answer of what was resolved: of a subject of one byte, without depth, labels and inbound edges, all rows.
fn built_agrees(
    words: &[u64],
    offsets: &[u64],
    parents: &[u64],
    children: &[u64],
    ukinds: &[u64],
    flags: &[u64],
) -> bool {
    let rows = count(words, 1);
    let chains = [0u32; 1];
    let seqs = [0u32; 1];
    let mut fo = [0u64; 2049];
    let mut fd = [0i64; 4096];
    let mut ro = [0u64; 2049];
    let mut rd = [0i64; 4096];
    let mut io = [0u64; 2049];
    let mut id = [0i64; 4096];
    let encoded = encode_graph_blocks(
        b"a",
        number(words, 0),
        rows,
        offsets,
        parents,
        children,
        ukinds,
        flags,
        Depth::Unknown,
        false,
        &chains[..0],
        &seqs[..0],
        &flags[..0],
        &flags[..0],
        &flags[..0],
        0,
        rows,
        &mut fo,
        &mut fd,
        &mut ro,
        &mut rd,
        &mut io,
        &mut id,
    );
    let at = behind_all(words, 2, 6);
    is_built(
        words,
        at,
        offset_count(rows),
        encoded,
        &fo,
        &fd,
        &ro,
        &rd,
        &io,
        &id,
    )
}

pub fn handed_agrees(words: &[u64], bytes: &[u8]) -> bool {
    let mut offsets = [0u64; 2049];
    let mut parents = [0u64; 4096];
    let mut children = [0u64; 1024];
    let mut ukinds = [0u64; 1024];
    let mut handles = [0u64; 1024];
    let resolved = resolve(
        words,
        bytes,
        &mut offsets,
        &mut parents,
        &mut children,
        &mut ukinds,
        &mut handles,
    );
    let flags = [0u64; 1024];
    match resolved {
        Ok(made) => built_agrees(
            words,
            part(&offsets, 0, offset_count(count(words, 1))),
            part(&parents, 0, made.parents),
            part(&children, 0, made.unresolved),
            part(&ukinds, 0, made.unresolved),
            part(&flags, 0, made.unresolved),
        ),
        Err(why) => is_refused(words, behind_all(words, 2, 6), why),
    }
}
