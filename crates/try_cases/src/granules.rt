// Reading a granule, and the questions over its columns.
use crate::answers::{is_answered, is_counted, is_list, is_refused};
use crate::parts::{after, behind_all, count, kind, list, list_of, number};
use columns::kind::Kinds;
use columns::refusal::Refusal;
use columns_ask::ChainLabel;
use columns_read::{Counts, Head};

// Three lists of targets, and the labels as they were given.
fn is_read(
    words: &[u64],
    at: usize,
    decoded: Result<Counts, Refusal>,
    forward: &[u64],
    reverse: &[u64],
    inbound: &[u64],
) -> bool {
    match decoded {
        Ok(counts) => {
            let lists = after(at);
            number(words, at) == 0
                && is_list(words, lists, 0, forward, counts.forward)
                && is_list(words, lists, 1, reverse, counts.reverse)
                && is_list(words, lists, 2, inbound, counts.inbound)
        }
        Err(why) => is_refused(words, at, why),
    }
}

// First, rows, end; three sets, each count, offsets, deltas; whether there are labels, chains, seqs.
pub fn read_agrees(words: &[u64], signed: &[i64]) -> bool {
    let reverse_at = behind_all(words, 4, 2);
    let inbound_at = behind_all(words, after(reverse_at), 2);
    let labels_at = behind_all(words, after(inbound_at), 2);
    let mut forward = [0u64; 4096];
    let mut reverse = [0u64; 4096];
    let mut inbound = [0u64; 4096];
    let head = Head {
        first: number(words, 0),
        rows: count(words, 1),
        end: number(words, 2),
        forward: number(words, 3),
        reverse: number(words, reverse_at),
        inbound: number(words, inbound_at),
        cover: number(words, labels_at) != 0,
    };
    let decoded = columns_read::decode_granule_edges(
        Kinds::Two,
        head,
        list(words, 4, 0),
        list_of(words, signed, 4, 1),
        list(words, after(reverse_at), 0),
        list_of(words, signed, after(reverse_at), 1),
        list(words, after(inbound_at), 0),
        list_of(words, signed, after(inbound_at), 1),
        list(words, after(labels_at), 0),
        list(words, after(labels_at), 1),
        &mut forward,
        &mut reverse,
        &mut inbound,
    );
    let at = behind_all(words, after(labels_at), 2);
    is_read(words, at, decoded, &forward, &reverse, &inbound)
}

// First, rows, end, count, offsets, deltas, kind, number.
pub fn parents_agree(words: &[u64], signed: &[i64]) -> bool {
    let asked = behind_all(words, 4, 2);
    let mut out = [0u64; 4096];
    let counted = columns_ask::parents(
        Kinds::Two,
        number(words, 0),
        count(words, 1),
        number(words, 2),
        number(words, 3),
        list(words, 4, 0),
        list_of(words, signed, 4, 1),
        kind(words, asked),
        number(words, after(asked)),
        &mut out,
    );
    is_counted(words, after(after(asked)), counted, &out)
}

// First, rows, end; the reverse and the inbound set, each count, offsets, deltas; kind, number.
pub fn children_agree(words: &[u64], signed: &[i64]) -> bool {
    let inbound_at = behind_all(words, 4, 2);
    let asked = behind_all(words, after(inbound_at), 2);
    let mut out = [0u64; 4096];
    let counted = columns_ask::children(
        Kinds::Two,
        number(words, 0),
        count(words, 1),
        number(words, 2),
        number(words, 3),
        list(words, 4, 0),
        list_of(words, signed, 4, 1),
        number(words, inbound_at),
        list(words, after(inbound_at), 0),
        list_of(words, signed, after(inbound_at), 1),
        kind(words, asked),
        number(words, after(asked)),
        &mut out,
    );
    is_counted(words, after(after(asked)), counted, &out)
}

fn is_labelled(words: &[u64], at: usize, labelled: Result<Option<ChainLabel>, Refusal>) -> bool {
    match labelled {
        Ok(Some(label)) => {
            let found = [u64::from(label.chain), u64::from(label.seq)];
            is_answered(words, at, &found, 2)
        }
        Ok(None) => {
            let found = [0u64; 1];
            is_answered(words, at, &found, 0)
        }
        Err(why) => is_refused(words, at, why),
    }
}

// First, rows, chains, seqs, number.
pub fn label_agrees(words: &[u64]) -> bool {
    let asked = behind_all(words, 2, 2);
    let labelled = columns_ask::label(
        number(words, 0),
        count(words, 1),
        list(words, 2, 0),
        list(words, 2, 1),
        number(words, asked),
    );
    is_labelled(words, after(asked), labelled)
}

// First, rows, events.
pub fn roots_agree(words: &[u64]) -> bool {
    let mut out = [0u64; 1024];
    let roots = columns_build::roots::state_root_entries(
        number(words, 0),
        count(words, 1),
        list(words, 2, 0),
        &mut out,
    );
    is_counted(words, behind_all(words, 2, 1), roots, &out)
}
