// A run that has taken nothing.
ghost use Rattle.std.specs.Prelude.{◌≡◌, true};
ghost use Rattle.cleaning.specs.Held.{nothing};
ghost use Rattle.run_state.specs.View.{held_in};
ghost use Rattle.run_state.specs.Valid.{held_ok};
ghost use Rattle.run_state.specs.Blank.{blank};

use crate::{Edges, Ends, Groups, Held, Links, Roots, Rows, Sheet, Subject, Unresolved};

// What is held of no sources: every column is all zeros.
pub fn fresh() -> Held
    ensures { (held_in result ≡ nothing) × ((held_ok result ≡ true) × (result ≡ blank)) }
{
    let flags = [0u8; 1024];
    let numbers = [0u64; 1024];
    let words = [0u32; 1024];
    let few_flags = [0u8; 16];
    let few = [0u64; 16];
    let name = [0u8; 255];
    let offsets = [0u64; 2049];
    let targets = [0u64; 4096];
    let none = Edges {
        count: 0,
        offsets,
        targets,
    };
    let ends = Ends {
        chains: words,
        seqs: words,
    };
    let sheet = Sheet {
        start: 0,
        subject: Subject {
            length: 0,
            bytes: name,
        },
        groups: Groups {
            count: 0,
            known: few_flags,
            least: few,
            greatest: few,
            covered: few_flags,
        },
        rows: Rows {
            count: 0,
            groups: flags,
            tags: numbers,
            chains: words,
            seqs: words,
        },
        edges: none,
        unresolved: Unresolved {
            count: 0,
            children: numbers,
            kinds: flags,
            handles: words,
        },
        roots: Roots {
            count: 0,
            rows: numbers,
            handles: numbers,
        },
        links: Links {
            count: 0,
            groups: flags,
            from: ends,
            to: ends,
        },
    };
    Held {
        sheet,
        erased: flags,
        reverse: none,
        inbound: none,
        ranges: 0,
    }
}
