// What a run holds, as columns of fixed length: the rows and records of its sources, and those of its survivors. specs/ says what they stand for.
// A run crosses to C and Rust by value, so that the layout of each struct is C's.
#![tactic(auto)]

pub mod empty;
pub mod order;
pub mod tests;
pub mod valid;

use columns::refusal::Refusal;

// The bytes that name the room.
#[repr(C)]
#[derive(Clone, Copy)]
pub struct Subject {
    pub length: usize,
    pub bytes: [u8; 255],
}

// Groups by rising number: whether the depth is known and what it is, whether there is a cover.
#[repr(C)]
#[derive(Clone, Copy)]
pub struct Groups {
    pub count: usize,
    pub known: [u8; 16],
    pub least: [u64; 16],
    pub greatest: [u64; 16],
    pub covered: [u8; 16],
}

// Rows in the order of their numbers: group, tag and label of each.
#[repr(C)]
#[derive(Clone, Copy)]
pub struct Rows {
    pub count: usize,
    pub groups: [u8; 1024],
    pub tags: [u64; 1024],
    pub chains: [u32; 1024],
    pub seqs: [u32; 1024],
}

// Lists of numbers, two for each row: where each starts, and the numbers of all.
#[repr(C)]
#[derive(Clone, Copy)]
pub struct Edges {
    pub count: usize,
    pub offsets: [u64; 2049],
    pub targets: [u64; 4096],
}

// Unresolved references: the child, the kind, the host's handle of the parent.
#[repr(C)]
#[derive(Clone, Copy)]
pub struct Unresolved {
    pub count: usize,
    pub children: [u64; 1024],
    pub kinds: [u8; 1024],
    pub handles: [u32; 1024],
}

// State roots: a row and the host's handle.
#[repr(C)]
#[derive(Clone, Copy)]
pub struct Roots {
    pub count: usize,
    pub rows: [u64; 1024],
    pub handles: [u64; 1024],
}

// One side of the links between chains.
#[repr(C)]
#[derive(Clone, Copy)]
pub struct Ends {
    pub chains: [u32; 1024],
    pub seqs: [u32; 1024],
}

// Links, and the group of each.
#[repr(C)]
#[derive(Clone, Copy)]
pub struct Links {
    pub count: usize,
    pub groups: [u8; 1024],
    pub from: Ends,
    pub to: Ends,
}

// Rows, and what belongs to them and to their groups. Of each column the entries up to its count are held.
#[repr(C)]
#[derive(Clone, Copy)]
pub struct Sheet {
    pub start: u64,
    pub subject: Subject,
    pub groups: Groups,
    pub rows: Rows,
    pub edges: Edges,
    pub unresolved: Unresolved,
    pub roots: Roots,
    pub links: Links,
}

// What is held of sources: their rows, which of them are erased, the lists of their other two sets, the number of their ranges.
#[repr(C)]
#[derive(Clone, Copy)]
pub struct Held {
    pub sheet: Sheet,
    pub erased: [u8; 1024],
    pub reverse: Edges,
    pub inbound: Edges,
    pub ranges: usize,
}
