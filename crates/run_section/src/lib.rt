// Survivors as tables: records of one width, one after the other in a slice. The section of a group in them: where its rows and records stand, which
// of building's rules it breaks, and how long its file is.
#![tactic(auto)]

pub mod covers;
pub mod facts;
pub mod measures;
pub mod places;
pub mod prepare;
pub mod rules;
pub mod sizes;
pub mod tables;

// Where survivors start, and how many rows, unresolved records, roots and links there are.
#[derive(Clone, Copy)]
pub struct Counts {
    pub start: u64,
    pub rows: usize,
    pub unresolved: usize,
    pub roots: usize,
    pub links: usize,
}

// Where the records of a group stand in a table: from one place up to another.
#[derive(Clone, Copy)]
pub struct Span {
    pub from: usize,
    pub to: usize,
}

// The section of a group in every table.
#[derive(Clone, Copy)]
pub struct Section {
    pub rows: Span,
    pub unresolved: Span,
    pub roots: Span,
    pub links: Span,
}
