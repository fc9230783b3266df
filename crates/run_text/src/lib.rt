// The text of a listing in lent bytes: numbers, lines, and the lines of a file.
#![tactic(auto)]

pub mod files;
pub mod lines;
pub mod numbers;
