// Edge columns for programs in C or Rust: read, asked and walked, answered by numbers.
#![tactic(auto)]

pub mod edges;
mod numbers;
pub mod walks;
