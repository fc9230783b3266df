// The chain cover for programs in C or Rust, answered by numbers.
#![tactic(auto)]

pub mod covers;
