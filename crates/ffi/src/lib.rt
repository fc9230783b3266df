// What the libraries for programs in C or Rust share: each of their functions hands what it is lent to the proved function of its name, and answers by
// numbers. A slice is a pointer and a length in elements. `refusal` is document 01's number, or 0 where the call is accepted.
#![tactic(auto)]

pub mod answer;
pub mod given;
pub mod granule;
