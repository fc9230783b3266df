// The functions of `ffi_columns` for programs in C or Rust: each calls the proved function of its name, and promises what that promises.
#![tactic(auto)]

mod edges;
mod walks;
