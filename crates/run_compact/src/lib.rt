// The columns of a run without its erased rows: each is compacted in place, by flags that are 0 where a row survives.
#![tactic(auto)]

pub mod following;
pub mod keep;
pub mod slots;
