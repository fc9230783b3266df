// The reader of an archive: its files one by one, and what 42 and 43 look at over all of them. specs/ says what each answer is.
#![tactic(auto)]

pub mod bodies;
pub mod files;
pub mod records;
pub mod references;
