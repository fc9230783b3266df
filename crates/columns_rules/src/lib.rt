// What building refuses of a file and its parents (1 to 5), in document 01's order, and what every rule answers.
#![tactic(auto)]

pub mod file;
pub mod records;
pub mod seqs;
pub mod slots;
pub mod spans;
