// The writer of archive records: one call for each of a file's seven records, from lent columns. specs/ says what each answer is.
#![tactic(auto)]

mod references;
mod rules;
pub mod writer;
