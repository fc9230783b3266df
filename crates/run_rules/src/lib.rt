// What taking refuses of an archive's bytes: the rules of each part of a file, of all files in turn, and the limits of run and archive together.
#![tactic(auto)]

pub mod files;
pub mod limits;
pub mod parts;
