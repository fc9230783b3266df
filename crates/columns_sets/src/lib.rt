// The reverse and inbound sets of a file, made by counting: the parents' lists turned round, given inbound edges put in order; and every set's columns
// written.
#![tactic(auto)]

pub mod counting;
pub mod gather;
pub mod inbound;
pub mod sections;
pub mod sets;
pub mod transpose;
