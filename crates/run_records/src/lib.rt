// The records of an output file, each stored from tables of survivors into lent bytes, from a place on; each function answers the place after what
// it wrote. Whoever calls has seen that there is room.
#![tactic(auto)]

pub mod covers;
pub mod files;
pub mod front;
pub mod lengths;
pub mod strided;
pub mod tables;
