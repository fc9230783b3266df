// The parts of an archive's records stored in lent bytes, each from a place on, and how many bytes they have. Whoever calls has seen that
// there is room.
#![tactic(auto)]

pub mod covers;
pub mod edges;
pub mod heads;
pub mod order;
pub mod records;
pub mod references;
pub mod sections;
pub mod sizes;
pub mod strided;
pub mod tables;
