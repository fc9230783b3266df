// The work of a walk behind its public calls: a file's targets, one level, all levels.
#![tactic(auto)]

pub mod frontier;
pub mod parents;
pub mod rounds;
pub mod targets;
