// The work of building behind its public call: limits and rules in order, then the three sets of a granule.
#![tactic(auto)]

pub mod early;
pub mod kept;
mod late;
pub mod lent;
pub mod writing;
