// Sets of edges slot by slot, behind reading: their rules, those of label columns, limits, and the targets that deltas name.
#![tactic(auto)]

mod delta;
pub mod sets;
