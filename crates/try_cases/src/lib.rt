// Cases of the original's kept answers: their parts, whether an answer is the kept one, how many agree; and the questions over edge columns.
#![tactic(auto)]

pub mod answers;
pub mod granules;
pub mod parts;
pub mod tally;
pub mod walks;
