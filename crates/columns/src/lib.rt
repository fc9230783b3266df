// Edge columns of an event graph: reading, building and asking. specs/ says what each answer is.
#![tactic(auto)]

pub mod between;
pub mod depth;
pub mod kind;
pub mod refusal;
pub mod set;
