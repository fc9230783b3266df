// Building the edge columns of a granule, and the state roots of a file. The definitions are those of columns.
#![tactic(auto)]

pub mod encode;
pub mod roots;
