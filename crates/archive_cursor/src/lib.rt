// Big-endian numbers in lent bytes, for whoever has not looked at the place: one number, or a column of them.
#![tactic(auto)]

pub mod cursor;
pub mod number_columns;
