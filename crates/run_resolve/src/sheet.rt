// Resolving: from what a run holds to the sheet of its survivors.
pub mod asked;
pub mod kept;
pub mod renewed;
