// The rules of the parts of a file at taking, over the bytes of its records.
pub mod covers;
pub mod heads;
pub mod sets;
pub mod tables;
