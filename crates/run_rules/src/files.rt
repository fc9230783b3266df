// The rules of an archive's files at taking: those of one file, part by part, and those of all, each file looking back at the one before it.
pub mod all;
pub mod one;
