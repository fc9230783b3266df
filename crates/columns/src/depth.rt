// The depth of a file as building is told it.

// The least and the greatest depth of a file's events, where they are known.
#[derive(Clone, Copy, Debug, PartialEq, Eq)]
pub enum Depth {
    Unknown,
    Between(u64, u64),
}
