// The sets of a file's edges, in the order in which they are stored.

#[derive(Clone, Copy, Debug, PartialEq, Eq)]
pub enum Set {
    Forward,
    Reverse,
    Inbound,
}
