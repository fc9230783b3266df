// Work on lent arrays of numbers: sorting them and pairs of them, binary search, and a set of numbers in buckets.
#![tactic(auto)]

pub mod pairs;
pub mod searching;
pub mod sorting;
pub mod table;

ghost use Rattle.std.specs.Prelude.{◌≡◌};

// A number of 64 bits as an index; nothing of it is lost.
pub fn index(x: u64) -> usize
    ensures { result ≡ x }
{
    x as usize
}
