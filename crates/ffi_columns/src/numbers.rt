// Kinds and sets by their numbers. The two enums and the numbers are of other crates, so no `TryFrom` impl can stand here.
ghost use Rattle.std.specs.Prelude.{◌≡◌, ◌<◌, ◌≤◌, MatchOption};
ghost use Rattle.columns.specs.Limits.{kinds, edge_sets};
ghost use Rattle.columns.specs.Answers.{kind_of, set_number};

use columns::kind::Kind;
use columns::set::Set;

// The kind that a number names.
pub(crate) fn kind_of(n: u64) -> Option<Kind>
    ensures { MatchOption result (kinds ≤ n) (λ kind. (kind_of kind ≡ n) × (n < kinds)) }
{
    match n {
        0 => Some(Kind::Prev),
        1 => Some(Kind::Auth),
        _ => None,
    }
}

// The set that a number names.
pub(crate) fn set_of(n: u64) -> Option<Set>
    ensures { MatchOption result (edge_sets ≤ n) (λ set. (set_number set ≡ n) × (n < edge_sets)) }
{
    match n {
        0 => Some(Set::Forward),
        1 => Some(Set::Reverse),
        2 => Some(Set::Inbound),
        _ => None,
    }
}
