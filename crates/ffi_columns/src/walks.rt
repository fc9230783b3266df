// The walk, its single step, and the shared ancestor.
ghost use Rattle.std.specs.Prelude.{◌≡◌, [], ◌∷◌, length};
ghost use Rattle.columns.specs.Limits.{kinds};
ghost use Rattle.columns.specs.Refusal.{first_of};
ghost use Rattle.columns.specs.Reading.{slots_of};
ghost use Rattle.columns.specs.Questions.{list_of};
ghost use Rattle.columns.specs.Answers.{columns_of, room, lent_rules, counted_of, written_over};
ghost use Rattle.columns.specs.Walk as definition;
ghost use Rattle.columns_walk.specs.Handing.{rooms, handed_of, numbers_of, ends_of};
ghost use Rattle.columns_walk.specs.level.Step as step;
ghost use Rattle.ffi_columns.specs.Numbers.{unnamed, after, count_of, walked_of, ancestor_of, PromisedBy};

use crate::numbers::kind_of;
use columns::kind::Kinds;
use columns::refusal::Refusal;
use ffi::answer::Answer;

// How many levels a walk has, and how many numbers it has handed out.
#[repr(C)]
#[derive(Clone, Copy)]
pub struct Walked {
    pub refusal: u64,
    pub levels: usize,
    pub handed: usize,
}

impl From<Result<(usize, usize), Refusal>> for Walked {
    ghost from_gives = { λ handed walked. walked ≡ walked_of handed };

    fn from(handed: Result<(usize, usize), Refusal>) -> Walked {
        match handed {
            Ok((levels, count)) => Walked {
                refusal: 0,
                levels,
                handed: count,
            },
            Err(why) => Walked {
                refusal: why.number(),
                levels: 0,
                handed: 0,
            },
        }
    }
}

// The numbers of all levels, and where each level ends among them.
pub fn ridgeoven_walk(
    first: u64,
    rows: usize,
    end: u64,
    count: u64,
    offsets: &[u64],
    deltas: &[i64],
    kind: u64,
    limit: usize,
    start: u64,
    numbers: &mut [u64],
    ends: &mut [u64],
) -> Walked
    ensures value { result ≡ walked_of (handed_of (after (unnamed kinds kind)
        (definition.walk kinds first rows end (columns_of count offsets.now deltas.now) kind limit start
        (rooms (length numbers.old) (length ends.old))))) }
    ensures numbers_after { numbers.new ≡ written_over numbers.old
        (numbers_of (after (unnamed kinds kind) (definition.walk kinds first rows end (columns_of count offsets.now deltas.now) kind limit start
        (rooms (length numbers.old) (length ends.old))))) }
    ensures ends_after { ends.new ≡ written_over ends.old
        (ends_of (after (unnamed kinds kind) (definition.walk kinds first rows end (columns_of count offsets.now deltas.now) kind limit start
        (rooms (length numbers.old) (length ends.old))))) }
{
    let Some(kind) = kind_of(kind) else {
        return Walked::from(Err(Refusal::InboundParent));
    };
    Walked::from(columns_walk::walk(
        Kinds::Two,
        first,
        rows,
        end,
        count,
        offsets,
        deltas,
        kind,
        limit,
        start,
        numbers,
        ends,
    ))
}

// The level after a frontier, of which at most `limit` numbers are handed out.
pub fn ridgeoven_next(
    first: u64,
    rows: usize,
    end: u64,
    count: u64,
    offsets: &[u64],
    deltas: &[i64],
    kind: u64,
    limit: usize,
    visited: &[u64],
    frontier: &[u64],
    level: &mut [u64],
) -> Answer
    ensures value { result ≡ count_of (counted_of (after (unnamed kinds kind)
        (step.next kinds first rows end (columns_of count offsets.now deltas.now) kind limit visited.now frontier.now
        (room (length level.old))))) }
    ensures level_after { level.new ≡ written_over level.old
        (after (unnamed kinds kind) (step.next kinds first rows end (columns_of count offsets.now deltas.now) kind limit visited.now
        frontier.now (room (length level.old)))) }
{
    let Some(kind) = kind_of(kind) else {
        return Answer::from(Err(Refusal::InboundParent));
    };
    Answer::from(columns_walk::level::next(
        Kinds::Two,
        first,
        rows,
        end,
        count,
        offsets,
        deltas,
        kind,
        limit,
        visited,
        frontier,
        level,
    ))
}

// A number that both reach, where `found` is 1.
#[repr(C)]
#[derive(Clone, Copy)]
pub struct Ancestor {
    pub refusal: u64,
    pub found: u64,
    pub number: u64,
}

impl From<Result<Option<u64>, Refusal>> for Ancestor {
    ghost from_gives = { λ shared ancestor. ancestor ≡ ancestor_of shared };

    fn from(shared: Result<Option<u64>, Refusal>) -> Ancestor {
        match shared {
            Ok(Some(x)) => Ancestor {
                refusal: 0,
                found: 1,
                number: x,
            },
            Ok(None) => Ancestor {
                refusal: 0,
                found: 0,
                number: 0,
            },
            Err(why) => Ancestor {
                refusal: why.number(),
                found: 0,
                number: 0,
            },
        }
    }
}

pub fn ridgeoven_ancestor(
    first: u64,
    rows: usize,
    end: u64,
    count: u64,
    offsets: &[u64],
    deltas: &[i64],
    kind: u64,
    a: u64,
    b: u64,
) -> Ancestor
    ensures { PromisedBy result (first_of (unnamed kinds kind ∷ lent_rules kinds 0 first rows end
        (columns_of count offsets.now deltas.now) [] ∷ [])) (list_of kinds first (slots_of kinds first (columns_of count offsets.now deltas.now)) kind) a b }
{
    let Some(kind) = kind_of(kind) else {
        return Ancestor::from(Err(Refusal::InboundParent));
    };
    Ancestor::from(columns_walk::ancestor(
        Kinds::Two,
        first,
        rows,
        end,
        count,
        offsets,
        deltas,
        kind,
        a,
        b,
    ))
}
