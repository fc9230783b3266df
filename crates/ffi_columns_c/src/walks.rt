// Edge columns walked.
ghost use Rattle.std.specs.Prelude.{◌≡◌, [], ◌∷◌, length};
ghost use Rattle.columns.specs.Limits.{kinds};
ghost use Rattle.columns.specs.Refusal.{first_of};
ghost use Rattle.columns.specs.Reading.{slots_of};
ghost use Rattle.columns.specs.Questions.{list_of};
ghost use Rattle.columns.specs.Answers.{columns_of, room, lent_rules, counted_of, written_over};
ghost use Rattle.columns.specs.Walk as definition;
ghost use Rattle.columns_walk.specs.Handing.{rooms, handed_of, numbers_of, ends_of};
ghost use Rattle.columns_walk.specs.level.Step as step;
ghost use Rattle.ffi_columns.specs.Numbers.{unnamed, after, count_of, walked_of, PromisedBy};

use ffi::answer::Answer;
use ffi_columns::walks::{Ancestor, Walked};

// The numbers of all levels, and where each level ends among them.
#[unsafe(no_mangle)]
pub extern "C" fn ridgeoven_walk(
    first: u64,
    rows: usize,
    end: u64,
    count: u64,
    offsets: &[u64],
    deltas: &[i64],
    kind: u64,
    limit: usize,
    start: u64,
    numbers: &mut [u64],
    ends: &mut [u64],
) -> Walked
    ensures value { result ≡ walked_of (handed_of (after (unnamed kinds kind)
        (definition.walk kinds first rows end (columns_of count offsets.now deltas.now) kind limit start
        (rooms (length numbers.old) (length ends.old))))) }
    ensures numbers_after { numbers.new ≡ written_over numbers.old
        (numbers_of (after (unnamed kinds kind) (definition.walk kinds first rows end (columns_of count offsets.now deltas.now) kind limit start
        (rooms (length numbers.old) (length ends.old))))) }
    ensures ends_after { ends.new ≡ written_over ends.old
        (ends_of (after (unnamed kinds kind) (definition.walk kinds first rows end (columns_of count offsets.now deltas.now) kind limit start
        (rooms (length numbers.old) (length ends.old))))) }
{
    ffi_columns::walks::ridgeoven_walk(
        first, rows, end, count, offsets, deltas, kind, limit, start, numbers, ends,
    )
}

// The level after a frontier, of which at most `limit` numbers are handed out.
#[unsafe(no_mangle)]
pub extern "C" fn ridgeoven_next(
    first: u64,
    rows: usize,
    end: u64,
    count: u64,
    offsets: &[u64],
    deltas: &[i64],
    kind: u64,
    limit: usize,
    visited: &[u64],
    frontier: &[u64],
    level: &mut [u64],
) -> Answer
    ensures value { result ≡ count_of (counted_of (after (unnamed kinds kind)
        (step.next kinds first rows end (columns_of count offsets.now deltas.now) kind limit visited.now frontier.now
        (room (length level.old))))) }
    ensures level_after { level.new ≡ written_over level.old
        (after (unnamed kinds kind) (step.next kinds first rows end (columns_of count offsets.now deltas.now) kind limit visited.now
        frontier.now (room (length level.old)))) }
{
    ffi_columns::walks::ridgeoven_next(
        first, rows, end, count, offsets, deltas, kind, limit, visited, frontier, level,
    )
}

#[unsafe(no_mangle)]
pub extern "C" fn ridgeoven_ancestor(
    first: u64,
    rows: usize,
    end: u64,
    count: u64,
    offsets: &[u64],
    deltas: &[i64],
    kind: u64,
    a: u64,
    b: u64,
) -> Ancestor
    ensures { PromisedBy result (first_of (unnamed kinds kind ∷ lent_rules kinds 0 first rows end
        (columns_of count offsets.now deltas.now) [] ∷ [])) (list_of kinds first (slots_of kinds first (columns_of count offsets.now deltas.now)) kind) a b }
{
    ffi_columns::walks::ridgeoven_ancestor(first, rows, end, count, offsets, deltas, kind, a, b)
}
