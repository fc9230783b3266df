// The walk over one file's forward columns, and the shared ancestor of two numbers there. Both first read the set, by the columns' rules.
#![tactic(auto)]

pub mod level;

ghost use Rattle.std.specs.Prelude.{◌≡◌, [], ◌∷◌, ◌-◌, ◌≤◌, ◌<◌, min, length, take};
ghost use Rattle.lists.specs.Lists.{joined, sum};
ghost use Rattle.columns.specs.Reading.{slots_of};
ghost use Rattle.columns.specs.Questions.{list_of};
ghost use Rattle.columns.specs.Walk as definition;
ghost use Rattle.columns.specs.Walk.{levels};
ghost use Rattle.columns.specs.Answers.{kind_of, columns_of, lent_rules, written_in, written_over, width_of};
ghost use Rattle.columns_levels.specs.Stored.{parents_of};
ghost use Rattle.columns_levels.specs.rounds.Rounds.{ends_from, Ran};
ghost use Rattle.columns_walk.specs.Handing.{rooms, handed_of, numbers_of, ends_of, Promised};

use columns::kind::{Kind, Kinds};
use columns::refusal::Refusal;
use columns_levels::parents::Parents;

// Walks from the start in buf[0], with the levels behind it.
fn fill(
    buf: &mut [u64],
    ends: &mut [u64],
    limit: usize,
    start: u64,
    p: Parents,
) -> columns_levels::rounds::Extent
    requires buf_length { (length buf.old ≡ 4097) × ((4096 ≤ length ends.old) × (length p.targets.now < 4097)) }
    requires buf_value { take 1 buf.old ≡ start ∷ [] }
    ensures { Ran (levels (parents_of p.entry) limit start) ends.old buf.new
        ends.new result.end result.levels }
{
    let mut keys = [0u64; 4097];
    let mut links = [0u64; 4097];
    let mut heads = [0u64; 2053];
    let mut w = [0u64; 4097];
    let n = arrays::table::add(&mut keys, &mut links, &mut heads, 0, start);
    columns_levels::rounds::run(
        buf, ends, limit, n, p, &mut keys, &mut links, &mut heads, &mut w,
    )
}

// Hands out the levels of a walk over stored targets.
fn hand(out: &mut [u64], ends: &mut [u64], limit: usize, start: u64, p: Parents) -> (usize, usize)
    requires { (4096 ≤ length out.old) × ((4096 ≤ length ends.old) × (length p.targets.now < 4097)) }
    ensures value { result ≡ (
      length (levels (parents_of p.entry) limit start),
      sum length (levels (parents_of p.entry) limit start),
    ) }
    ensures out_after { out.new ≡ written_in out.old (joined (levels (parents_of p.entry) limit start)) }
    ensures ends_after { ends.new ≡ written_in ends.old (ends_from 0 (levels (parents_of p.entry) limit start)) }
{
    let mut buf = [0u64; 4097];
    buf[0] = start;
    let run = fill(&mut buf, ends, limit, start, p);
    let count = run.end - 1;
    columns_levels::frontier::copy(out, 0, &buf, 1, count);
    (run.levels, count)
}

// The walk from a start, for a kind and a limit: its numbers go to `out`, level after level, and the places where levels end to `ends`.
pub fn walk(
    kinds: Kinds,
    first: u64,
    rows: usize,
    end: u64,
    count: u64,
    offsets: &[u64],
    deltas: &[i64],
    kind: Kind,
    limit: usize,
    start: u64,
    out: &mut [u64],
    ends: &mut [u64],
) -> Result<(usize, usize), Refusal>
    ensures value { result ≡ handed_of (definition.walk (width_of kinds) first rows end (columns_of count offsets.now deltas.now)
        (kind_of kind) limit start (rooms (length out.old) (length ends.old))) }
    ensures out_after { out.new ≡ written_over out.old
        (numbers_of (definition.walk (width_of kinds) first rows end (columns_of count offsets.now deltas.now) (kind_of kind) limit start
        (rooms (length out.old) (length ends.old)))) }
    ensures ends_after { ends.new ≡ written_over ends.old
        (ends_of (definition.walk (width_of kinds) first rows end (columns_of count offsets.now deltas.now) (kind_of kind) limit start
        (rooms (length out.old) (length ends.old)))) }
{
    let width = kinds.width();
    let mut targets = [0u64; 4096];
    let n = out.len().min(ends.len()).min(4096);
    columns_levels::targets::read(
        kinds,
        &mut targets,
        n,
        first,
        rows,
        end,
        count,
        offsets,
        deltas,
    )?;
    let p = Parents {
        width,
        first,
        kind: kind.slot(),
        offsets,
        targets: &targets,
    };
    Ok(hand(out, ends, limit, start, p))
}

// Some number that a and b both reach in zero or more steps to a parent of a kind.
pub fn ancestor(
    kinds: Kinds,
    first: u64,
    rows: usize,
    end: u64,
    count: u64,
    offsets: &[u64],
    deltas: &[i64],
    kind: Kind,
    a: u64,
    b: u64,
) -> Result<Option<u64>, Refusal>
    ensures { Promised result (lent_rules (width_of kinds) 0 first rows end (columns_of count offsets.now deltas.now) [])
        (list_of (width_of kinds) first (slots_of (width_of kinds) first (columns_of count offsets.now deltas.now)) (kind_of kind)) a b }
{
    let width = kinds.width();
    let mut targets = [0u64; 4096];
    columns_levels::targets::read(
        kinds,
        &mut targets,
        4096,
        first,
        rows,
        end,
        count,
        offsets,
        deltas,
    )?;
    let p = Parents {
        width,
        first,
        kind: kind.slot(),
        offsets,
        targets: &targets,
    };
    Ok(columns_levels::rounds::shared(a, b, p))
}
