// The next level of a walk over one file's forward columns, from what was visited and the last level. The set is read first.
ghost use Rattle.std.specs.Prelude.{◌≡◌, [], ◌∷◌, true, false, ◌-◌, ◌≤◌, ◌<◌, min, ltb, length, take};
ghost use Rattle.std.proofs.Math.Option.{some};
ghost use Rattle.std.proofs.Math.Seq.{slice};
ghost use Rattle.lists.specs.Lists.{any};
ghost use Rattle.lists.specs.Order.{sort};
ghost use Rattle.columns.specs.Limits.{max_numbers};
ghost use Rattle.columns.specs.Walk.{level};
ghost use Rattle.columns.specs.Answers.{kind_of, columns_of, room, limits_of, counted_of, written_in, written_over, width_of};
ghost use Rattle.columns_levels.specs.Stored.{parents_of};
ghost use Rattle.columns_walk.specs.level.Step as step;
ghost use Rattle.columns_walk.specs.level.Step.{unvisited, News};

use columns::kind::{Kind, Kinds};
use columns::refusal::Refusal;
use columns_levels::parents::Parents;
use columns_slots::sets;

// A part of the keys.
#[derive(Clone, Copy)]
struct Part {
    from: usize,
    to: usize,
}

// Makes what was visited keys, then the parents of the frontier: the part of the keys that those add.
fn find(keys: &mut [u64], visited: &[u64], frontier: &[u64], p: Parents) -> Part
    requires { (length keys.old ≡ 8192) × ((length visited.now ≤ 4096) × (length p.targets.now ≤ 4096)) }
    ensures { News keys.new result.from result.to (unvisited (parents_of p.entry) visited.now frontier.now) }
{
    let mut links = [0u64; 8192];
    let mut heads = [0u64; 4099];
    let n = arrays::table::add_list(keys, &mut links, &mut heads, 0, visited, 0, visited.len());
    let r = columns_levels::frontier::collect(
        frontier,
        0,
        frontier.len(),
        keys,
        &mut links,
        &mut heads,
        n,
        p,
    );
    Part { from: n, to: r }
}

// Hands out a part of the keys in order, cut to the limit.
fn lay(out: &mut [u64], limit: usize, keys: &[u64], n: usize, r: usize) -> usize
    requires { (n ≤ r) × ((r ≤ length keys.now) × ((r - n ≤ 4096) × (4096 ≤ length out.old))) }
    ensures value { result ≡ length (take limit (sort (slice n r keys.now))) }
    ensures out_after { out.new ≡ written_in out.old (take limit (sort (slice n r keys.now))) }
{
    let mut buf = [0u64; 4096];
    let mut w = [0u64; 4096];
    let e = columns_levels::frontier::gather(&mut buf, 0, limit, keys, n, r, &mut w);
    columns_levels::frontier::copy(out, 0, &buf, 0, e);
    e
}

// Hands out a level over stored targets.
fn hand(out: &mut [u64], limit: usize, visited: &[u64], frontier: &[u64], p: Parents) -> usize
    requires { (4096 ≤ length out.old) × ((length visited.now ≤ 4096) × (length p.targets.now ≤ 4096)) }
    ensures value { result ≡ length (level (parents_of p.entry) limit visited.now frontier.now) }
    ensures out_after { out.new ≡ written_in out.old
        (level (parents_of p.entry) limit visited.now frontier.now) }
{
    let mut keys = [0u64; 8192];
    let part = find(&mut keys, visited, frontier, p);
    let n = part.from;
    let r = part.to;
    lay(out, limit, &keys, n, r)
}

// The level after a frontier, where neither list is too long.
fn step_from(
    kinds: Kinds,
    first: u64,
    rows: usize,
    end: u64,
    count: u64,
    offsets: &[u64],
    deltas: &[i64],
    kind: Kind,
    limit: usize,
    visited: &[u64],
    frontier: &[u64],
    out: &mut [u64],
) -> Result<usize, Refusal>
    requires { any (ltb max_numbers) (length visited.now ∷ length frontier.now ∷ []) ≡ false }
    ensures value { result ≡ counted_of (step.next (width_of kinds) first rows end (columns_of count offsets.now deltas.now) (kind_of kind) limit
        visited.now frontier.now (room (length out.old))) }
    ensures out_after { out.new ≡ written_over out.old
        (step.next (width_of kinds) first rows end (columns_of count offsets.now deltas.now) (kind_of kind) limit visited.now
        frontier.now (room (length out.old))) }
{
    let width = kinds.width();
    let mut decoded = [0u64; 4096];
    let n = out.len().min(4096);
    columns_levels::targets::read(
        kinds,
        &mut decoded,
        n,
        first,
        rows,
        end,
        count,
        offsets,
        deltas,
    )?;
    let p = Parents {
        width,
        first,
        kind: kind.slot(),
        offsets,
        targets: &decoded,
    };
    Ok(hand(out, limit, visited, frontier, p))
}

// Why a call with a list over 4,096 numbers is refused: 42 goes before 43.
fn too_long(rows: usize) -> Refusal
    ensures { some result ≡ limits_of rows true false }
{
    if 1024 < rows {
        return Refusal::OverRecords;
    }
    Refusal::OverNumbers
}

// The level after a frontier, of which at most `limit` numbers are handed out: the parents that were not visited, each once, in order.
pub fn next(
    kinds: Kinds,
    first: u64,
    rows: usize,
    end: u64,
    count: u64,
    offsets: &[u64],
    deltas: &[i64],
    kind: Kind,
    limit: usize,
    visited: &[u64],
    frontier: &[u64],
    out: &mut [u64],
) -> Result<usize, Refusal>
    ensures value { result ≡ counted_of (step.next (width_of kinds) first rows end (columns_of count offsets.now deltas.now) (kind_of kind) limit
        visited.now frontier.now (room (length out.old))) }
    ensures out_after { out.new ≡ written_over out.old
        (step.next (width_of kinds) first rows end (columns_of count offsets.now deltas.now) (kind_of kind) limit visited.now
        frontier.now (room (length out.old))) }
{
    if sets::is_over(visited.len(), frontier.len()) {
        return Err(too_long(rows));
    }
    step_from(
        kinds, first, rows, end, count, offsets, deltas, kind, limit, visited, frontier, out,
    )
}
