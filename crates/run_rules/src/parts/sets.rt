// The rules on a file's three sets of edges (17 to 19), over the body of their record. Each set is read to two lent arrays: work
// space, so that they are made once for all sets.
ghost use Rattle.std.specs.Prelude.{◌≡◌, ◌+◌, ◌*◌, ◌≤◌, length, take};
ghost use Rattle.columns.specs.Limits.{kinds};
ghost use Rattle.columns.specs.Answers.{set_number, ruling, columns_of};
ghost use Rattle.columns.specs.Reading.{set_rules};
ghost use Rattle.archive_read.specs.bodies.View.{set_end, set_in};
ghost use Rattle.run_rules.specs.parts.Back.{sets_rules, later_rules};

use archive_bytes::number_columns::{fill_i64s, fill_u64s};
use columns::kind::KINDS;
use columns::refusal::Refusal;
use columns::set::Set;
use columns_slots::sets::set_rules;

// The columns of the set of n deltas that starts at place p, to the front of two arrays.
fn load_set(
    b: &[u8],
    rows: usize,
    p: usize,
    n: usize,
    offsets: &mut [u64; 2049],
    deltas: &mut [i64; 4096],
)
    requires { (rows ≤ 1024) × ((n ≤ 4096) × (set_end rows p n ≤ length b.now)) }
    ensures deltas_after { columns_of n (take (2 * rows + 1) offsets.new) (take n deltas.new) ≡ set_in b.now rows p n }
    ensures offsets_len { (length offsets.new ≡ 2049) × (length deltas.new ≡ 4096) }
{
    let k = 2 * rows + 1;
    fill_u64s(b, p + 4, k, offsets);
    fill_i64s(b, p + 4 + k * 8, n, deltas);
}

// The rules of the set of n deltas whose columns stand at the front of two arrays.
fn loaded_rules(
    set: Set,
    first: u64,
    rows: usize,
    end: u64,
    n: usize,
    offsets: &[u64],
    deltas: &[i64],
) -> Result<(), Refusal>
    requires rows_bound { (rows ≤ 1024) × (n ≤ 4096) }
    requires offsets_len { (length offsets.now ≡ 2049) × (length deltas.now ≡ 4096) }
    ensures { result ≡ ruling (set_rules kinds (set_number set) first rows end (columns_of n (take (2 * rows + 1) offsets.now) (take n deltas.now))) }
{
    let k = 2 * rows + 1;
    set_rules(
        KINDS,
        set,
        first,
        rows,
        end,
        n as u64,
        &offsets[..k],
        &deltas[..n],
    )
}

// The rules of the set of n deltas that starts at place p.
fn rule_set(
    b: &[u8],
    set: Set,
    first: u64,
    rows: usize,
    end: u64,
    p: usize,
    n: usize,
    offsets: &mut [u64; 2049],
    deltas: &mut [i64; 4096],
) -> Result<(), Refusal>
    requires { (rows ≤ 1024) × ((n ≤ 4096) × (set_end rows p n ≤ length b.now)) }
    ensures { result ≡ ruling (set_rules kinds (set_number set) first rows end (set_in b.now rows p n)) }
{
    load_set(b, rows, p, n, offsets, deltas);
    loaded_rules(set, first, rows, end, n, offsets, deltas)
}

// 17 to 19 of the reverse and of the inbound set: n deltas from place p on, m from place q on.
fn later_rules(
    b: &[u8],
    first: u64,
    rows: usize,
    end: u64,
    p: usize,
    n: usize,
    q: usize,
    m: usize,
    offsets: &mut [u64; 2049],
    deltas: &mut [i64; 4096],
) -> Result<(), Refusal>
    requires rows_bound { (rows ≤ 1024) × ((n ≤ 4096) × (m ≤ 4096)) }
    requires n_in_bounds { (set_end rows p n ≤ length b.now) × (set_end rows q m ≤ length b.now) }
    ensures { result ≡ ruling (later_rules first rows end (set_in b.now rows p n) (set_in b.now rows q m)) }
{
    rule_set(b, Set::Reverse, first, rows, end, p, n, offsets, deltas)?;
    rule_set(b, Set::Inbound, first, rows, end, q, m, offsets, deltas)
}

// 17 to 19, set by set.
pub fn sets_rules(
    b: &[u8],
    first: u64,
    rows: usize,
    end: u64,
    k: usize,
    p: usize,
    n: usize,
    q: usize,
    m: usize,
    offsets: &mut [u64; 2049],
    deltas: &mut [i64; 4096],
) -> Result<(), Refusal>
    requires rows_bound { (rows ≤ 1024) × ((k ≤ 4096) × ((n ≤ 4096) × (m ≤ 4096))) }
    requires k_in_bounds { (set_end rows 0 k ≤ length b.now) × ((set_end rows p n ≤ length b.now) × (set_end rows q m ≤ length b.now)) }
    ensures { result ≡ ruling (sets_rules first rows end (set_in b.now rows 0 k) (set_in b.now rows p n) (set_in b.now rows q m)) }
{
    rule_set(b, Set::Forward, first, rows, end, 0, k, offsets, deltas)?;
    later_rules(b, first, rows, end, p, n, q, m, offsets, deltas)
}
