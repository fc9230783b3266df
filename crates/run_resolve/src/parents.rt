// The new lists of the survivors: renumbered for all rows, then those of erased rows dropped.
ghost use Rattle.std.specs.Prelude.{◌≡◌, true, ◌+◌, ◌*◌, ◌^◌, ◌-◌, ◌≤◌, length, take};
ghost use Rattle.columns.specs.Limits.{kinds};
ghost use Rattle.columns.specs.EdgeSet.{offsets_form, cut};
ghost use Rattle.run_renumber.specs.NewLists.{new_lists};
ghost use Rattle.run_renumber.specs.Answers.{Result};
ghost use Rattle.run_state.specs.View.{slots_in};
ghost use Rattle.run_state.specs.Valid.{edges_ok};
ghost use Rattle.run_state.specs.ByColumns.{edges_of};
ghost use Rattle.run_resolve.specs.parents.Renewal.{EdgesKept, Renewal, renewed_of};

use run_state::Edges;

// The new lists of n rows, by their flags and the m numbers of their lists.
fn put_all(
    start: u64,
    n: usize,
    m: usize,
    flags: &[u8],
    offsets: &[u64],
    targets: &[u64],
    offs: &mut [u64; 2049],
    all: &mut [u64; 4096],
) -> Option<usize>
    requires n_bound { (n ≤ 1024) × ((length flags.now ≡ 1024) × (start + n ≤ 2 ^ 64 - 1)) }
    requires m_bound { (m ≤ 4096) × ((length offsets.now ≡ 2049) × (length targets.now ≡ 4096)) }
    requires offsets_value { offsets_form kinds n m (take (2 * n + 1) offsets.now) ≡ true }
    ensures fact { Result result offs.new all.new (2 * n)
        (new_lists kinds start (take n flags.now) (cut (take (2 * n + 1) offsets.now) (take m targets.now))) }
    ensures all_len { length all.new ≡ 4096 }
{
    let k = 2 * n + 1;
    let numbers = crate::sheet::renewed::new_numbers(&flags[..n], start);
    run_renumber::put_lists(
        start,
        &flags[..n],
        &numbers,
        &offsets[..k],
        &targets[..m],
        offs,
        all,
    )
}

// The lists of the rows that survive, of n rows whose lists have m numbers, into offs and all.
fn keep_all(
    n: usize,
    m: usize,
    flags: &[u8],
    offsets: &[u64],
    targets: &[u64],
    offs: &mut [u64; 2049],
    all: &mut [u64; 4096],
) -> usize
    requires n_bound { (n ≤ 1024) × (length flags.now ≡ 1024) }
    requires m_bound { (m ≤ 4096) × ((length offsets.now ≡ 2049) × (length targets.now ≡ 4096)) }
    requires offsets_value { offsets_form kinds n m (take (2 * n + 1) offsets.now) ≡ true }
    ensures { EdgesKept (take n flags.now) (cut (take (2 * n + 1) offsets.now) (take m targets.now)) (edges_of result offs.new all.new) }
{
    let k = 2 * n + 1;
    run_compact::slots::put_slots(&flags[..n], &offsets[..k], &targets[..m], offs, all)
}

// The new lists of the rows that survive, of n rows, in place. The new lists of all rows stand in offs and all.
pub fn renew(
    start: u64,
    n: usize,
    count: usize,
    flags: &[u8],
    offsets: &mut [u64; 2049],
    targets: &mut [u64; 4096],
    offs: &mut [u64; 2049],
    all: &mut [u64; 4096],
) -> Option<usize>
    requires n_bound { (n ≤ 1024) × ((length flags.now ≡ 1024) × (start + n ≤ 2 ^ 64 - 1)) }
    requires targets_value { edges_ok n (edges_of count offsets.old targets.old) ≡ true }
    ensures { Renewal (take n flags.now) (new_lists kinds start (take n flags.now)
        (slots_in n (edges_of count offsets.old targets.old))) (renewed_of result offsets.new targets.new) }
{
    let m = put_all(start, n, count, flags, offsets, targets, offs, all)?;
    let k = keep_all(n, m, flags, offs, all, offsets, targets);
    Some(k)
}

// The new lists of the rows that survive, of n rows, unless those of all rows hold more numbers than there is room for.
pub fn new_edges(start: u64, n: usize, flags: &[u8], e: Edges) -> Option<Edges>
    requires n_bound { (n ≤ 1024) × ((length flags.now ≡ 1024) × (start + n ≤ 2 ^ 64 - 1)) }
    requires e_value { edges_ok n e ≡ true }
    ensures { Renewal (take n flags.now) (new_lists kinds start (take n flags.now) (slots_in n e)) result }
{
    let mut offsets = e.offsets;
    let mut targets = e.targets;
    let mut offs = [0u64; 2049];
    let mut all = [0u64; 4096];
    let m = renew(
        start,
        n,
        e.count,
        flags,
        &mut offsets,
        &mut targets,
        &mut offs,
        &mut all,
    )?;
    Some(Edges {
        count: m,
        offsets,
        targets,
    })
}
