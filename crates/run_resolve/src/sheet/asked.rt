// What is asked of a run that is resolved.
ghost use Rattle.std.specs.Prelude.{◌≡◌, true, ◌+◌, ◌*◌, ◌≤◌, length, take};
ghost use Rattle.columns.specs.Limits.{kinds};
ghost use Rattle.columns.specs.EdgeSet.{offsets_form, cut};
ghost use Rattle.run_renumber.specs.Reparented as flat;
ghost use Rattle.cleaning.specs.Cleaning.{reparented};
ghost use Rattle.cleaning.specs.Held.{archive_held};
ghost use Rattle.run_state.specs.View.{slots_in, held_in};
ghost use Rattle.run_state.specs.Valid.{edges_ok, held_ok};
ghost use Rattle.run_state.specs.order.Ordered.{ordered};

use run_state::{Edges, Held};

// How many of n rows survive and name an erased parent, by their flags and the m numbers of their lists.
fn count_parts(
    start: u64,
    n: usize,
    m: usize,
    flags: &[u8],
    offsets: &[u64],
    targets: &[u64],
) -> usize
    requires n_bound { (n ≤ 1024) × (length flags.now ≡ 1024) }
    requires m_bound { (m ≤ 4096) × ((length offsets.now ≡ 2049) × (length targets.now ≡ 4096)) }
    requires offsets_value { offsets_form kinds n m (take (2 * n + 1) offsets.now) ≡ true }
    ensures { result ≡ flat.reparented kinds start (take n flags.now) (cut (take (2 * n + 1) offsets.now) (take m targets.now)) }
{
    let k = 2 * n + 1;
    run_renumber::count_reparented(start, &flags[..n], &offsets[..k], &targets[..m])
}

// The same, by the lists.
fn count_rows(start: u64, n: usize, flags: &[u8], e: Edges) -> usize
    requires { (n ≤ 1024) × ((length flags.now ≡ 1024) × (edges_ok n e ≡ true)) }
    ensures { result ≡ flat.reparented kinds start (take n flags.now) (slots_in n e) }
{
    let t = e.targets;
    count_parts(start, n, e.count, flags, &e.offsets, &t)
}

// How many survivors name an erased parent.
pub fn reparented(h: Held) -> usize
    requires { (held_ok h ≡ true) × (ordered h.sheet ≡ true) }
    ensures { result ≡ reparented (archive_held kinds (held_in h)) }
{
    run_state::order::long::held_long(h);
    let f = h.erased;
    count_rows(h.sheet.start, h.sheet.rows.count, &f, h.sheet.edges)
}
