// The body of record 2: three sets, each of a count, offsets and deltas.
ghost use Rattle.std.specs.Prelude.{◌≡◌, ◌+◌, ◌^◌, ◌<◌, ◌≤◌, length};
ghost use Rattle.std.proofs.lemmas.List.Edits.{sets};
ghost use Rattle.archive.specs.Encode.{set_bytes, sets_bytes};
ghost use Rattle.archive_store.specs.Lent.{set_from, set_size};

use archive_bytes::number_columns::{store_i64s, store_u64s};
use archive_bytes::store_u32;

// A set that is to be stored.
#[derive(Clone, Copy)]
pub struct SetOut<'a> {
    pub offsets: &'a [u64],
    pub deltas: &'a [i64],
}

// One set from `at` on; answers the place after it.
fn store_set(out: &mut [u8], at: usize, set: &SetOut<'_>) -> usize
    requires { (at + set_size (length set.now.offsets.now) (length set.now.deltas.now) ≤ length out.old) × (length set.now.deltas.now < 2 ^ 32) }
    ensures out_after { out.new ≡ sets out.old at (set_bytes (set_from set.now.offsets.now set.now.deltas.now)) }
    ensures value { result ≡ at + set_size (length set.now.offsets.now) (length set.now.deltas.now) }
{
    let n = set.offsets.len();
    let m = set.deltas.len();
    store_u32(out, at, m as u64);
    store_u64s(set.offsets, n, out, at + 4);
    store_i64s(set.deltas, m, out, at + 4 + 8 * n);
    at + 4 + 8 * n + 8 * m
}

pub fn store_edges(
    out: &mut [u8],
    at: usize,
    forward: &SetOut<'_>,
    reverse: &SetOut<'_>,
    inbound: &SetOut<'_>,
)
    requires id_in_bounds { at + (set_size (length forward.now.offsets.now) (length forward.now.deltas.now) + (set_size
        (length reverse.now.offsets.now) (length reverse.now.deltas.now) + set_size (length inbound.now.offsets.now) (length inbound.now.deltas.now))) ≤ length out.old }
    requires fd_len_bound { (length forward.now.deltas.now < 2 ^ 32) × (length reverse.now.deltas.now < 2 ^ 32) × (length inbound.now.deltas.now < 2 ^ 32) }
    ensures { out.new ≡ sets out.old at
        (sets_bytes (set_from forward.now.offsets.now forward.now.deltas.now) (set_from reverse.now.offsets.now reverse.now.deltas.now)
        (set_from inbound.now.offsets.now inbound.now.deltas.now)) }
{
    let p = store_set(out, at, forward);
    let q = store_set(out, p, reverse);
    store_set(out, q, inbound);
}
