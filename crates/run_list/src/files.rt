// The lines of the output files out of tables of survivors, and the bytes that they take at most. The rows of a group are those from row a up to row b.
ghost use Rattle.std.specs.Prelude.{◌≡◌, ◌+◌, ◌-◌, ◌*◌, ◌≤◌, ◌<◌, length};
ghost use Rattle.columns.specs.Limits.{end64};
ghost use Rattle.cleaning.specs.Lines.{set_lines};
ghost use Rattle.run_section.specs.Rules.{Lists};
ghost use Rattle.run_text.specs.numbers.Wrote.{Wrote};
ghost use Rattle.run_text.specs.files.Files.{set_size};
ghost use Rattle.run_list.specs.Groups.{set_over, lines_over, need_over, Shown, lines_of, need_of, Tabled, Spanned};

use columns_sets::sections::write_lists;
use run_section::Counts;
use run_section::places::rows_of;
use run_section::sizes::edges_of;
use run_text::files::put_set;
use run_text::lines::put_head;

// ── one file ─────────────────────────────────────────────────────────────────────────────────

// One set: of the lists of the rows the numbers from low up to high.
fn put_lists(
    out: &mut [u8],
    at: usize,
    name: &[u8],
    z: Counts,
    a: usize,
    b: usize,
    offsets: &[u64],
    targets: &[u64],
    low: u64,
    high: u64,
) -> usize
    requires shown { Shown z a b offsets.now targets.now }
    requires targets_in_bounds { at + set_size (length name.now) (2 * (b - a) + 1) (set_over z a b low high offsets.now targets.now).count ≤ length out.old }
    ensures { Wrote (set_lines name.now (set_over z a b low high offsets.now targets.now))
        (set_size (length name.now) (2 * (b - a) + 1) (set_over z a b low high offsets.now targets.now).count)
        out.old at out.new result }
{
    let n = b - a;
    let k = 2 * n + 1;
    let first = z.start + (a as u64);
    let mut starts = [0u64; 2049];
    let mut deltas = [0i64; 4096];
    let m = write_lists(
        first,
        n,
        offsets,
        targets,
        a,
        low,
        high,
        &mut starts,
        &mut deltas,
    );
    put_set(out, at, name, &starts[..k], &deltas[..m])
}

// The lines of group g's file.
fn put_group(
    out: &mut [u8],
    at: usize,
    z: Counts,
    g: usize,
    a: usize,
    b: usize,
    offsets: &[u64],
    targets: &[u64],
    starts: &[u64],
    kids: &[u64],
) -> usize
    requires shown { (Shown z a b offsets.now targets.now) × (Shown z a b starts.now kids.now) }
    requires kids_in_bounds { at + need_over z a b offsets.now targets.now starts.now kids.now ≤ length out.old }
    ensures { Wrote (lines_over z g a b offsets.now targets.now starts.now kids.now)
        (need_over z a b offsets.now targets.now starts.now kids.now) out.old at out.new result }
{
    let end = z.start + (b as u64);
    let all = z.start + (z.rows as u64);
    let p = put_head(out, at, g as u64, z.start + (a as u64), b - a);
    let q = put_lists(out, p, b"forward", z, a, b, offsets, targets, 0, all);
    let r = put_lists(out, q, b"reverse", z, a, b, starts, kids, 0, end);
    put_lists(out, r, b"inbound", z, a, b, starts, kids, end, all)
}

// The bytes that they take at most.
fn need_group(
    z: Counts,
    a: usize,
    b: usize,
    offsets: &[u64],
    targets: &[u64],
    starts: &[u64],
    kids: &[u64],
) -> usize
    requires rows_bound { (z.rows ≤ 1024) × ((z.start + z.rows < end64) × ((a ≤ b) × (b ≤ z.rows))) }
    requires lists { Lists z.rows offsets.now targets.now starts.now kids.now }
    ensures { (result ≡ need_over z a b offsets.now targets.now starts.now kids.now) × (result ≤ 387296) }
{
    let e = edges_of(z, a, b, offsets, targets, starts, kids);
    224 + 126 * (b - a) + 21 * (e.forward + (e.reverse + e.inbound))
}

// ── all files ────────────────────────────────────────────────────────────────────────────────

// The bytes that the lines of the first n groups' files take at most.
pub(crate) fn need_files(
    z: Counts,
    n: usize,
    rows: &[u64],
    offsets: &[u64],
    targets: &[u64],
    starts: &[u64],
    kids: &[u64],
) -> usize
    requires { Tabled z n rows.now offsets.now targets.now starts.now kids.now }
    ensures { (result ≡ need_of z n rows.now offsets.now targets.now starts.now kids.now) × (result ≤ 6196736) }
{
    let mut total = 0;
    for g in 0..n {
        let r = rows_of(z, g, rows);
        total += need_group(z, r.from, r.to, offsets, targets, starts, kids);
    }
    total
}

// Those lines.
pub(crate) fn put_files(
    out: &mut [u8],
    at: usize,
    z: Counts,
    n: usize,
    rows: &[u64],
    offsets: &[u64],
    targets: &[u64],
    starts: &[u64],
    kids: &[u64],
) -> usize
    requires tabled { (Tabled z n rows.now offsets.now targets.now starts.now kids.now) × (Spanned z n rows.now offsets.now targets.now starts.now kids.now) }
    requires kids_in_bounds { at + need_of z n rows.now offsets.now targets.now starts.now kids.now ≤ length out.old }
    ensures { Wrote (lines_of z n rows.now offsets.now targets.now starts.now kids.now)
        (need_of z n rows.now offsets.now targets.now starts.now kids.now) out.old at out.new result }
{
    let mut p = at;
    for g in 0..n {
        let r = rows_of(z, g, rows);
        p = put_group(out, p, z, g, r.from, r.to, offsets, targets, starts, kids);
    }
    p
}
