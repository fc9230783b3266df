// A line for each event of a run: its old number, and its new one or a dash.
ghost use Rattle.std.specs.Prelude.{◌≡◌, true, ◌+◌, ◌*◌, ◌-◌, ◌^◌, ◌≤◌, length};
ghost use Rattle.columns.specs.Limits.{kinds};
ghost use Rattle.cleaning.specs.Held.{archive_held};
ghost use Rattle.run_state.specs.View.{held_in};
ghost use Rattle.run_state.specs.Valid.{held_ok};
ghost use Rattle.run_state.specs.order.Ordered.{ordered};
ghost use Rattle.run_text.specs.numbers.Wrote.{Wrote};
ghost use Rattle.run_list.specs.Rows.{rows_text, maps_text};

use run_state::Held;
use run_state::order::long::held_long;
use run_text::lines::put_map;

// The lines of the rows with these flags, whose new numbers are given.
fn put_rows(out: &mut [u8], start: u64, flags: &[u8], numbers: &[u64]) -> usize
    requires flags_in_bounds { (length flags.now ≤ length numbers.now) × (start + length flags.now ≤ 2 ^ 64 - 1) }
    requires flags_in_bounds_2 { 46 * length flags.now ≤ length out.old }
    ensures { Wrote (rows_text start flags.now numbers.now) (46 * length flags.now) out.old 0 out.new result }
{
    let mut p: usize = 0;
    for i in 0..flags.len() {
        p = put_map(out, p, start + (i as u64), flags[i] != 0, numbers[i]);
    }
    p
}

pub(crate) fn put_held(out: &mut [u8], h: Held) -> usize
    requires h_value { (held_ok h ≡ true) × (ordered h.sheet ≡ true) }
    requires count_in_bounds { 46 * h.sheet.rows.count ≤ length out.old }
    ensures { Wrote (maps_text (archive_held kinds (held_in h))) (46 * h.sheet.rows.count) out.old 0 out.new result }
{
    held_long(h);
    let start = h.sheet.start;
    let n = h.sheet.rows.count;
    let f = h.erased;
    let numbers = run_resolve::sheet::renewed::new_numbers(&f[..n], start);
    put_rows(out, start, &f[..n], &numbers)
}
