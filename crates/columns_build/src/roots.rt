// `state_root_entries`: the rows of the events that have a state root.
ghost use Rattle.std.specs.Prelude.{◌≡◌, true, [], ◌∷◌, ◌++◌, ◌+◌, ◌≤◌, length, drop};
ghost use Rattle.lists.specs.Lists.{all};
ghost use Rattle.columns.specs.Building.{in_file};
ghost use Rattle.columns.specs.Roots.{root_entries};
ghost use Rattle.columns_build.specs.Written.{records, roots_answer, over, rows_of};

use columns::refusal::Refusal;
use columns_rules::records::parts::is_in_file;

// Whether every event is in the file.
pub(crate) fn all_in_file(first: u64, rows: usize, events: &[u64]) -> bool
    ensures { result ≡ all (in_file first (first + rows)) events.now }
{
    for i in 0..events.len() {
        if !is_in_file(first, rows, events[i]) {
            return false;
        }
    }
    true
}

// Writes the row of each event.
fn write_rows(first: u64, rows: usize, events: &[u64], out: &mut [u64])
    requires events_in_bounds { length events.now ≤ length out.old }
    requires events_value { all (in_file first (first + rows)) events.now ≡ true }
    ensures { out.new ≡ rows_of first events.now ++ drop (length events.now) out.old }
{
    for i in 0..events.len() {
        out[i] = events[i] - first;
    }
}

// The rows of the events, in the given order. Every event is one of the file.
pub fn state_root_entries(
    first: u64,
    rows: usize,
    events: &[u64],
    out: &mut [u64],
) -> Result<usize, Refusal>
    ensures value { result ≡ roots_answer (root_entries first rows events.now (records out.old ∷ [])) }
    ensures out_after { out.new ≡ over (root_entries first rows events.now (records out.old ∷ [])) out.old }
{
    if 1024 < rows {
        return Err(Refusal::OverRecords);
    }
    if 1024 < events.len() {
        return Err(Refusal::OverRecords);
    }
    if out.len() < 1024 {
        return Err(Refusal::SliceShort);
    }
    if !all_in_file(first, rows, events) {
        return Err(Refusal::RootOutside);
    }
    write_rows(first, rows, events, out);
    Ok(events.len())
}
