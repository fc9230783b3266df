// Reading one set of edges by itself.
ghost use Rattle.std.specs.Prelude.{◌≡◌, length};
ghost use Rattle.columns.specs.Reading.{decode_set};
ghost use Rattle.columns.specs.Answers.{set_number, columns_of, room, in_one, counted_of, written_over, width_of};

use columns::kind::Kinds;
use columns::refusal::Refusal;
use columns::set::Set;
use columns_slots::sets::{Columns, csr_rules};

// Reads one set that is lent by itself: its targets, slot after slot.
pub fn decode_csr(
    kinds: Kinds,
    set: Set,
    first: u64,
    rows: usize,
    end: u64,
    count: u64,
    offsets: &[u64],
    deltas: &[i64],
    targets: &mut [u64],
) -> Result<usize, Refusal>
    ensures value { result ≡ counted_of (in_one (decode_set (width_of kinds) (set_number set) first rows end (columns_of count offsets.now deltas.now)
        (room (length targets.old)))) }
    ensures targets_after { targets.new ≡ written_over targets.old
        (in_one (decode_set (width_of kinds) (set_number set) first rows end (columns_of count offsets.now deltas.now) (room (length targets.old)))) }
{
    let width = kinds.width();
    let s = Columns {
        count,
        offsets,
        deltas,
    };
    csr_rules(width, set, first, rows, end, s, targets.len())?;
    Ok(s.write(width, first, targets))
}
