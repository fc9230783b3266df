// The targets of a file's forward set, read for a question that follows them.
ghost use Rattle.std.specs.Prelude.{◌≡◌, ◌++◌, ◌≤◌, length, take, drop};
ghost use Rattle.columns.specs.Reading.{decode_set};
ghost use Rattle.columns.specs.Answers.{columns_of, room, in_one, counted_of, written_over, width_of};

use columns::kind::Kinds;
use columns::refusal::Refusal;
use columns::set::Set;

// Reads the forward set into the first n of the targets.
pub fn read(
    kinds: Kinds,
    targets: &mut [u64],
    n: usize,
    first: u64,
    rows: usize,
    end: u64,
    count: u64,
    offsets: &[u64],
    deltas: &[i64],
) -> Result<usize, Refusal>
    requires { n ≤ length targets.old }
    ensures value { result ≡ counted_of (in_one (decode_set (width_of kinds) 0 first rows end (columns_of count offsets.now deltas.now) (room n))) }
    ensures targets_after { targets.new ≡ written_over (take n targets.old)
        (in_one (decode_set (width_of kinds) 0 first rows end (columns_of count offsets.now deltas.now) (room n))) ++ drop n targets.old }
{
    columns_read::sets::decode_csr(
        kinds,
        Set::Forward,
        first,
        rows,
        end,
        count,
        offsets,
        deltas,
        &mut targets[..n],
    )
}
