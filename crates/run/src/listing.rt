// The listing of a resolved run.
ghost use Rattle.run.specs.Promises.{Lists};

use crate::{Run, turns};
use columns::refusal::Refusal;

// Writes the listing into lent bytes, and answers its length.
pub fn list(run: Run, out: &mut [u8]) -> Result<usize, Refusal>
    ensures { Lists run out.old out.new result }
{
    let holds = turns::is_holdable(run.held);
    if !turns::is_resolved(run.phase, holds, turns::is_writable(run.sheet)) {
        return Err(Refusal::OutOfTurn);
    }
    run_list::list(run.held, run.sheet, out)
}
