// A cleaning run: it takes sources, resolves once, then writes. specs/ says what a run stands for; the steps are those of cleaning.
#![tactic(auto)]

pub mod listing;
mod turns;

ghost use Rattle.std.specs.Prelude.{◌≡◌};
ghost use Rattle.cleaning.specs.Step.{takes, resolves};
ghost use Rattle.cleaning.specs.Runs.{fresh_run};
ghost use Rattle.run.specs.View.{view};
ghost use Rattle.run.specs.Promises.{Steps, Writes, Maps, Counts};

use columns::refusal::Refusal;
use run_state::{Held, Sheet};

// The sources taken, and once resolved the survivors.
#[repr(C)]
#[derive(Clone, Copy)]
pub struct Run {
    phase: u64,
    held: Held,
    sheet: Sheet,
}

// The run after a call, and the answer. A refused call gives back the run that it was given.
#[derive(Clone, Copy)]
pub struct Stepped {
    pub run: Run,
    pub reply: Result<(), Refusal>,
}

// A run that has taken nothing.
pub fn new() -> Run
    ensures { view result ≡ fresh_run }
{
    let h = run_state::empty::fresh();
    run_state::order::long::held_long(h);
    let s = h.sheet;
    Run {
        phase: 0,
        held: h,
        sheet: s,
    }
}

// Takes the files of an archive, after those taken before.
pub fn take(run: Run, bytes: &[u8]) -> Stepped
    ensures { Steps (takes bytes.now) run result.run result.reply }
{
    let holds = turns::is_holdable(run.held);
    if !turns::is_taking(run.phase, holds) {
        return Stepped {
            run,
            reply: Err(Refusal::OutOfTurn),
        };
    }
    match run_take::take(run.held, bytes) {
        Err(x) => Stepped { run, reply: Err(x) },
        Ok(h) => {
            let s = run.sheet;
            Stepped {
                run: Run {
                    phase: 0,
                    held: h,
                    sheet: s,
                },
                reply: Ok(()),
            }
        }
    }
}

// Ends the taking of sources: the survivors get their new numbers and parents.
pub fn resolve(run: Run) -> Stepped
    ensures { Steps resolves run result.run result.reply }
{
    let holds = turns::is_holdable(run.held);
    if !turns::is_taking(run.phase, holds) {
        return Stepped {
            run,
            reply: Err(Refusal::OutOfTurn),
        };
    }
    let q = run_resolve::resolve(run.held);
    match q {
        Err(x) => Stepped { run, reply: Err(x) },
        Ok(s) => {
            let h = run.held;
            Stepped {
                run: Run {
                    phase: 1,
                    held: h,
                    sheet: s,
                },
                reply: Ok(()),
            }
        }
    }
}

// Writes the cleaned archive of a resolved run, as often as wanted.
pub fn write(run: Run, out: &mut [u8]) -> Result<usize, Refusal>
    ensures { Writes run out.old out.new result }
{
    let holds = turns::is_holdable(run.held);
    if !turns::is_resolved(run.phase, holds, turns::is_writable(run.sheet)) {
        return Err(Refusal::OutOfTurn);
    }
    run_write::write_sheet(run.sheet, out)
}

// The new number of an old one, in a resolved run.
pub fn new_number(run: Run, old: u64) -> Result<Option<u64>, Refusal>
    ensures { Maps run old result }
{
    let holds = turns::is_holdable(run.held);
    if !turns::is_resolved(run.phase, holds, turns::is_writable(run.sheet)) {
        return Err(Refusal::OutOfTurn);
    }
    Ok(run_resolve::asked::new_number(run.held, old))
}

// How many survivors name an erased parent, in a resolved run.
pub fn reparented(run: Run) -> Result<usize, Refusal>
    ensures { Counts run result }
{
    let holds = turns::is_holdable(run.held);
    if !turns::is_resolved(run.phase, holds, turns::is_writable(run.sheet)) {
        return Err(Refusal::OutOfTurn);
    }
    Ok(run_resolve::sheet::asked::reparented(run.held))
}
