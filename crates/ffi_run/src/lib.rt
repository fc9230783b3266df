// A run for programs in C or Rust, step by step and answered by numbers: a run is a value, given and given back.
#![tactic(auto)]

ghost use Rattle.std.specs.Prelude.{◌≡◌};
ghost use Rattle.columns.specs.Limits.{kinds};
ghost use Rattle.cleaning.specs.Step.{takes, resolves, maps, counts};
ghost use Rattle.cleaning.specs.Runs.{fresh_run, run_step};
ghost use Rattle.run.specs.View.{view};
ghost use Rattle.run.specs.Promises.{replied, numbered};
ghost use Rattle.ffi.specs.Numbers.{refusal_of};
ghost use Rattle.ffi_run.specs.Steps.{StepsBy, told_of, count_of};

use columns::refusal::Refusal;
use ffi::answer::Answer;
use run::Run;

// The run after a call.
#[repr(C)]
#[derive(Clone, Copy)]
pub struct Step {
    pub run: Run,
    pub refusal: u64,
}

// The new number of an event: `known` is 0 where it is erased or no event has the number.
#[repr(C)]
#[derive(Clone, Copy)]
pub struct Renumbered {
    pub refusal: u64,
    pub known: u64,
    pub number: u64,
}

fn reply_number(reply: Result<(), Refusal>) -> u64
    ensures { result ≡ refusal_of (replied reply) }
{
    match reply {
        Ok(()) => 0,
        Err(why) => why.number(),
    }
}

impl From<Result<Option<u64>, Refusal>> for Renumbered {
    ghost from_gives = { λ answer renumbered. renumbered ≡ told_of (numbered answer) };

    fn from(answer: Result<Option<u64>, Refusal>) -> Renumbered {
        match answer {
            Ok(Some(n)) => Renumbered {
                refusal: 0,
                known: 1,
                number: n,
            },
            Ok(None) => Renumbered {
                refusal: 0,
                known: 0,
                number: 0,
            },
            Err(why) => Renumbered {
                refusal: why.number(),
                known: 0,
                number: 0,
            },
        }
    }
}

// A run that has taken nothing.
pub fn ridgeoven_new() -> Run
    ensures { view result ≡ fresh_run }
{
    run::new()
}

// Takes the files of an archive, after those taken before. After a refusal the run is the one that was given.
pub fn ridgeoven_take(run: Run, bytes: &[u8]) -> Step
    ensures { StepsBy (takes bytes.now) run result }
{
    let q = run::take(run, bytes);
    let a = q.reply;
    let s = q.run;
    Step {
        run: s,
        refusal: reply_number(a),
    }
}

// Ends the taking of sources.
pub fn ridgeoven_resolve(run: Run) -> Step
    ensures { StepsBy resolves run result }
{
    let q = run::resolve(run);
    let a = q.reply;
    let s = q.run;
    Step {
        run: s,
        refusal: reply_number(a),
    }
}

// The new number of an old one, in a resolved run.
pub fn ridgeoven_new_number(run: Run, old: u64) -> Renumbered
    ensures { result ≡ told_of (run_step kinds (view run) (maps old)).answer }
{
    Renumbered::from(run::new_number(run, old))
}

// How many survivors name an erased parent, in a resolved run.
pub fn ridgeoven_reparented(run: Run) -> Answer
    ensures { result ≡ count_of (run_step kinds (view run) counts).answer }
{
    Answer::from(run::reparented(run))
}
