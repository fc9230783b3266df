// The functions of `ffi_run` for programs in C or Rust: each calls the proved function of its name, and promises what that promises.
#![tactic(auto)]

ghost use Rattle.std.specs.Prelude.{◌≡◌};
ghost use Rattle.columns.specs.Limits.{kinds};
ghost use Rattle.cleaning.specs.Step.{takes, resolves, maps, counts};
ghost use Rattle.cleaning.specs.Runs.{fresh_run, run_step};
ghost use Rattle.run.specs.View.{view};
ghost use Rattle.ffi_run.specs.Steps.{StepsBy, told_of, count_of};

use ffi::answer::Answer;
use ffi_run::{Renumbered, Step};
use run::Run;

// A run that has taken nothing.
#[unsafe(no_mangle)]
pub extern "C" fn ridgeoven_new() -> Run
    ensures { view result ≡ fresh_run }
{
    ffi_run::ridgeoven_new()
}

// Takes the files of an archive, after those taken before. After a refusal the run is the one that was given.
#[unsafe(no_mangle)]
pub extern "C" fn ridgeoven_take(run: Run, bytes: &[u8]) -> Step
    ensures { StepsBy (takes bytes.now) run result }
{
    ffi_run::ridgeoven_take(run, bytes)
}

// Ends the taking of sources.
#[unsafe(no_mangle)]
pub extern "C" fn ridgeoven_resolve(run: Run) -> Step
    ensures { StepsBy resolves run result }
{
    ffi_run::ridgeoven_resolve(run)
}

// The new number of an old one, in a resolved run.
#[unsafe(no_mangle)]
pub extern "C" fn ridgeoven_new_number(run: Run, old: u64) -> Renumbered
    ensures { result ≡ told_of (run_step kinds (view run) (maps old)).answer }
{
    ffi_run::ridgeoven_new_number(run, old)
}

// How many survivors name an erased parent, in a resolved run.
#[unsafe(no_mangle)]
pub extern "C" fn ridgeoven_reparented(run: Run) -> Answer
    ensures { result ≡ count_of (run_step kinds (view run) counts).answer }
{
    ffi_run::ridgeoven_reparented(run)
}
