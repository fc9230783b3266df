// The functions of `ffi_clean` for programs in C or Rust: each calls the proved function of its name, and promises what that promises.
#![tactic(auto)]

ghost use Rattle.run.specs.Promises.{written_from};
ghost use Rattle.run_clean.specs.Cleans.{cleaned_from};
ghost use Rattle.run.specs.View.{view};
ghost use Rattle.run_print.specs.Whole.{listing_from};
ghost use Rattle.ffi_clean.specs.Whole.{words_from, GivesBy};

use ffi::answer::Answer;
use run::Run;

// An archive cleaned into lent bytes: taken alone by a fresh run, resolved and written.
#[unsafe(no_mangle)]
pub extern "C" fn ridgeoven_clean(bytes: &[u8], out: &mut [u8]) -> Answer
    ensures { GivesBy (cleaned_from bytes.now) out.old out.new result }
{
    ffi_clean::ridgeoven_clean(bytes, out)
}

// The cleaned archive of a resolved run in lent bytes, as often as wanted.
#[unsafe(no_mangle)]
pub extern "C" fn ridgeoven_write(run: Run, out: &mut [u8]) -> Answer
    ensures { GivesBy (written_from (view run)) out.old out.new result }
{
    ffi_clean::ridgeoven_write(run, out)
}

// The listing of an archive in lent bytes.
#[unsafe(no_mangle)]
pub extern "C" fn ridgeoven_list(bytes: &[u8], out: &mut [u8]) -> Answer
    ensures { GivesBy (listing_from bytes.now) out.old out.new result }
{
    ffi_clean::ridgeoven_list(bytes, out)
}

// What the number of a refusal means, in lent bytes; a number that is no refusal's has no words.
#[unsafe(no_mangle)]
pub extern "C" fn ridgeoven_words(refusal: u64, out: &mut [u8]) -> Answer
    ensures { GivesBy (words_from refusal) out.old out.new result }
{
    ffi_clean::ridgeoven_words(refusal, out)
}
