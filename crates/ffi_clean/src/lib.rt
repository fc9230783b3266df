// Whole archives for programs in C or Rust, answered by numbers.
#![tactic(auto)]

ghost use Rattle.run.specs.Promises.{written_from};
ghost use Rattle.run_clean.specs.Cleans.{cleaned_from};
ghost use Rattle.run.specs.View.{view};
ghost use Rattle.run_print.specs.Whole.{listing_from};
ghost use Rattle.ffi_clean.specs.Whole.{words_from, GivesBy};

use columns::refusal::Refusal;
use ffi::answer::Answer;
use run::Run;

// An archive cleaned into lent bytes: taken alone by a fresh run, resolved and written.
pub fn ridgeoven_clean(bytes: &[u8], out: &mut [u8]) -> Answer
    ensures { GivesBy (cleaned_from bytes.now) out.old out.new result }
{
    Answer::from(run_clean::clean(bytes, out))
}

// The cleaned archive of a resolved run in lent bytes, as often as wanted.
pub fn ridgeoven_write(run: Run, out: &mut [u8]) -> Answer
    ensures { GivesBy (written_from (view run)) out.old out.new result }
{
    Answer::from(run::write(run, out))
}

// The listing of an archive in lent bytes.
pub fn ridgeoven_list(bytes: &[u8], out: &mut [u8]) -> Answer
    ensures { GivesBy (listing_from bytes.now) out.old out.new result }
{
    Answer::from(run_print::listing(bytes, out))
}

// What the number of a refusal means, in lent bytes; a number that is no refusal's has no words.
pub fn ridgeoven_words(refusal: u64, out: &mut [u8]) -> Answer
    ensures { GivesBy (words_from refusal) out.old out.new result }
{
    if out.len() < 120 {
        return Answer::from(Err(Refusal::SliceShort));
    }
    let n = messages::words::words_of_number(refusal, out, 0);
    Answer::from(Ok(n))
}
