// The functions of `ffi_links` for programs in C or Rust: each calls the proved function of its name, and promises what that promises.
#![tactic(auto)]

ghost use Rattle.std.specs.Prelude.{◌≡◌, map};
ghost use Rattle.cover.specs.Answers.{counted};
ghost use Rattle.cover_links.specs.Links.{meant};
ghost use Rattle.ffi_cover.specs.Numbers.{records_of};
ghost use Rattle.ffi_links.specs.Records.{sort_lent, records_after};

use cover_links::Link;
use ffi::answer::Answer;

// Puts links in order, repeats dropped, from the start of their slice on, and answers how many they are; what stands behind them stays.
#[unsafe(no_mangle)]
pub extern "C" fn ridgeoven_links_sort(links: &mut [Link]) -> Answer
    ensures { (result ≡ records_of (counted (λ x. x) (sort_lent (map meant links.old))))
        × (map meant links.new ≡ records_after (sort_lent (map meant links.old)) (map meant links.old)) }
{
    ffi_links::ridgeoven_links_sort(links)
}
