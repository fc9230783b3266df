// The functions of `ffi_links_ask` for programs in C or Rust: each calls the proved function of its name, and promises what that promises.
#![tactic(auto)]

ghost use Rattle.std.specs.Prelude.{◌≡◌, map, length};
ghost use Rattle.cover.specs.Answers.{counted};
ghost use Rattle.cover_links.specs.Links.{meant};
ghost use Rattle.ffi_cover.specs.Numbers.{records_of};
ghost use Rattle.ffi_links.specs.Records.{chain_lent, records_after};

use cover_links::Link;
use ffi::answer::Answer;

// Writes those links that are from one of the chains, in their order, from the start of `out` on, and answers how many they are; what stands behind
// them stays. The links rise.
#[unsafe(no_mangle)]
pub extern "C" fn ridgeoven_links_from(links: &[Link], chains: &[u32], out: &mut [Link]) -> Answer
    ensures { (result ≡ records_of (counted (λ x. x) (chain_lent (map meant links.now) chains.now (length out.old))))
        × (map meant out.new ≡ records_after (chain_lent (map meant links.now) chains.now (length out.old)) (map meant out.old)) }
{
    ffi_links_ask::ridgeoven_links_from(links, chains, out)
}
