// The functions of `ffi_links_store` for programs in C or Rust: each calls the proved function of its name, and promises what that promises.
#![tactic(auto)]

ghost use Rattle.std.specs.Prelude.{◌≡◌, [], ◌∷◌, map, length};
ghost use Rattle.cover.specs.Answers.{link_columns, counted, columns_after};
ghost use Rattle.cover_links.specs.Links.{meant};
ghost use Rattle.ffi_cover.specs.Numbers.{records_of};
ghost use Rattle.ffi_links.specs.Records.{store_lent};

use cover_links::Link;
use ffi::answer::Answer;

// Writes the stored columns of links, the first of differences.
#[unsafe(no_mangle)]
pub extern "C" fn ridgeoven_links_store(
    links: &[Link],
    a: &mut [u32],
    b: &mut [u32],
    c: &mut [u32],
    d: &mut [u32],
) -> Answer
    ensures { (result ≡ records_of (counted (λ x. x.from_chains)
        (store_lent (map meant links.now) (length a.old ∷ length b.old ∷ length c.old ∷ length d.old ∷ []))))
        × (link_columns a.new b.new c.new d.new
        ≡ columns_after (store_lent (map meant links.now)
        (length a.old ∷ length b.old ∷ length c.old ∷ length d.old ∷ []))
        (link_columns a.old b.old c.old d.old)) }
{
    ffi_links_store::ridgeoven_links_store(links, a, b, c, d)
}
