// The functions of `ffi_links_build` for programs in C or Rust: each calls the proved function of its name, and promises what that promises.
#![tactic(auto)]

ghost use Rattle.std.specs.Prelude.{◌≡◌, [], ◌∷◌, map, length};
ghost use Rattle.columns.specs.Answers.{label_columns};
ghost use Rattle.cover.specs.Answers.{range_columns};
ghost use Rattle.cover_build.specs.Built.{built_of, ranges_after};
ghost use Rattle.cover_links.specs.Links.{meant};
ghost use Rattle.ffi_cover.specs.Numbers.{covered_of};
ghost use Rattle.ffi_links.specs.Records.{records_after};
ghost use Rattle.ffi_links_build.specs.Covers.{build_lent, links_in};

use cover_links::Link;
use ffi_cover::covers::Covered;

// Writes the ranges of labels into three columns, by rising chain id, and links in order, repeats dropped, from the start of `out` on; answers how
// many of each, and what stands behind them stays.
#[unsafe(no_mangle)]
pub extern "C" fn ridgeoven_links_build(
    chains: &[u32],
    seqs: &[u32],
    links: &[Link],
    ids: &mut [u32],
    minima: &mut [u32],
    maxima: &mut [u32],
    out: &mut [Link],
) -> Covered
    ensures { (result ≡ covered_of (built_of (build_lent (label_columns chains.now seqs.now) (map meant links.now)
        (length ids.old ∷ length minima.old ∷ length maxima.old ∷ length out.old ∷ []))))
        × ((range_columns ids.new minima.new maxima.new
        ≡ ranges_after (build_lent (label_columns chains.now seqs.now) (map meant links.now)
        (length ids.old ∷ length minima.old ∷ length maxima.old ∷ length out.old ∷ []))
        (range_columns ids.old minima.old maxima.old))
        × (map meant out.new
        ≡ records_after (links_in (build_lent (label_columns chains.now seqs.now) (map meant links.now)
        (length ids.old ∷ length minima.old ∷ length maxima.old ∷ length out.old ∷ [])))
        (map meant out.old))) }
{
    ffi_links_build::ridgeoven_links_build(chains, seqs, links, ids, minima, maxima, out)
}
