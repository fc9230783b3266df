// Whether links fall nowhere.
ghost use Rattle.std.specs.Prelude.{◌≡◌};
ghost use Rattle.cover_rows.specs.Links.{links_in};
ghost use Rattle.cover_sort.specs.Kept.{links_level};

use cover_rows::Links;

// Whether no link stands before the one before it.
pub fn links_level(links: &Links<'_>) -> bool
    ensures { result ≡ links_level (links_in links.now) }
{
    for i in 1..links.from_chains.len() {
        if links.is_less(i, i - 1) {
            return false;
        }
    }
    true
}
