// What is known of one group, out of the tables of all groups.
ghost use Rattle.std.specs.Prelude.{◌<◌};
ghost use Rattle.run_section.specs.Facts.{FactsAt};

use crate::covers::Covers;
use crate::rules::{Known, known_of};
use run_state::Groups;

// Its depth and whether it has a cover, rule 10, and its ranges: from record `from` of their table up to record `to`.
#[derive(Clone, Copy)]
pub struct Facts {
    pub known: Known,
    pub rises: bool,
    pub from: usize,
    pub to: usize,
}

pub fn facts_of(groups: Groups, covers: Covers, g: usize) -> Facts
    requires { g < 16 }
    ensures { FactsAt groups covers g result }
{
    let known = known_of(groups, g);
    Facts {
        known,
        rises: covers.rises[g],
        from: covers.ends[g],
        to: covers.ends[g + 1],
    }
}
