// A taking's last step: the files of an accepted archive are appended to what a run holds, part by part: each part is grown in place over all files.
#![tactic(auto)]

pub mod grow;
pub mod links;
pub mod names;
pub mod parts;
pub mod records;
pub mod rows;
pub mod sets;
pub mod turns;

ghost use Rattle.std.specs.Prelude.{◌≡◌, true};
ghost use Rattle.std.proofs.Math.Option.{none};
ghost use Rattle.columns.specs.Limits.{kinds};
ghost use Rattle.lists.specs.Lists.{Each};
ghost use Rattle.archive.specs.Fits.{FileFits};
ghost use Rattle.archive.specs.Parse.{parse};
ghost use Rattle.cleaning.specs.Held.{hold_rules};
ghost use Rattle.cleaning.specs.History.{files_in};
ghost use Rattle.run_state.specs.View.{held_in};
ghost use Rattle.run_state.specs.Valid.{held_ok};
ghost use Rattle.run_state.specs.order.Ordered.{ordered};
ghost use Rattle.run_store.specs.turns.Going.{is_got, held_after};

use crate::links::store_links;
use crate::names::store_names;
use crate::records::{store_roots, store_unresolved};
use crate::rows::{store_flags, store_rows};
use crate::sets::{Side, store_set};
use run_state::order::long::held_long;
use run_state::{Held, Sheet};

// What is held, with the files of an archive more whose rules are kept.
// Not inlined, so that its columns and those of the steps beside it do not stand on the stack at once.
#[inline(never)]
pub fn store(h: Held, bytes: &[u8]) -> Held
    requires h_value { (held_ok h ≡ true) × (ordered h.sheet ≡ true) }
    requires bytes_value { (is_got (parse kinds bytes.now) ≡ true) × Each (FileFits kinds) (files_in (parse kinds bytes.now)) }
    requires bytes_value_2 { hold_rules kinds (held_in h) (files_in (parse kinds bytes.now)) ≡ none }
    ensures result_value { held_in result ≡ held_after h (parse kinds bytes.now) }
    ensures result_value_2 { (held_ok result ≡ true) × (ordered result.sheet ≡ true) }
{
    held_long(h);
    let names = store_names(h, bytes);
    let subject = names.subject;
    let groups = names.groups;
    let rows = store_rows(h, bytes);
    let edges = store_set(h, h.sheet.edges, Side::Forward, bytes);
    let unresolved = store_unresolved(h, bytes);
    let roots = store_roots(h, bytes);
    let links = store_links(h, bytes);
    let erased = store_flags(h, bytes);
    let reverse = store_set(h, h.reverse, Side::Reverse, bytes);
    let inbound = store_set(h, h.inbound, Side::Inbound, bytes);
    Held {
        sheet: Sheet {
            start: names.start,
            subject,
            groups,
            rows,
            edges,
            unresolved,
            roots,
            links,
        },
        erased,
        reverse,
        inbound,
        ranges: names.ranges,
    }
}
