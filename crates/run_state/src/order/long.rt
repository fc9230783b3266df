// How long columns are, said once for whoever uses them: these functions do nothing.
ghost use Rattle.std.specs.Prelude.{◌≡◌, length};
ghost use Rattle.columns.specs.Limits.{max_records, max_subject};
ghost use Rattle.run_state.specs.order.Long.{LongGroups, LongRows, LongEdges, LongUnresolved, LongRoots, LongEnds, LongLinks, LongSheet, LongHeld};

use crate::{Edges, Ends, Groups, Held, Links, Roots, Rows, Sheet, Subject, Unresolved};

pub fn subject_long(s: Subject)
    ensures { length s.bytes ≡ max_subject }
{}

fn groups_long(g: Groups)
    ensures { LongGroups g }
{}

fn rows_long(r: Rows)
    ensures { LongRows r }
{}

fn edges_long(e: Edges)
    ensures { LongEdges e }
{}

pub fn unresolved_long(u: Unresolved)
    ensures { LongUnresolved u }
{}

fn roots_long(r: Roots)
    ensures { LongRoots r }
{}

fn ends_long(e: Ends)
    ensures { LongEnds e }
{}

fn links_long(l: Links)
    ensures { LongLinks l }
{
    ends_long(l.from);
    ends_long(l.to);
}

fn erased_long(e: [u8; 1024])
    ensures { length e ≡ max_records }
{}

pub fn sheet_long(s: Sheet)
    ensures { LongSheet s }
{
    subject_long(s.subject);
    groups_long(s.groups);
    rows_long(s.rows);
    edges_long(s.edges);
    unresolved_long(s.unresolved);
    roots_long(s.roots);
    links_long(s.links);
}

pub fn held_long(h: Held)
    ensures { LongHeld h }
{
    sheet_long(h.sheet);
    let e = h.erased;
    erased_long(e);
    edges_long(h.reverse);
    edges_long(h.inbound);
}
