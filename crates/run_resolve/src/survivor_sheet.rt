// The sheet of the survivors, out of a run's sheet, the flags of its rows and the survivors' lists.
ghost use Rattle.std.specs.Prelude.{◌≡◌, true, length};
ghost use Rattle.run_state.specs.Valid.{sheet_ok};
ghost use Rattle.run_state.specs.order.Ordered.{ordered};
ghost use Rattle.run_resolve.specs.survivor_sheet.Survive.{SheetKept};

use run_state::{Edges, Sheet};

// Every column of the survivors.
pub fn kept_sheet(s: Sheet, flags: &[u8], e: Edges) -> Sheet
    requires { (sheet_ok s ≡ true) × ((ordered s ≡ true) × (length flags.now ≡ s.rows.count)) }
    ensures { SheetKept flags.now e s result }
{
    run_state::order::long::sheet_long(s);
    let rows = crate::sheet::kept::kept_rows(s.rows, flags);
    let unresolved = crate::records::new_unresolved(s.unresolved, flags, s.start);
    let roots = crate::records::new_roots(s.roots, flags, s.start);
    let links = crate::links::sort_groups(s.links, s.groups.count);
    let subject = s.subject;
    let groups = s.groups;
    Sheet {
        start: s.start,
        subject,
        groups,
        rows,
        edges: e,
        unresolved,
        roots,
        links,
    }
}
