// Survivors prepared for writing: all that the files of their groups are written from, in lent arrays.
ghost use Rattle.std.specs.Prelude.{◌≡◌, true, ◌≤◌, length};
ghost use Rattle.run_state.specs.Valid.{sheet_ok, once_ok};
ghost use Rattle.run_state.specs.order.Ordered.{ordered};
ghost use Rattle.run_section.specs.Laid.{RowsLaid, UnresolvedLaid, RootsLaid, LinksLaid, counts_of};
ghost use Rattle.run_section.specs.Prepared.{Rooms, PreparedBy, Turnable, TablesReady, ChildrenPut};

use crate::Counts;
use crate::covers::{Covers, covers_of};
use crate::tables::{links_table, roots_table, rows_table, unresolved_table};
use columns_sets::transpose::turn;
use run_state::order::long::sheet_long;
use run_state::{Edges, Links, Roots, Rows, Sheet, Unresolved};

// How many survivors there are, the covers of their groups, and how many children their rows have.
#[derive(Clone, Copy)]
pub struct Prepared {
    pub counts: Counts,
    pub covers: Covers,
    pub kids: usize,
}

// Each table from the columns of its part.
fn lay_rows(r: Rows, out: &mut [u64; 4096])
    requires { r.count ≤ 1024 }
    ensures { RowsLaid r.count r.groups r.tags r.chains r.seqs out.new }
{
    let groups = r.groups;
    let tags = r.tags;
    let chains = r.chains;
    let seqs = r.seqs;
    rows_table(&groups, &tags, &chains, &seqs, r.count, out);
}

fn lay_unresolved(u: Unresolved, out: &mut [u64; 3072])
    requires { u.count ≤ 1024 }
    ensures { UnresolvedLaid u.count u.children u.kinds u.handles out.new }
{
    let children = u.children;
    let kinds = u.kinds;
    let handles = u.handles;
    unresolved_table(&children, &kinds, &handles, u.count, out);
}

fn lay_roots(r: Roots, out: &mut [u64; 2048])
    requires { r.count ≤ 1024 }
    ensures { RootsLaid r.count r.rows r.handles out.new }
{
    let rows = r.rows;
    let handles = r.handles;
    roots_table(&rows, &handles, r.count, out);
}

fn lay_links(l: Links, out: &mut [u64; 5120])
    requires { l.count ≤ 1024 }
    ensures { LinksLaid l.count l.groups l.from.chains l.from.seqs l.to.chains l.to.seqs out.new }
{
    let groups = l.groups;
    let a = l.from.chains;
    let b = l.from.seqs;
    let c = l.to.chains;
    let d = l.to.seqs;
    links_table(&groups, &a, &b, &c, &d, l.count, out);
}

// The tables of a sheet, ready to be written.
fn lay_tables(
    s: Sheet,
    rows: &mut [u64; 4096],
    unresolved: &mut [u64; 3072],
    roots: &mut [u64; 2048],
    links: &mut [u64; 5120],
)
    requires { (sheet_ok s ≡ true) × ((ordered s ≡ true) × (once_ok s ≡ true)) }
    ensures { TablesReady s rows.new unresolved.new roots.new links.new }
{
    sheet_long(s);
    lay_rows(s.rows, rows);
    lay_unresolved(s.unresolved, unresolved);
    lay_roots(s.roots, roots);
    lay_links(s.links, links);
}

// The children of every row: where those of each start, and the children of all, of which it answers how many there are.
fn put_children(z: Counts, e: Edges, starts: &mut [u64; 2049], kids: &mut [u64; 4096]) -> usize
    requires turnable { Turnable z e }
    requires starts_len { (length starts.old ≡ 2049) × (length kids.old ≡ 4096) }
    ensures { ChildrenPut z e starts.new kids.new result }
{
    let offsets = e.offsets;
    let targets = e.targets;
    let k = 2 * z.rows + 1;
    turn(
        z.start,
        z.rows,
        &offsets[..k],
        &targets[..e.count],
        starts,
        kids,
    )
}

fn counts_of(s: Sheet) -> Counts
    ensures { result ≡ counts_of s }
{
    Counts {
        start: s.start,
        rows: s.rows.count,
        unresolved: s.unresolved.count,
        roots: s.roots.count,
        links: s.links.count,
    }
}

// The tables of a sheet's survivors, the children of every row in a table of lists, and the ranges of all covered groups, in lent arrays.
pub fn prepare(
    s: Sheet,
    rows: &mut [u64; 4096],
    unresolved: &mut [u64; 3072],
    roots: &mut [u64; 2048],
    links: &mut [u64; 5120],
    starts: &mut [u64; 2049],
    kids: &mut [u64; 4096],
    ranges: &mut [u64; 3072],
) -> Prepared
    requires s_value { (sheet_ok s ≡ true) × ((ordered s ≡ true) × (once_ok s ≡ true)) }
    requires rooms { Rooms starts.old kids.old ranges.old }
    ensures { PreparedBy s rows.new unresolved.new roots.new links.new starts.new kids.new ranges.new result }
{
    lay_tables(s, rows, unresolved, roots, links);
    let counts = counts_of(s);
    let n = put_children(counts, s.edges, starts, kids);
    let covers = covers_of(counts, s.groups, rows, ranges);
    Prepared {
        counts,
        covers,
        kids: n,
    }
}
