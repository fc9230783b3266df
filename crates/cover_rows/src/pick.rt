// Rows of link columns picked by their places: a column at a time, and all four.
ghost use Rattle.std.specs.Prelude.{◌≡◌, true, map, ◌≤◌, length, take};
ghost use Rattle.cover.specs.Answers.{link_columns, over, links_over};
ghost use Rattle.cover_rows.specs.Links.{link_at};
ghost use Rattle.cover_rows.specs.pick.Picked.{picked, within};

use crate::Links;

// Writes what a column holds at the first n of the places.
fn pick(column: &[u32], rows: &[usize], n: usize, out: &mut [u32])
    requires n_in_bounds { (n ≤ length rows.now) × (n ≤ length out.old) }
    requires rows_value { within (length column.now) (take n rows.now) ≡ true }
    ensures { out.new ≡ over (picked column.now (take n rows.now)) out.old }
{
    for i in 0..n {
        let r = rows[i];
        out[i] = column[r];
    }
}

// Writes the links at the first n of the places.
pub fn pick_links(
    links: &Links<'_>,
    rows: &[usize],
    n: usize,
    x: &mut [u32],
    y: &mut [u32],
    z: &mut [u32],
    w: &mut [u32],
)
    requires n_in_bounds { (n ≤ length rows.now) × (within (length links.now.from_chains.now) (take n rows.now) ≡ true) }
    requires n_in_bounds_2 { (n ≤ length x.old) × ((n ≤ length y.old) × ((n ≤ length z.old) × (n ≤ length w.old))) }
    ensures { link_columns x.new y.new z.new w.new
        ≡ links_over (map (link_at links.now) (take n rows.now)) (link_columns x.old y.old z.old w.old) }
{
    pick(links.from_chains, rows, n, x);
    pick(links.from_seqs, rows, n, y);
    pick(links.to_chains, rows, n, z);
    pick(links.to_seqs, rows, n, w);
}
