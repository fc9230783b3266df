// Links copied from columns to columns.
#![tactic(auto)]

ghost use Rattle.std.specs.Prelude.{◌≡◌, ◌≤◌, length, take};
ghost use Rattle.cover.specs.Cover.{links_of};

// Copies the first n numbers of a column.
fn copy_first(n: usize, column: &[u32], out: &mut [u32])
    requires { (n ≤ length column.now) × (n ≤ length out.old) }
    ensures { take n out.new ≡ take n column.now }
{
    cover_rows::copy_column(&column[..n], out);
}

// Copies the first n links of four columns.
pub fn copy_links(
    n: usize,
    a: &[u32],
    b: &[u32],
    c: &[u32],
    d: &[u32],
    x: &mut [u32],
    y: &mut [u32],
    z: &mut [u32],
    w: &mut [u32],
)
    requires n_bound { n ≤ 1024 }
    requires a_len { (length a.now ≡ 1024) × ((length b.now ≡ 1024) × ((length c.now ≡ 1024) × (length d.now ≡ 1024))) }
    requires x_len { (length x.old ≡ 1024) × ((length y.old ≡ 1024) × ((length z.old ≡ 1024) × (length w.old ≡ 1024))) }
    ensures { links_of (take n x.new) (take n y.new) (take n z.new) (take n w.new)
        ≡ links_of (take n a.now) (take n b.now) (take n c.now) (take n d.now) }
{
    copy_first(n, a, x);
    copy_first(n, b, y);
    copy_first(n, c, z);
    copy_first(n, d, w);
}
