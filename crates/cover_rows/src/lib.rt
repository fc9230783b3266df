// Link columns row by row: their order, and the sums of the first one.
#![tactic(auto)]

pub mod limits;
pub mod pick;

ghost use Rattle.std.specs.Prelude.{◌≡◌, true, ◌≤◌, ◌<◌, length};
ghost use Rattle.cover.specs.Chains.{link_less, links_rise};
ghost use Rattle.cover.specs.Cover.{sums, sums_fit, links_ok};
ghost use Rattle.cover.specs.Answers.{link, link_columns, over};

// Four columns that hold links, place by place.
#[derive(Clone, Copy)]
pub struct Links<'a> {
    pub from_chains: &'a [u32],
    pub from_seqs: &'a [u32],
    pub to_chains: &'a [u32],
    pub to_seqs: &'a [u32],
    ghost from_even: { length from_seqs.now ≡ length from_chains.now },
    ghost to_even: { length to_chains.now ≡ length from_chains.now },
    ghost ends_even: { length to_seqs.now ≡ length from_chains.now },
}

// Whether the link a b c d stands before the link x y z w.
pub fn is_less(a: u32, b: u32, c: u32, d: u32, x: u32, y: u32, z: u32, w: u32) -> bool
    ensures { result ≡ link_less (link a b c d) (link x y z w) }
{
    a < x || (a == x && (b < y || (b == y && (c < z || (c == z && d < w)))))
}

impl Links<'_> {
    ghost use Rattle.cover_rows.specs.Links.{links_in, link_at};

    // Whether the link at place i stands before the link at place j.
    pub fn is_less(&self, i: usize, j: usize) -> bool
        requires { (i < length self.now.from_chains.now) × (j < length self.now.from_chains.now) }
        ensures { result ≡ link_less (link_at self.now i) (link_at self.now j) }
    {
        is_less(
            self.from_chains[i],
            self.from_seqs[i],
            self.to_chains[i],
            self.to_seqs[i],
            self.from_chains[j],
            self.from_seqs[j],
            self.to_chains[j],
            self.to_seqs[j],
        )
    }

    // Whether each link stands before the next.
    pub fn rise(&self) -> bool
        ensures { result ≡ links_rise (links_in self.now) }
    {
        for i in 1..self.from_chains.len() {
            if !self.is_less(i - 1, i) {
                return false;
            }
        }
        true
    }
}

// Whether no sum of the differences passes 2^32 − 1.
fn sums_fit(differences: &[u32]) -> bool
    ensures { result ≡ sums_fit differences.now }
{
    let mut sum: u32 = 0;
    for i in 0..differences.len() {
        let d = differences[i];
        if 4294967295 - sum < d {
            return false;
        }
        sum += d;
    }
    true
}

// Writes the sums of the differences, none of which passes 2^32 − 1.
pub fn write_sums(differences: &[u32], out: &mut [u32])
    requires { (length differences.now ≤ length out.old) × (sums_fit differences.now ≡ true) }
    ensures { out.new ≡ over (sums 0 differences.now) out.old }
{
    let mut sum: u32 = 0;
    for i in 0..differences.len() {
        sum += differences[i];
        out[i] = sum;
    }
}

// Copies a column.
pub fn copy_column(column: &[u32], out: &mut [u32])
    requires { length column.now ≤ length out.old }
    ensures { out.new ≡ over column.now out.old }
{
    for i in 0..column.len() {
        out[i] = column[i];
    }
}

// Whether stored link columns are in form: equal in number, no sum too large, links rising.
pub fn links_fit(differences: &[u32], b: &[u32], c: &[u32], d: &[u32]) -> bool
    requires { length differences.now ≤ 1024 }
    ensures { result ≡ links_ok (link_columns differences.now b.now c.now d.now) }
{
    let n = differences.len();
    if b.len() != n || c.len() != n || d.len() != n || !sums_fit(differences) {
        return false;
    }
    let mut a = [0u32; 1024];
    write_sums(differences, &mut a);
    let links = Links {
        from_chains: &a[..n],
        from_seqs: b,
        to_chains: c,
        to_seqs: d,
    };
    links.rise()
}
