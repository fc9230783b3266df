// Whether a column is in the order that its record asks for: children that do not fall, roots that rise.
ghost use Rattle.std.specs.Prelude.{◌≡◌, ◌≤◌, length, take};
ghost use Rattle.std.proofs.Math.Seq.{slice};
ghost use Rattle.lists.specs.Order.{rising, rises_above, not_falling};

// Whether none of the first n numbers falls.
pub fn is_level(column: &[u64], n: usize) -> bool
    requires { n ≤ length column.now }
    ensures { result ≡ not_falling (take n column.now) }
{
    let mut low = 0;
    for i in 0..n {
        let x = column[i];
        if x < low {
            return false;
        }
        low = x;
    }
    true
}

// Whether the numbers before place n rise from the second on, the second above `first`.
fn rises_from(column: &[u64], n: usize, first: u64) -> bool
    requires { (1 ≤ n) × (n ≤ length column.now) }
    ensures { result ≡ rises_above first (slice 1 n column.now) }
{
    let mut low = first;
    for i in 1..n {
        let x = column[i];
        if x <= low {
            return false;
        }
        low = x;
    }
    true
}

// Whether the first n numbers rise.
pub fn rises(column: &[u64], n: usize) -> bool
    requires { n ≤ length column.now }
    ensures { result ≡ rising (take n column.now) }
{
    if n == 0 {
        return true;
    }
    rises_from(column, n, column[0])
}
