// Whether a number stands in a part of a column, and where it stands in a column of 32 bits that doesn't fall.
ghost use Rattle.std.specs.Prelude.{◌≡◌, ◌≤◌, true, length};
ghost use Rattle.std.proofs.Math.Seq.{slice};
ghost use Rattle.lists.specs.Lists.{mem};
ghost use Rattle.lists.specs.Order.{not_falling};
ghost use Rattle.arrays.specs.searching.Place.{place_of};

// Whether x is one of list[from..to].
pub fn among(list: &[u64], from: usize, to: usize, x: u64) -> bool
    requires { to ≤ length list.now }
    ensures { result ≡ mem x (slice from to list.now) }
{
    from < to && list[from..to].contains(&x)
}

// How many numbers of a column of 32 bits are below x.
pub fn place_in_narrow(a: &[u32], x: u64) -> usize
    requires { not_falling a.now ≡ true }
    ensures { (result ≤ length a.now) × (result ≡ place_of x a.now) }
{
    a.partition_point(|&y| u64::from(y) < x)
}
