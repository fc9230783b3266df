// The loops over the files of an accepted archive, each of which stores one part of what a run holds: what they keep true.
ghost use Rattle.std.specs.Prelude.{◌≡◌, ◌+◌, ◌<◌};

use run_state::Held;

// One more than a number that is below another. What a run held at first goes along unread: what a loop keeps true speaks of it.
pub fn next(h: Held, k: usize, end: usize) -> usize
    requires { k < end }
    ensures { result ≡ k + 1 }
{
    k + 1
}
