// The answer of a call that reads or builds the three sets of a granule.
ghost use Rattle.std.specs.Prelude.{◌≡◌};
ghost use Rattle.ffi.specs.Numbers.{no_edges};

use columns::refusal::Refusal;

// How many targets each set of a granule has.
#[repr(C)]
#[derive(Clone, Copy)]
pub struct Granule {
    pub refusal: u64,
    pub forward: usize,
    pub reverse: usize,
    pub inbound: usize,
}

impl From<Refusal> for Granule {
    ghost from_gives = { λ why granule. granule ≡ no_edges why };

    fn from(why: Refusal) -> Granule {
        Granule {
            refusal: why.number(),
            forward: 0,
            reverse: 0,
            inbound: 0,
        }
    }
}
