// An answer by numbers: a refusal by its number and nothing else, or 0 and what was found.
ghost use Rattle.std.specs.Prelude.{◌≡◌};
ghost use Rattle.ffi.specs.Numbers.{answer_of};

use columns::refusal::Refusal;

// How many there are, or how many entries were written.
#[repr(C)]
#[derive(Clone, Copy)]
pub struct Answer {
    pub refusal: u64,
    pub length: usize,
}

impl From<Result<usize, Refusal>> for Answer {
    ghost from_gives = { λ counted answer. answer ≡ answer_of counted };

    fn from(counted: Result<usize, Refusal>) -> Answer {
        match counted {
            Ok(n) => Answer {
                refusal: 0,
                length: n,
            },
            Err(why) => Answer {
                refusal: why.number(),
                length: 0,
            },
        }
    }
}
