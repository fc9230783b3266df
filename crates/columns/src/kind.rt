// The kinds of parents, and how many of them a file has.

// How many of them a run's own files have.
pub const KINDS: usize = 2;

#[derive(Clone, Copy, Debug, PartialEq, Eq)]
pub enum Kind {
    Prev,
    Auth,
}

impl Kind {
    ghost use Rattle.std.specs.Prelude.{◌≡◌};
    ghost use Rattle.columns.specs.Answers.{kind_of};

    // A kind's place among the slots of a row.
    pub fn slot(self) -> usize
        ensures { result ≡ kind_of self }
    {
        match self {
            Kind::Prev => 0,
            Kind::Auth => 1,
        }
    }
}

#[derive(Clone, Copy, Debug, PartialEq, Eq)]
pub enum Kinds {
    Two,
    Three,
}

impl Kinds {
    ghost use Rattle.std.specs.Prelude.{◌≡◌};
    ghost use Rattle.columns.specs.Limits.{Served};
    ghost use Rattle.columns.specs.Answers.{width_of};

    // How many slots a row has.
    pub fn width(self) -> usize
        ensures value { result ≡ width_of self }
        ensures served { Served result }
    {
        match self {
            Kinds::Two => 2,
            Kinds::Three => 3,
        }
    }
}
