// The parents that a walk follows.
ghost use Rattle.columns_levels.specs.frontier.Frontier.{OfKinds};

// The parents by a kind as they are stored: offsets cut the targets into the lists of the slots from that of number `first` on, `width` slots
// for each number.
#[derive(Clone, Copy)]
pub struct Parents<'a> {
    pub width: usize,
    pub first: u64,
    pub kind: usize,
    pub offsets: &'a [u64],
    pub targets: &'a [u64],
    ghost of_kinds: { OfKinds width kind },
}
