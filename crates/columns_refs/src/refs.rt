// One reference out of the columns, and the unresolved ones counted.
ghost use Rattle.std.specs.Prelude.{◌≡◌, ◌<◌, length, get_or};
ghost use Rattle.lists.specs.Lists.{filter};
ghost use Rattle.columns_refs.specs.Lent.{references};
ghost use Rattle.columns_refs.specs.References.{is_unresolved};
ghost use Rattle.columns_refs.specs.Resolved.{absent, lesser};

// A reference with the answer of its lookup: whether the target is known, 0 for no, and its number.
#[derive(Clone, Copy)]
pub struct Reference {
    pub kind: u8,
    pub space: u8,
    pub target: u64,
    pub known: u8,
    pub number: u64,
}

// The references of a file as they are lent, a column for each part.
#[derive(Clone, Copy)]
pub(crate) struct Lent<'a> {
    pub kinds: &'a [u8],
    pub spaces: &'a [u8],
    pub targets: &'a [u64],
    pub known: &'a [u8],
    pub numbers: &'a [u64],
}

// How many references the columns hold: as many as every column has.
pub(crate) fn given(lent: Lent) -> usize
    ensures { result ≡ length (references lent.entry) }
{
    let a = lent.known.len().min(lent.numbers.len());
    let b = lent.targets.len().min(a);
    let c = lent.spaces.len().min(b);
    lent.kinds.len().min(c)
}

// The reference at place i.
pub(crate) fn reference_at(lent: Lent, i: usize) -> Reference
    requires { i < length (references lent) }
    ensures { result ≡ get_or (references lent.entry) i absent }
{
    Reference {
        kind: lent.kinds[i],
        space: lent.spaces[i],
        target: lent.targets[i],
        known: lent.known[i],
        number: lent.numbers[i],
    }
}

// Whether a reference is prev or auth and names nothing.
pub(crate) fn is_unresolved(x: Reference) -> bool
    ensures { result ≡ is_unresolved x }
{
    if 1 < x.kind {
        return false;
    }
    if x.space == 3 {
        return false;
    }
    x.known == 0
}

// How many references are unresolved.
pub(crate) fn count_unresolved(lent: Lent) -> usize
    ensures { result ≡ length (filter is_unresolved (references lent.entry)) }
{
    let n = given(lent);
    let mut count = 0;
    for i in 0..n {
        if is_unresolved(reference_at(lent, i)) {
            count += 1;
        }
    }
    count
}
