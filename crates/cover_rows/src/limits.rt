// Tests of limits: columns of more than 1,024 records, and lent slices of fewer.
ghost use Rattle.std.specs.Prelude.{◌≡◌, [], ◌∷◌, ltb};
ghost use Rattle.lists.specs.Lists.{any};
ghost use Rattle.columns.specs.Limits.{max_records};
ghost use Rattle.columns.specs.Refusal.{short};
ghost use Rattle.cover.specs.Answers.{for_records};

// Whether one of the lengths of columns is too long.
pub fn any_over(lengths: &[usize]) -> bool
    ensures { result ≡ any (ltb max_records) lengths.now }
{
    lengths.iter().any(|&n| 1024 < n)
}

// Whether one of the lengths of slices lent for records is too short.
pub fn any_short(lengths: &[usize]) -> bool
    ensures { result ≡ any short (for_records lengths.now) }
{
    lengths.iter().any(|&n| n < 1024)
}

// The same of three columns.
pub fn three_over(a: usize, b: usize, c: usize) -> bool
    ensures { result ≡ any (ltb max_records) (a ∷ b ∷ c ∷ []) }
{
    any_over(&[a, b, c])
}

// Whether one of three range columns or four link columns is too long.
pub fn seven_over(a: usize, b: usize, c: usize, d: usize, e: usize, f: usize, g: usize) -> bool
    ensures { result ≡ any (ltb max_records) (a ∷ b ∷ c ∷ d ∷ e ∷ f ∷ g ∷ []) }
{
    any_over(&[a, b, c, d, e, f, g])
}
