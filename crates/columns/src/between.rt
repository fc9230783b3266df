// Numbers from one up to another.
ghost use Rattle.std.specs.Prelude.{◌≡◌};
ghost use Rattle.columns.specs.Building.{in_file};

// Whether x is a number from low up to high.
pub fn is_between(x: u64, low: u64, high: u64) -> bool
    ensures { result ≡ in_file low high x }
{
    if x < low {
        return false;
    }
    x < high
}
