// What is given by a number.
ghost use Rattle.std.specs.Prelude.{◌≡◌};
ghost use Rattle.ffi.specs.Numbers.{flag_at};

// A flag by its number: 0 is no, any other yes.
pub fn flag_at(n: u64) -> bool
    ensures { result ≡ flag_at n }
{
    n != 0
}
