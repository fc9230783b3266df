// The new numbers of the survivors.
ghost use Rattle.std.specs.Prelude.{◌≡◌, ◌+◌, ◌^◌, ◌-◌, ◌≤◌, length, take};
ghost use Rattle.run_renumber.specs.Numbers.{numbers_from};

// The new numbers of rows, at the front of a column.
pub fn new_numbers(flags: &[u8], start: u64) -> [u64; 1024]
    requires { (length flags.now ≤ 1024) × (start + length flags.now ≤ 2 ^ 64 - 1) }
    ensures { take (length flags.now) result ≡ numbers_from start flags.now }
{
    let mut numbers = [0u64; 1024];
    run_renumber::put_numbers(&mut numbers, flags, start);
    numbers
}
