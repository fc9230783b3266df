// A column keeps the elements of the rows that survive, in order, at its front.
ghost use Rattle.std.specs.Prelude.{◌≡◌, ◌≤◌, length, take};
ghost use Rattle.run_compact.specs.Columns.{survive, kept_in};

pub fn keep<T: Copy>(column: &mut [T; 1024], flags: &[u8]) -> usize
    requires { length flags.now ≤ 1024 }
    ensures { (result ≡ survive flags.now) × (take result column.new
        ≡ kept_in flags.now (take (length flags.now) column.old)) × (length column.new ≡ 1024) }
{
    let mut n: usize = 0;
    for i in 0..flags.len() {
        let survives = flags[i] == 0;
        if survives {
            column[n] = column[i];
            n += 1;
        }
    }
    n
}
