// The lists of the rows that survive, out of the lists of all rows: a table of offsets and a column of numbers.
ghost use Rattle.std.specs.Prelude.{◌≡◌, true, [], ◌∷◌, ◌++◌, ◌+◌, ◌-◌, ◌*◌, ◌≤◌, ◌<◌, length, take, get_or};
ghost use Rattle.std.proofs.Math.Seq.{slice};
ghost use Rattle.columns.specs.Limits.{kinds};
ghost use Rattle.columns.specs.EdgeSet.{from_to, offsets_form, cut};
ghost use Rattle.run_renumber.specs.Answers.{Built};
ghost use Rattle.cleaning.specs.Survivors.{keep_slots};
ghost use Rattle.run_compact.specs.Columns.{gone};
ghost use Rattle.run_compact.specs.slots.Slots.{slots_from};

use arrays::index;
use columns::kind::KINDS;

// targets[a..b] behind all[..end].
fn append(all: &mut [u64], end: usize, targets: &[u64], a: usize, b: usize) -> usize
    requires { (a ≤ b) × ((b ≤ length targets.now) × (end + (b - a) ≤ length all.old)) }
    ensures { (result ≡ end + (b - a)) × (take result all.new ≡ take end all.old ++ slice a b targets.now) }
{
    // One by one: the library's copy would need `memmove` where what is linked has it not.
    let mut n = end;
    for i in a..b {
        all[n] = targets[i];
        n += 1;
    }
    n
}

// The list of slot s behind the first k lists, which fill all[..end].
fn add_slot(
    offsets: &[u64],
    targets: &[u64],
    s: usize,
    offs: &mut [u64],
    all: &mut [u64],
    k: usize,
    end: usize,
) -> usize
    requires s_in_bounds { (s + 1 < length offsets.now) × (from_to 0 (length targets.now) offsets.now ≡ true) }
    requires k_in_bounds { (k + 1 < length offs.old) × ((end ≤ get_or offsets.now s 0) × (length targets.now ≤ length all.old)) }
    requires built { Built offs.old all.old k end (cut (take (k + 1) offs.old) (take end all.old)) }
    ensures { (result ≤ get_or offsets.now (s + 1) 0)
        × Built offs.new all.new (k + 1) result
        (cut (take (k + 1) offs.old) (take end all.old) ++ (get_or (cut offsets.now targets.now) s [] ∷ [])) }
{
    let a = index(offsets[s]);
    let b = index(offsets[s + 1]);
    let m = append(all, end, targets, a, b);
    offs[k + 1] = m as u64;
    m
}

// The lists of the rows that survive, behind none.
fn add_slots(
    flags: &[u8],
    offsets: &[u64],
    targets: &[u64],
    offs: &mut [u64],
    all: &mut [u64],
) -> usize
    requires offsets_value { offsets_form kinds (length flags.now) (length targets.now) offsets.now ≡ true }
    requires flags_in_bounds { (kinds * length flags.now < length offs.old) × (length targets.now ≤ length all.old) }
    requires built { Built offs.old all.old 0 0 [] }
    ensures { Built offs.new all.new (length (slots_from flags.now 0 (cut offsets.now targets.now))) result
        (slots_from flags.now 0 (cut offsets.now targets.now)) }
{
    let slots = KINDS * flags.len();
    let mut end: usize = 0;
    let mut k: usize = 0;
    for s in 0..slots {
        if flags[s / KINDS] == 0 {
            end = add_slot(offsets, targets, s, offs, all, k, end);
            k += 1;
        }
    }
    end
}

// The lists of the rows that survive: where each starts into offs, their entries into all.
pub fn put_slots(
    flags: &[u8],
    offsets: &[u64],
    targets: &[u64],
    offs: &mut [u64],
    all: &mut [u64],
) -> usize
    requires offsets_value { offsets_form kinds (length flags.now) (length targets.now) offsets.now ≡ true }
    requires flags_in_bounds { (kinds * length flags.now < length offs.old) × (length targets.now ≤ length all.old) }
    ensures { Built offs.new all.new (length (keep_slots kinds (gone flags.now) (cut offsets.now targets.now))) result
        (keep_slots kinds (gone flags.now) (cut offsets.now targets.now)) }
{
    offs[0] = 0;
    add_slots(flags, offsets, targets, offs, all)
}
