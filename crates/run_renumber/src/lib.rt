// The inner loops of resolving, over flat columns: new numbers, new lists slot by slot, the count of reparented survivors. specs/ says what each is.
#![tactic(auto)]

ghost use Rattle.std.specs.Prelude.{◌≡◌, true, ◌+◌, ◌-◌, ◌*◌, ◌%◌, ◌^◌, ◌≤◌, ◌<◌, length, take, get_or};
ghost use mathlib.Core.List.{[], ◌∷◌, ◌++◌, foldl};
ghost use Rattle.std.proofs.Math.Seq.{slice};
ghost use Rattle.std.proofs.lemmas.List.Edits.{sets};
ghost use Rattle.lists.specs.Lists.{add, any};
ghost use Rattle.columns.specs.Limits.{kinds};
ghost use Rattle.columns.specs.EdgeSet.{from_to, offsets_form, cut};
ghost use Rattle.run_renumber.specs.Numbers.{takes, numbers_from, survivors};
ghost use Rattle.run_renumber.specs.NewLists.{add_parent, new_list, new_lists_from, new_lists};
ghost use Rattle.run_renumber.specs.Reparented.{is_erased, is_reparented, reparented};
ghost use Rattle.run_renumber.specs.Answers.{Exact, Built, Result};

use arrays::index;
use arrays::searching::among;
use columns::kind::KINDS;

// The flag at a place, 0 past the end.
fn flag_at(flags: &[u8], i: usize) -> u8
    ensures { result ≡ get_or flags.now i 0 }
{
    flags.get(i).copied().unwrap_or(0)
}

// The number at a place, 0 past the end.
fn number_at(numbers: &[u64], i: usize) -> u64
    ensures { result ≡ get_or numbers.now i 0 }
{
    numbers.get(i).copied().unwrap_or(0)
}

fn takes_one(flag: u8) -> usize
    ensures { (result ≡ takes flag) × (result ≤ 1) }
{
    if flag == 0 { 1 } else { 0 }
}

// The new number of every event, and how many survive.
pub fn put_numbers(numbers: &mut [u64], flags: &[u8], start: u64) -> usize
    requires { (length flags.now ≤ length numbers.old) × (start + length flags.now ≤ 2 ^ 64 - 1) }
    ensures { (numbers.new ≡ sets numbers.old 0 (numbers_from start flags.now)) × (result ≡ survivors flags.now) }
{
    let mut n: usize = 0;
    for i in 0..flags.len() {
        numbers[i] = start + n as u64;
        n += takes_one(flags[i]);
    }
    n
}

// x after all[base..end], unless it stands there. It is looked for before room is, so that a full column still takes a repeat.
fn push(all: &mut [u64], base: usize, end: usize, x: u64) -> Option<usize>
    requires { (base ≤ end) × (end ≤ length all.old) }
    ensures { Exact result base all.old all.new (add (slice base end all.old) x) }
{
    if among(all, base, end, x) {
        return Some(end);
    }
    if end < all.len() {
        all[end] = x;
        return Some(end + 1);
    }
    None
}

// Each of all[a..b], which lies below base, after all[base..end].
fn merge(all: &mut [u64], base: usize, end: usize, a: usize, b: usize) -> Option<usize>
    requires { (a ≤ b) × ((b ≤ base) × ((base ≤ end) × (end ≤ length all.old))) }
    ensures { Exact result base all.old all.new (foldl add (slice base end all.old) (slice a b all.old)) }
{
    let mut n = end;
    for i in a..b {
        let x = all[i];
        n = push(all, base, n, x)?;
    }
    Some(n)
}

// A parent of a kind more. The first s lists, which offs starts, fill all[..base], and the list that grows is all[base..end].
fn add_parent(
    start: u64,
    flags: &[u8],
    numbers: &[u64],
    kind: usize,
    offs: &[u64],
    s: usize,
    all: &mut [u64],
    base: usize,
    end: usize,
    p: u64,
) -> Option<usize>
    requires base_le_end { (base ≤ end) × (end ≤ length all.old) }
    requires kind_lt_kinds { (kind < kinds) × ((s < length offs.now) × (kinds * length flags.now < length offs.now)) }
    requires offs_value { from_to 0 base (take (s + 1) offs.now) ≡ true }
    ensures { Exact result base all.old all.new
        (add_parent kinds start flags.now numbers.now kind (cut (take (s + 1) offs.now) (take base all.old)) (slice base end all.old) p) }
{
    if p < start {
        return push(all, base, end, p);
    }
    let q = index(p - start);
    if flag_at(flags, q) == 0 {
        return push(all, base, end, number_at(numbers, q));
    }
    let t = KINDS * q + kind;
    if s <= t {
        return Some(end);
    }
    let a = index(offs[t]);
    let b = index(offs[t + 1]);
    merge(all, base, end, a, b)
}

// The new list of parents[a..b], behind the first s lists.
fn new_list(
    start: u64,
    flags: &[u8],
    numbers: &[u64],
    kind: usize,
    offs: &[u64],
    s: usize,
    all: &mut [u64],
    base: usize,
    parents: &[u64],
    a: usize,
    b: usize,
) -> Option<usize>
    requires base_in_bounds { (base ≤ length all.old) × ((a ≤ b) × (b ≤ length parents.now)) }
    requires kind_lt_kinds { (kind < kinds) × ((s < length offs.now) × (kinds * length flags.now < length offs.now)) }
    requires offs_value { from_to 0 base (take (s + 1) offs.now) ≡ true }
    ensures { Exact result base all.old all.new
        (new_list kinds start flags.now numbers.now kind (cut (take (s + 1) offs.now) (take base all.old)) (slice a b parents.now)) }
{
    let mut n = base;
    for i in a..b {
        n = add_parent(
            start, flags, numbers, kind, offs, s, all, base, n, parents[i],
        )?;
    }
    Some(n)
}

// The new list of slot s, behind those before it.
fn add_slot(
    start: u64,
    flags: &[u8],
    numbers: &[u64],
    offsets: &[u64],
    targets: &[u64],
    offs: &mut [u64],
    all: &mut [u64],
    s: usize,
    end: usize,
) -> Option<usize>
    requires offsets_value { offsets_form kinds (length flags.now) (length targets.now) offsets.now ≡ true }
    requires s_bound { (s < kinds * length flags.now) × ((kinds * length flags.now < length offs.old) × (length offsets.now ≡ kinds * length flags.now + 1)) }
    requires built { Built offs.old all.old s end (cut (take (s + 1) offs.old) (take end all.old)) }
    ensures { Result result offs.new all.new (s + 1)
        (cut (take (s + 1) offs.old) (take end all.old)
        ++ (new_list kinds start flags.now numbers.now (s % kinds) (cut (take (s + 1) offs.old) (take end all.old))
        (get_or (cut offsets.now targets.now) s []) ∷ [])) }
{
    let a = index(offsets[s]);
    let b = index(offsets[s + 1]);
    let m = new_list(
        start,
        flags,
        numbers,
        s % KINDS,
        offs,
        s,
        all,
        end,
        targets,
        a,
        b,
    )?;
    offs[s + 1] = m as u64;
    Some(m)
}

// The new lists of all slots, behind none.
fn add_slots(
    start: u64,
    flags: &[u8],
    numbers: &[u64],
    offsets: &[u64],
    targets: &[u64],
    offs: &mut [u64],
    all: &mut [u64],
) -> Option<usize>
    requires offsets_value { offsets_form kinds (length flags.now) (length targets.now) offsets.now ≡ true }
    requires flags_in_bounds { kinds * length flags.now < length offs.old }
    requires built { Built offs.old all.old 0 0 [] }
    ensures { Result result offs.new all.new (kinds * length flags.now)
        (new_lists_from kinds start flags.now numbers.now [] (cut offsets.now targets.now)) }
{
    let slots = KINDS * flags.len();
    let mut end: usize = 0;
    for s in 0..slots {
        end = add_slot(start, flags, numbers, offsets, targets, offs, all, s, end)?;
    }
    Some(end)
}

// The new lists of all slots: where each starts into offs, their entries into all.
pub fn put_lists(
    start: u64,
    flags: &[u8],
    numbers: &[u64],
    offsets: &[u64],
    targets: &[u64],
    offs: &mut [u64],
    all: &mut [u64],
) -> Option<usize>
    requires offsets_value { offsets_form kinds (length flags.now) (length targets.now) offsets.now ≡ true }
    requires flags_in_bounds { (kinds * length flags.now < length offs.old) × (length flags.now ≤ length numbers.now) }
    requires numbers_value { take (length flags.now) numbers.now ≡ numbers_from start flags.now }
    ensures { Result result offs.new all.new (kinds * length flags.now)
        (new_lists kinds start flags.now (cut offsets.now targets.now)) }
{
    offs[0] = 0;
    let n = flags.len();
    add_slots(start, flags, &numbers[..n], offsets, targets, offs, all)
}

// Whether a parent is an erased event.
fn is_erased(start: u64, flags: &[u8], p: u64) -> bool
    ensures { result ≡ is_erased start flags.now p }
{
    if p < start {
        return false;
    }
    let q = index(p - start);
    flag_at(flags, q) != 0
}

// Whether one of targets[a..b] is an erased event.
fn names_erased(start: u64, flags: &[u8], targets: &[u64], a: usize, b: usize) -> bool
    requires { (a ≤ b) × (b ≤ length targets.now) }
    ensures { result ≡ any (is_erased start flags.now) (slice a b targets.now) }
{
    for i in a..b {
        if is_erased(start, flags, targets[i]) {
            return true;
        }
    }
    false
}

// Whether the i-th event survives and names an erased parent. Its lists of all kinds stand one after the other.
fn is_reparented(start: u64, flags: &[u8], offsets: &[u64], targets: &[u64], i: usize) -> bool
    requires offsets_value { offsets_form kinds (length flags.now) (length targets.now) offsets.now ≡ true }
    requires i_in_bounds { (i < length flags.now) × (length offsets.now ≡ kinds * length flags.now + 1) }
    ensures { result ≡ is_reparented kinds start flags.now (cut offsets.now targets.now) i }
{
    if flags[i] != 0 {
        return false;
    }
    let s = KINDS * i;
    let a = index(offsets[s]);
    let b = index(offsets[s + KINDS]);
    names_erased(start, flags, targets, a, b)
}

// How many survivors name an erased parent.
pub fn count_reparented(start: u64, flags: &[u8], offsets: &[u64], targets: &[u64]) -> usize
    requires { offsets_form kinds (length flags.now) (length targets.now) offsets.now ≡ true }
    ensures { result ≡ reparented kinds start flags.now (cut offsets.now targets.now) }
{
    let mut n: usize = 0;
    for i in 0..flags.len() {
        if is_reparented(start, flags, offsets, targets, i) {
            n += 1;
        }
    }
    n
}
