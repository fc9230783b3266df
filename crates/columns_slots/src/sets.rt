// The columns of a set of edges: what is refused of them (17, 18, 19), and the targets that the deltas name.
ghost use Rattle.std.specs.Prelude.{◌≡◌, true, ◌&&◌, [], ◌∷◌, ◌++◌, map, ◌+◌, ◌-◌, ◌*◌, ◌<◌, ◌≤◌, ltb, length, get_or, drop, set};
ghost use Rattle.std.proofs.Math.Seq.{slice};
ghost use Rattle.std.proofs.lemmas.List.Edits.{sets};
ghost use Rattle.lists.specs.Lists.{all, any, joined, part};
ghost use Rattle.lists.specs.Order.{climbs_to};
ghost use Rattle.columns.specs.Limits.{end64, max_numbers, Served};
ghost use Rattle.columns.specs.EdgeSet.{cut, event_of, from_to, offsets_form, target_of, sound};
ghost use Rattle.columns.specs.Reading.{sound_from, targets_from, slots_of, set_rules, label_rules};
ghost use Rattle.columns.specs.Answers.{set_number, named, short32, columns_of, label_columns, room, limits_of, lent_rules, both_rules, ruling};
ghost use Rattle.columns.specs.Readable.{Readable, Edged};
ghost use Rattle.columns_slots.specs.Lent.{edges};

use super::delta;
use arrays::index;
use columns::refusal::Refusal;
use columns::set::Set;

// The columns of a set of edges, as they are lent: how many edges there are, where each slot's deltas start, and the deltas.
#[derive(Clone, Copy)]
pub struct Columns<'a> {
    pub count: u64,
    pub offsets: &'a [u64],
    pub deltas: &'a [i64],
}

// ── offsets: 17 ──

// Whether the offsets after the first rise or stay level from 0, and end at `high`.
fn climbs(high: u64, offsets: &[u64]) -> bool
    ensures { result ≡ climbs_to high 0 (drop 1 offsets.now) }
{
    let mut low = 0;
    for i in 1..offsets.len() {
        let next = offsets[i];
        if next < low {
            return false;
        }
        low = next;
    }
    low == high
}

// Whether there is an offset for each slot and one more, from 0 to the number of edges.
pub fn is_form(width: usize, rows: usize, count: u64, offsets: &[u64]) -> bool
    requires { Served width }
    ensures { result ≡ offsets_form width rows count offsets.now }
{
    if offsets.len() == 0 {
        return false;
    }
    let slots = offsets.len() - 1;
    if slots % width != 0 {
        return false;
    }
    if slots / width != rows {
        return false;
    }
    if offsets[0] != 0 {
        return false;
    }
    climbs(count, offsets)
}

// ── the side of every target: 19 ──

// Whether a row has a number of 64 bits.
fn has_event(first: u64, row: usize) -> bool
    ensures { result ≡ ltb (first + row) end64 }
{
    first <= u64::MAX - (row as u64)
}

// That number.
fn event(first: u64, row: usize) -> u64
    requires { first + row < end64 }
    ensures { result ≡ first + row }
{
    first + (row as u64)
}

// Whether each of an event's deltas from one place up to another is sound. The set is given by its number, which costs less to hand on than the enum.
fn all_sound(set: u64, end: u64, event: u64, deltas: &[i64], from: usize, to: usize) -> bool
    requires { (from ≤ to) × (to ≤ length deltas.now) }
    ensures { result ≡ all (sound set end event) (slice from to deltas.now) }
{
    deltas[from..to]
        .iter()
        .all(|&delta| delta::is_sound(set, end, event, delta))
}

// Whether a row has a number and the deltas of its slots are sound.
fn is_row_sound(
    width: usize,
    set: u64,
    first: u64,
    end: u64,
    s: Columns,
    slot: usize,
    row: usize,
) -> bool
    requires served { Served width }
    requires width_in_bounds { (slot + width < length s.offsets.now) × (from_to 0 (length s.deltas.now) s.offsets.now ≡ true) }
    ensures { result ≡ (ltb (first + row) end64 && all (sound set end (first + row)) (joined (part slot width (cut s.entry.offsets.now s.entry.deltas.now)))) }
{
    if !has_event(first, row) {
        return false;
    }
    let from = index(s.offsets[slot]);
    let to = index(s.offsets[slot + width]);
    all_sound(set, end, event(first, row), s.deltas, from, to)
}

// The same of every row.
fn are_sound(width: usize, set: u64, first: u64, rows: usize, end: u64, s: Columns) -> bool
    requires served { Served width }
    requires offsets_len { (length s.offsets.now ≡ width * rows + 1) × (from_to 0 (length s.deltas.now) s.offsets.now ≡ true) }
    ensures { result ≡ sound_from width set first end 0 (cut s.entry.offsets.now s.entry.deltas.now) }
{
    let mut slot = 0;
    for row in 0..rows {
        if !is_row_sound(width, set, first, end, s, slot, row) {
            return false;
        }
        slot += width;
    }
    true
}

// A set's number among the three.
fn number_of(set: Set) -> u64
    ensures { result ≡ set_number set }
{
    match set {
        Set::Forward => 0,
        Set::Reverse => 1,
        Set::Inbound => 2,
    }
}

// ── the rules of one set ──

impl<'a> Columns<'a> {
    // 17, 18, 19. A set without edges has no deltas to look at.
    pub fn rules(
        self,
        width: usize,
        set: Set,
        first: u64,
        rows: usize,
        end: u64,
    ) -> Result<(), Refusal>
        requires { Served width }
        ensures { result ≡ ruling (set_rules width (set_number set) first rows end (edges self.entry)) }
    {
        if !is_form(width, rows, self.count, self.offsets) {
            return Err(Refusal::OffsetsForm);
        }
        if self.count == 0 {
            return Ok(());
        }
        if self.deltas.len() as u64 != self.count {
            return Err(Refusal::DeltaCount);
        }
        if !are_sound(width, number_of(set), first, rows, end, self) {
            return Err(Refusal::TargetSide);
        }
        Ok(())
    }
}

// The rules of a set whose columns are given one by one.
pub fn set_rules(
    width: usize,
    set: Set,
    first: u64,
    rows: usize,
    end: u64,
    count: u64,
    offsets: &[u64],
    deltas: &[i64],
) -> Result<(), Refusal>
    requires { Served width }
    ensures { result ≡ ruling (set_rules width (set_number set) first rows end (columns_of count offsets.now deltas.now)) }
{
    let s = Columns {
        count,
        offsets,
        deltas,
    };
    s.rules(width, set, first, rows, end)
}

// ── limits: 42, 43, 41 ──

// Whether one of two columns is too long.
pub fn is_over(a: usize, b: usize) -> bool
    ensures { result ≡ any (ltb max_numbers) (a ∷ b ∷ []) }
{
    4096 < a || 4096 < b
}

// Whether one of four columns is too long.
pub fn is_any_over(a: usize, b: usize, c: usize, d: usize) -> bool
    ensures { result ≡ any (ltb max_numbers) (a ∷ b ∷ c ∷ d ∷ []) }
{
    is_over(a, b) || is_over(c, d)
}

// The limits, by whether a column is too long and whether a lent slice is too short.
pub fn limit_rules(rows: usize, over: bool, short: bool) -> Result<(), Refusal>
    ensures { result ≡ ruling (limits_of rows over short) }
{
    if 1024 < rows {
        return Err(Refusal::OverRecords);
    }
    if over {
        return Err(Refusal::OverNumbers);
    }
    if short {
        return Err(Refusal::SliceShort);
    }
    Ok(())
}

// The limits and the rules of one set that is lent by itself, with a slice of length `out` for its answer.
pub fn csr_rules(
    width: usize,
    set: Set,
    first: u64,
    rows: usize,
    end: u64,
    s: Columns,
    out: usize,
) -> Result<(), Refusal>
    requires { Served width }
    ensures { result ≡ ruling (lent_rules width (set_number set) first rows end (edges s.entry) (room out)) }
{
    let over = is_over(s.offsets.len(), s.deltas.len());
    limit_rules(rows, over, out < 4096)?;
    s.rules(width, set, first, rows, end)
}

// The rules of a reverse set, then those of an inbound set.
pub fn both_rules(
    width: usize,
    first: u64,
    rows: usize,
    end: u64,
    reverse: Columns,
    inbound: Columns,
) -> Result<(), Refusal>
    requires { Served width }
    ensures { result ≡ ruling (both_rules width first rows end (edges reverse.entry) (edges inbound.entry)) }
{
    reverse.rules(width, Set::Reverse, first, rows, end)?;
    inbound.rules(width, Set::Inbound, first, rows, end)
}

// ── label columns: 20, 21 ──

// Whether every number of a column is one of 32 bits.
fn all_short(column: &[u64]) -> bool
    ensures { result ≡ all short32 column.now }
{
    column.iter().all(|&x| x <= 4294967295)
}

// A label for each row, in numbers of 32 bits.
pub fn label_rules(rows: usize, chains: &[u64], seqs: &[u64]) -> Result<(), Refusal>
    ensures { result ≡ ruling (label_rules rows (label_columns chains.now seqs.now)) }
{
    if chains.len() != rows {
        return Err(Refusal::LabelColumns);
    }
    if seqs.len() != rows {
        return Err(Refusal::LabelColumns);
    }
    if !all_short(chains) {
        return Err(Refusal::LabelRange);
    }
    if !all_short(seqs) {
        return Err(Refusal::LabelRange);
    }
    Ok(())
}

// ── writing targets ──

// Puts a number at a place of a slice that reaches so far.
fn put(out: &mut [u64], at: usize, x: u64)
    ensures { out.new ≡ set out.old at x }
{
    if at < out.len() {
        out[at] = x;
    }
}

// Writes the targets of an event's deltas from one place up to another, from `at` on, and answers where they end.
fn write_targets(
    event: u64,
    deltas: &[i64],
    from: usize,
    to: usize,
    out: &mut [u64],
    at: usize,
) -> usize
    requires from_le_to { (from ≤ to) × ((to ≤ length deltas.now) × ((length deltas.now ≤ max_numbers) × (at ≤ max_numbers))) }
    requires deltas_value { all (named event) (slice from to deltas.now) ≡ true }
    ensures value { result ≡ at + (to - from) }
    ensures out_after { out.new ≡ sets out.old at (map (target_of event) (slice from to deltas.now)) }
{
    let mut past = at;
    for i in from..to {
        put(out, past, delta::target(event, deltas[i]));
        past += 1;
    }
    past
}

// The same in a slice that has the room, which is not asked again at each target.
fn write_within(
    event: u64,
    deltas: &[i64],
    from: usize,
    to: usize,
    out: &mut [u64],
    at: usize,
) -> usize
    requires from_le_to { (from ≤ to) × ((to ≤ length deltas.now) × ((length deltas.now ≤ max_numbers) × (at ≤ max_numbers))) }
    requires deltas_value { all (named event) (slice from to deltas.now) ≡ true }
    requires from_in_bounds { at + (to - from) ≤ length out.old }
    ensures value { result ≡ at + (to - from) }
    ensures out_after { out.new ≡ sets out.old at (map (target_of event) (slice from to deltas.now)) }
{
    let mut past = at;
    for i in from..to {
        out[past] = delta::target(event, deltas[i]);
        past += 1;
    }
    past
}

// Writes the targets of a slot, which is of an event.
pub fn write_slot(
    width: usize,
    first: u64,
    s: Columns,
    slot: usize,
    event: u64,
    out: &mut [u64],
    at: usize,
) -> usize
    requires slot_in_bounds { (slot + 1 < length s.offsets.now) × ((event ≡ event_of width first slot) × (at ≤ max_numbers)) }
    requires edged { Edged width first s.offsets.now s.deltas.now }
    ensures value { result ≡ at + length (get_or (targets_from width first 0 (cut s.entry.offsets.now s.entry.deltas.now)) slot []) }
    ensures out_after { out.new ≡ sets out.old at (get_or (targets_from width first 0 (cut s.entry.offsets.now s.entry.deltas.now)) slot []) }
{
    let from = index(s.offsets[slot]);
    let to = index(s.offsets[slot + 1]);
    write_targets(event, s.deltas, from, to, out, at)
}

// Writes the targets of a row's slots.
fn write_row(
    width: usize,
    first: u64,
    s: Columns,
    slot: usize,
    row: usize,
    out: &mut [u64],
    at: usize,
) -> usize
    requires served { Served width }
    requires slot_value { (slot ≡ width * row) × ((slot + width < length s.offsets.now) × (at ≤ max_numbers)) }
    requires edged { Edged width first s.offsets.now s.deltas.now }
    ensures value { result ≡ at + length (joined (part slot width (targets_from width first 0 (cut s.entry.offsets.now s.entry.deltas.now)))) }
    ensures out_after { out.new ≡ sets out.old at (joined (part slot width (targets_from width first 0 (cut s.entry.offsets.now s.entry.deltas.now)))) }
{
    let from = index(s.offsets[slot]);
    let to = index(s.offsets[slot + width]);
    if at + (to - from) <= out.len() {
        return write_within(event(first, row), s.deltas, from, to, out, at);
    }
    write_targets(event(first, row), s.deltas, from, to, out, at)
}

// Writes the targets of all slots, row by row.
fn write_set(width: usize, first: u64, s: Columns, out: &mut [u64]) -> usize
    requires served { Served width }
    requires edged { Edged width first s.offsets.now s.deltas.now }
    ensures value { result ≡ length (joined (targets_from width first 0 (cut s.entry.offsets.now s.entry.deltas.now))) }
    ensures out_after { out.new ≡ sets out.old 0 (joined (targets_from width first 0 (cut s.entry.offsets.now s.entry.deltas.now))) }
{
    let mut at = 0;
    let mut slot = 0;
    let mut row = 0;
    // No `for`: the slot moves by a row's width.
    while slot + width < s.offsets.len() {
        at = write_row(width, first, s, slot, row, out, at);
        slot += width;
        row += 1;
    }
    at
}

impl<'a> Columns<'a> {
    // Writes the targets of a set whose rules are kept, and answers how many there are.
    pub fn write(self, width: usize, first: u64, out: &mut [u64]) -> usize
        requires served { Served width }
        requires readable { Readable width first (edges self) }
        ensures value { result ≡ length (joined (slots_of width first (edges self.entry))) }
        ensures out_after { out.new ≡ sets out.old 0 (joined (slots_of width first (edges self.entry))) }
    {
        if self.count == 0 {
            return 0;
        }
        write_set(width, first, self, out)
    }
}

// The same of a set whose columns are given one by one.
pub fn write_csr(
    width: usize,
    first: u64,
    count: u64,
    offsets: &[u64],
    deltas: &[i64],
    out: &mut [u64],
) -> usize
    requires served { Served width }
    requires readable { Readable width first (columns_of count offsets.now deltas.now) }
    ensures value { result ≡ length (joined (slots_of width first (columns_of count offsets.now deltas.now))) }
    ensures out_after { out.new ≡ sets out.old 0 (joined (slots_of width first (columns_of count offsets.now deltas.now))) }
{
    let s = Columns {
        count,
        offsets,
        deltas,
    };
    s.write(width, first, out)
}
