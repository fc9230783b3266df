// Parent lists out of references, as slot offsets and targets.
ghost use Rattle.std.specs.Prelude.{◌≡◌, [], ◌∷◌, ◌+◌, ◌≤◌, length};
ghost use Rattle.std.proofs.Math.Seq.{slice};
ghost use Rattle.std.proofs.lemmas.List.Edits.{sets};
ghost use Rattle.lists.specs.Lists as Lists;
ghost use Rattle.columns.specs.EdgeSet.{cut};
ghost use Rattle.columns_refs.specs.Lent.{references};
ghost use Rattle.columns_refs.specs.References.{parents_of, parent_lists};
ghost use Rattle.columns_refs.specs.Resolved.{RowsForm, ListsRoom};

use crate::refs::{Lent, Reference, reference_at};
use arrays::index;

// Writes the number that a reference of the kind names, if it names one; answers the place after it.
fn write_parent(x: Reference, kind: u8, out: &mut [u64], at: usize) -> usize
    requires { at + length (parents_of kind (x ∷ [])) ≤ length out.old }
    ensures out_after { out.new ≡ sets out.old at (parents_of kind (x ∷ [])) }
    ensures value { result ≡ at + length (parents_of kind (x ∷ [])) }
{
    if x.kind != kind {
        return at;
    }
    if x.space == 3 {
        out[at] = x.target;
        return at + 1;
    }
    if x.known == 0 {
        return at;
    }
    out[at] = x.number;
    at + 1
}

// The same for each reference from place `from` up to `to`.
fn write_slot(lent: Lent, from: usize, to: usize, kind: u8, out: &mut [u64], at: usize) -> usize
    requires to_in_bounds { to ≤ length (references lent) }
    requires numbers_in_bounds { at + length (parents_of kind (slice from to (references lent))) ≤ length out.old }
    ensures out_after { out.new ≡ sets out.old at
        (parents_of kind (slice from to (references lent.entry))) }
    ensures value { result ≡ at + length (parents_of kind (slice from to (references lent.entry))) }
{
    let mut p = at;
    for i in from..to {
        let x = reference_at(lent, i);
        p = write_parent(x, kind, out, p);
    }
    p
}

fn narrow(k: usize) -> u8
    requires { k ≤ 1 }
    ensures { result ≡ k }
{
    k as u8
}

// Writes the parent lists of all rows, and answers how many targets they have.
pub(crate) fn write_lists(
    rows: usize,
    starts: &[u64],
    lent: Lent,
    offsets: &mut [u64],
    out: &mut [u64],
) -> usize
    requires rows_form { RowsForm rows starts.now (references lent) }
    requires lists_room { ListsRoom rows (parent_lists (cut starts.now (references lent))) offsets.old out.old }
    ensures value { result ≡ length (Lists.joined (parent_lists (cut starts.now
        (references lent.entry)))) }
    ensures offsets_after { offsets.new ≡ sets offsets.old 0
        (Lists.starts 0 (parent_lists (cut starts.now (references lent.entry)))) }
    ensures out_after { out.new ≡ sets out.old 0
        (Lists.joined (parent_lists (cut starts.now (references lent.entry)))) }
{
    let mut p = 0;
    for q in 0..2 * rows {
        offsets[q] = p as u64;
        let row = q / 2;
        let from = index(starts[row]);
        let to = index(starts[row + 1]);
        let kind = narrow(q % 2);
        p = write_slot(lent, from, to, kind, out, p);
    }
    offsets[2 * rows] = p as u64;
    p
}
