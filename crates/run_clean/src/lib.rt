// A whole cleaning in one call: an archive taken alone by a fresh run, resolved and written. The columns of what is taken are filled and renewed in
// place in one function, without the sets that no step reads, and no run is made.
#![tactic(auto)]

mod parts;

ghost use Rattle.std.specs.Prelude.{◌≡◌};
ghost use Rattle.cleaning.specs.Step.{wrote};
ghost use Rattle.run_write.specs.Answers.{Gives};
ghost use Rattle.run_clean.specs.Cleans.{cleaned_from};
ghost use Rattle.run_clean.specs.Survived.{Alone, Gathered, Survived};

use columns::refusal::Refusal;
use parts::{fill_links, fill_lists, fill_roots, fill_rows, fill_unresolved};
use run_resolve::sheet::kept::keep_rows;
use run_state::empty::fresh;
use run_state::order::is_filled;
use run_state::order::long::{held_long, sheet_long};
use run_state::{Edges, Ends, Held, Links, Roots, Rows, Sheet, Unresolved};
use run_store::names::{grow_names, names_of};
use run_take::{known_of, rules_by};
use run_write::write_sheet;

// The survivors of an archive that is accepted: 24 where it has no file, 43 where all new lists are over the limit, 27 where a group has no
// survivor. `h` holds nothing and is what the contract speaks of: no column of it is read.
fn gathered(h: Held, bytes: &[u8]) -> Result<Sheet, Refusal>
    requires { Alone h bytes.now }
    ensures { Gathered h bytes.now result }
{
    let names = grow_names(h, names_of(h), bytes);
    let subject = names.subject;
    let groups = names.groups;
    if groups.count == 0 {
        return Err(Refusal::GroupOrder);
    }
    let mut of = [0u8; 1024];
    let mut tags = [0u64; 1024];
    let mut chains = [0u32; 1024];
    let mut seqs = [0u32; 1024];
    let mut flags = [0u8; 1024];
    let n = fill_rows(
        h,
        bytes,
        &mut of,
        &mut tags,
        &mut chains,
        &mut seqs,
        &mut flags,
    );
    let mut offsets = [0u64; 2049];
    let mut targets = [0u64; 4096];
    let mut offs = [0u64; 2049];
    let mut all = [0u64; 4096];
    let mut deltas = [0i64; 4096];
    let g = fill_lists(
        h,
        bytes,
        names.start,
        n,
        &flags,
        &mut offsets,
        &mut targets,
        &mut offs,
        &mut all,
        &mut deltas,
    );
    let Some(m) = g else {
        return Err(Refusal::OverNumbers);
    };
    let mut children = [0u64; 1024];
    let mut kinds = [0u8; 1024];
    let mut parents = [0u32; 1024];
    let u = fill_unresolved(
        h,
        bytes,
        names.start,
        &flags[..n],
        &mut children,
        &mut kinds,
        &mut parents,
    );
    let mut rooted = [0u64; 1024];
    let mut handles = [0u64; 1024];
    let r = fill_roots(
        h,
        bytes,
        names.start,
        &flags[..n],
        &mut rooted,
        &mut handles,
    );
    let mut linked = [0u8; 1024];
    let mut x = [0u32; 1024];
    let mut y = [0u32; 1024];
    let mut z = [0u32; 1024];
    let mut w = [0u32; 1024];
    let l = fill_links(
        h,
        bytes,
        groups.count,
        &mut linked,
        &mut x,
        &mut y,
        &mut z,
        &mut w,
    );
    let k = keep_rows(&mut of, &mut tags, &mut chains, &mut seqs, &flags[..n]);
    let s = Sheet {
        start: names.start,
        subject,
        groups,
        rows: Rows {
            count: k,
            groups: of,
            tags,
            chains,
            seqs,
        },
        edges: Edges {
            count: m,
            offsets,
            targets,
        },
        unresolved: Unresolved {
            count: u,
            children,
            kinds,
            handles: parents,
        },
        roots: Roots {
            count: r,
            rows: rooted,
            handles,
        },
        links: Links {
            count: l,
            groups: linked,
            from: Ends { chains: x, seqs: y },
            to: Ends { chains: z, seqs: w },
        },
    };
    sheet_long(s);
    if !is_filled(s) {
        return Err(Refusal::NoSurvivor);
    }
    Ok(s)
}

// The survivors of an archive that a fresh run takes, or why there are none.
// Not inlined, so that its columns and those of the steps beside it do not stand on the stack at once.
#[inline(never)]
fn survivors(bytes: &[u8]) -> Result<Sheet, Refusal>
    ensures { Survived bytes.now result }
{
    let h = fresh();
    held_long(h);
    let k = known_of(h);
    rules_by(h, k, bytes)?;
    gathered(h, bytes)
}

// Cleans an archive into lent bytes: how long the cleaned archive is, or why there is none.
pub fn clean(bytes: &[u8], out: &mut [u8]) -> Result<usize, Refusal>
    ensures { Gives wrote (cleaned_from bytes.now) out.old out.new result }
{
    let s = survivors(bytes)?;
    write_sheet(s, out)
}
