// The rule on a cover (22), over the body of its record: ranges where they lie, links in columns of their own.
ghost use Rattle.std.specs.Prelude.{◌≡◌, map, ◌+◌, ◌*◌, ◌≤◌, ◌<◌, length, drop};
ghost use Rattle.std.proofs.Math.Option.{some};
ghost use Rattle.lists.specs.Lists.{all};
ghost use Rattle.lists.specs.Order.{rising};
ghost use Rattle.cover.specs.Cover.{ranges_ok, links_ok};
ghost use Rattle.cover.specs.Answers.{link_columns};
ghost use Rattle.archive_bytes.specs.Bytes.{column};
ghost use Rattle.columns.specs.Answers.{ruling};
ghost use Rattle.archive.specs.Bytes.{several};
ghost use Rattle.archive.specs.Parse.{range_at};
ghost use Rattle.archive_read.specs.bodies.View.{cover_end, cover_in};
ghost use Rattle.cleaning.specs.Taking.{cover_rules};
ghost use Rattle.run_rules.specs.parts.Back.{in_order, links_at, sized};

use archive_bytes::load_u32;
use archive_bytes::number_columns::fill_u32s;
use columns::refusal::Refusal;
use cover_rows::links_fit;

// Whether the chains of n ranges from place q on rise, at least one of them.
fn chains_above(b: &[u8], q: usize, n: usize) -> bool
    requires { (q + n * 12 ≤ length b.now) × (0 < n) }
    ensures { result ≡ rising (map (λ x. x.chain) (several 12 range_at n (drop q b.now))) }
{
    let mut p = q + 12;
    let mut last = load_u32(b, q);
    for i in 1..n {
        let x = load_u32(b, p);
        if x <= last {
            return false;
        }
        last = x;
        p += 12;
    }
    true
}

fn chains_rise(b: &[u8], q: usize, n: usize) -> bool
    requires { q + n * 12 ≤ length b.now }
    ensures { result ≡ rising (map (λ x. x.chain) (several 12 range_at n (drop q b.now))) }
{
    if n == 0 {
        return true;
    }
    chains_above(b, q, n)
}

// Whether no minimum is above its maximum.
fn in_order(b: &[u8], q: usize, n: usize) -> bool
    requires { q + n * 12 ≤ length b.now }
    ensures { result ≡ all in_order (several 12 range_at n (drop q b.now)) }
{
    let mut p = q;
    for i in 0..n {
        let least = load_u32(b, p + 4);
        let greatest = load_u32(b, p + 8);
        if greatest < least {
            return false;
        }
        p += 12;
    }
    true
}

fn ranges_ok(b: &[u8], q: usize, n: usize) -> bool
    requires { q + n * 12 ≤ length b.now }
    ensures { result ≡ ranges_ok (several 12 range_at n (drop q b.now)) }
{
    if !chains_rise(b, q, n) {
        return false;
    }
    in_order(b, q, n)
}

// Whether links are in form whose first two columns are lent, and whose other two stand from place p on.
fn ends_fit(b: &[u8], p: usize, k: usize, chains: &[u32], seqs: &[u32]) -> bool
    requires { (k ≤ 1024) × ((p + k * 4 + k * 4 ≤ length b.now) × (length chains.now ≤ 1024)) }
    ensures { result ≡ links_ok (link_columns chains.now seqs.now (column 4 k b.now p) (column 4 k b.now (p + k * 4))) }
{
    let mut to_chains = [0u32; 1024];
    fill_u32s(b, p, k, &mut to_chains);
    let mut to_seqs = [0u32; 1024];
    fill_u32s(b, p + k * 4, k, &mut to_seqs);
    links_fit(chains, seqs, &to_chains[..k], &to_seqs[..k])
}

// Whether the four columns of k links from place p on are in form.
fn links_ok(b: &[u8], p: usize, k: usize) -> bool
    requires { (k ≤ 1024) × (p + k * 4 + k * 4 + k * 4 + k * 4 ≤ length b.now) }
    ensures { result ≡ links_ok (links_at b.now p k) }
{
    let mut from_chains = [0u32; 1024];
    fill_u32s(b, p, k, &mut from_chains);
    let mut from_seqs = [0u32; 1024];
    fill_u32s(b, p + k * 4, k, &mut from_seqs);
    let q = p + k * 4 + k * 4;
    ends_fit(b, q, k, &from_chains[..k], &from_seqs[..k])
}

// 22 of a cover of m ranges and k links.
pub fn cover_rules(b: &[u8], rows: usize, m: usize, k: usize) -> Result<(), Refusal>
    requires { (rows ≤ 1024) × ((m ≤ 1024) × ((k ≤ 1024) × (cover_end rows m k ≤ length b.now))) }
    ensures { result ≡ ruling (cover_rules (some (cover_in b.now rows (sized m k)))) }
{
    let q = rows * 4 + rows * 4 + 4;
    if !ranges_ok(b, q, m) {
        return Err(Refusal::CoverForm);
    }
    if !links_ok(b, q + m * 12 + 4, k) {
        return Err(Refusal::CoverForm);
    }
    Ok(())
}
