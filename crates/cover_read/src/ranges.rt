// Range columns: whether they are in form, and where a chain's range is.
ghost use Rattle.std.specs.Prelude.{◌≡◌, true, ◌&&◌, ◌≤◌, leb, length, drop};
ghost use Rattle.lists.specs.Lists.{all, any};
ghost use Rattle.lists.specs.Order.{rising, rises_above};
ghost use Rattle.cover.specs.Answers.{ranges_in, range_columns, ranges_fit};
ghost use Rattle.cover.specs.Questions.{meets};

// Whether ids rise from the second on, the second above `first`.
fn rise_from(ids: &[u32], first: u32) -> bool
    requires { 1 ≤ length ids.now }
    ensures { result ≡ rises_above first (drop 1 ids.now) }
{
    let mut low = first;
    for i in 1..ids.len() {
        if ids[i] <= low {
            return false;
        }
        low = ids[i];
    }
    true
}

// Whether ids rise.
fn ids_rise(ids: &[u32]) -> bool
    ensures { result ≡ rising ids.now }
{
    if ids.len() == 0 {
        return true;
    }
    rise_from(ids, ids[0])
}

// Whether no minimum is above its maximum.
fn in_order(ids: &[u32], minima: &[u32], maxima: &[u32]) -> bool
    requires { (length minima.now ≡ length ids.now) × (length maxima.now ≡ length ids.now) }
    ensures { result ≡ all (λ x. leb x.least x.greatest) (ranges_in ids.now minima.now maxima.now) }
{
    for i in 0..ids.len() {
        if maxima[i] < minima[i] {
            return false;
        }
    }
    true
}

// Whether range columns are equal in number and their ranges in form.
pub fn ranges_fit(ids: &[u32], minima: &[u32], maxima: &[u32]) -> bool
    ensures { result ≡ ranges_fit (range_columns ids.now minima.now maxima.now) }
{
    if minima.len() != ids.len() {
        return false;
    }
    if maxima.len() != ids.len() {
        return false;
    }
    if !ids_rise(ids) {
        return false;
    }
    in_order(ids, minima, maxima)
}

// Whether the window meets the chain's range.
pub fn holds(ids: &[u32], minima: &[u32], maxima: &[u32], chain: u32, low: u32, high: u32) -> bool
    requires { ranges_fit (range_columns ids.now minima.now maxima.now) ≡ true }
    ensures { result ≡ any (meets chain low high) (ranges_in ids.now minima.now maxima.now) }
{
    let p = arrays::searching::place_in_narrow(ids, chain as u64);
    if ids.len() <= p {
        return false;
    }
    if ids[p] != chain {
        return false;
    }
    if high < minima[p] {
        return false;
    }
    low <= maxima[p]
}
