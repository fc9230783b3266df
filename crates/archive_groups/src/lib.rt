// Whether a run and an archive together have too many different group numbers.
#![tactic(auto)]

ghost use Rattle.std.specs.Prelude.{◌≡◌, true, ◌++◌, ◌+◌, ◌≤◌, length, take};
ghost use Rattle.columns.specs.Limits.{kinds};
ghost use Rattle.lists.specs.Lists.{mem, add, up_from};
ghost use Rattle.archive.specs.Parse.{parse};
ghost use Rattle.archive_groups.specs.Groups.{files_of, is_read, groups_over};

use archive_read::records::{FileAt, file_at};

// Whether the number is among the first n.
fn among(list: &[u8], n: usize, g: u8) -> bool
    requires { n ≤ length list.now }
    ensures { result ≡ mem g (take n list.now) }
{
    for i in 0..n {
        if list[i] == g {
            return true;
        }
    }
    false
}

// One number more after those below k and the first n, unless it is there; answers how many there are after those below k.
fn with_group(list: &mut [u8], n: usize, k: usize, g: u8) -> usize
    requires { (k + n ≤ 16) × (length list.old ≡ 17) }
    ensures list_after { up_from 0 k ++ take result list.new ≡ add (up_from 0 k ++ take n list.old) g }
    ensures upper_bound { (result ≤ n + 1) × (length list.new ≡ 17) }
{
    if usize::from(g) < k {
        return n;
    }
    if among(list, n, g) {
        return n;
    }
    list[n] = g;
    n + 1
}

fn group_of(f: FileAt) -> u8
    ensures { result ≡ f.front.head.group }
{
    f.front.head.group
}

// The run holds the groups 0 up to k; the archive's bytes are known not to be broken.
pub fn groups_over(bytes: &[u8], k: usize) -> bool
    requires { is_read (parse kinds bytes.now) ≡ true }
    ensures { result ≡ groups_over k (files_of (parse kinds bytes.now)) }
{
    if 16 < k {
        return true;
    }
    let mut list = [0u8; 17];
    let mut n = 0;
    let mut m: usize = 0;
    // A place and no index, since it moves by a file's size.
    let mut p = 0;
    while p < bytes.len() {
        let Some(f) = file_at(bytes, p) else {
            return false;
        };
        n = with_group(&mut list, n, k, group_of(f));
        if 16 < k + n {
            return true;
        }
        m += 1;
        p = f.tail.end;
    }
    false
}
