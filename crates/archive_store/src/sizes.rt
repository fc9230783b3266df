// How many bytes a file's first six records have, by its counts: known before a byte is written.
ghost use Rattle.std.specs.Prelude.{◌≡◌, ◌≤◌};
ghost use Rattle.columns.specs.Limits.{max_records, max_numbers, max_subject};
ghost use Rattle.archive_store.specs.sizes.FileSize.{cover_record_size, file_size, max_cover_size, max_file_size};

use crate::records::{cover_body, sets_size};

// The record of a cover, where there is one.
fn cover_size(covered: bool, rows: usize, ranges: usize, links: usize) -> usize
    requires { (rows ≤ max_records) × (ranges ≤ max_records) × (links ≤ max_records) }
    ensures { (result ≡ cover_record_size covered rows ranges links) × (result ≤ max_cover_size) }
{
    if covered {
        return 6 + cover_body(rows, rows, ranges, links, links, links, links);
    }
    0
}

// The records of a file.
pub fn file_size(
    subject: usize,
    rows: usize,
    forward: usize,
    reverse: usize,
    inbound: usize,
    unresolved: usize,
    roots: usize,
    covered: bool,
    ranges: usize,
    links: usize,
) -> usize
    requires subject_le_max_subject { (subject ≤ max_subject) × (rows ≤ max_records) × (forward ≤ max_numbers) × (reverse ≤ max_numbers) × (inbound ≤ max_numbers) }
    requires unresolved_le_max_records { (unresolved ≤ max_records) × (roots ≤ max_records) × (ranges ≤ max_records) × (links ≤ max_records) }
    ensures { (result ≡ file_size subject rows forward reverse inbound unresolved roots covered ranges links) × (result ≤ max_file_size) }
{
    let k = 2 * rows + 1;
    let edges = 6 + sets_size(k, forward, k, reverse, k, inbound);
    let tables = 6 + rows * 9 + 10 + unresolved * 13 + 10 + roots * 16;
    37 + subject + edges + tables + cover_size(covered, rows, ranges, links)
}
