// Whether a run is in turn for a step. A run is tested part by part, so that it is not copied for its tests.
ghost use Rattle.std.specs.Prelude.{◌≡◌};
ghost use Rattle.run.specs.View.{holdable, writable, taking_by, resolved_by};

use run_state::{Held, Sheet};

// Whether columns are those that a run holds of its sources.
pub(crate) fn is_holdable(h: Held) -> bool
    ensures { result ≡ holdable h }
{
    if !run_state::valid::ok(h) {
        return false;
    }
    run_state::order::is_ordered(h.sheet)
}

// Whether columns are those of survivors.
pub(crate) fn is_writable(s: Sheet) -> bool
    ensures { result ≡ writable s }
{
    if !run_state::valid::sheet_ok(s) {
        return false;
    }
    if s.groups.count < 1 {
        return false;
    }
    if !run_state::order::is_ordered(s) {
        return false;
    }
    if !run_state::order::is_filled(s) {
        return false;
    }
    run_state::valid::is_once(s)
}

// Whether a run of that phase takes sources.
pub(crate) fn is_taking(phase: u64, holds: bool) -> bool
    ensures { result ≡ taking_by phase holds }
{
    if phase != 0 {
        return false;
    }
    holds
}

// Whether a run of that phase is resolved.
pub(crate) fn is_resolved(phase: u64, holds: bool, writes: bool) -> bool
    ensures { result ≡ resolved_by phase holds writes }
{
    if phase != 1 {
        return false;
    }
    if !holds {
        return false;
    }
    writes
}
