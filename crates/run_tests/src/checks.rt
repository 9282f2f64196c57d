// What a run must leave in a record and in a meter.

use run_bench::{Entry, are_noted, has_rows};
use run_records::Noted;
use stack_vm::Meter;
use std::process::Abort;

/// A record noted these entries, in this order, and no other.
pub(crate) fn check_entries(rt: &impl Abort, noted: &[Noted], wanted: &[Entry]) {
    assert!(rt; are_noted(noted, wanted), "{noted:?} for {wanted:?}");
}

/// A meter has these rows of runs and turns, and no other.
pub(crate) fn check_rows(rt: &impl Abort, meter: &Meter, wanted: &[(u64, u64)]) {
    assert!(rt; has_rows(meter, wanted), "{meter:?} for {wanted:?}");
}
