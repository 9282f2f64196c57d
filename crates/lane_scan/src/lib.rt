//! Scans that compare many items at once, lane by lane of a vector of the processor.
//!
//! [`first_in_ranges`] finds the first range that holds a key, and [`all_hex`] tests whether bytes are
//! hexadecimal digits. Whole vectors of items are compared lane by lane, and the items behind the last
//! whole vector one by one, so both are right for lists of every length.
#![tactic(auto)]

pub use hex::all_hex;
pub use ranges::first_in_ranges;

mod hex;
mod ranges;
