//! Each text has a reading or a refusal: laws that stand over the definitions of the readers alone.
#![tactic(auto)]

pub mod laws;
