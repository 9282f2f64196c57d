//! Tests of the calls that ask which functions of a program call which.
//!
//! They stand here, above their crate, so that it is proved without them.
#![tactic(auto)]

#[cfg(test)]
mod calls;
