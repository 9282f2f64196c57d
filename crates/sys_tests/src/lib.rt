//! Tests of system variables: their lowering, their prelude and their table.
//!
//! They stand here, above what reads sources, so that sys_vars is proved without them.
#![tactic(auto)]

#[cfg(test)]
mod lowering;
#[cfg(test)]
mod prelude;
#[cfg(test)]
mod table;
#[cfg(test)]
mod variables;
