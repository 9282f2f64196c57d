//! What the machine does by the code of a source is what the source means.
//!
//! The crate code_meaning says that the code of a typed program does what its typed tree means, typed_source
//! that the typed program of a source does what the source does, and check_types which sources are accepted.
//! Here these are one: the code of an accepted source has the source's tables, and the machine runs each of
//! its event procedures as the source means it, from each store, and in no other way.
//!
//! `Code` in specs/ says what the code of a source is and which tables it has, `Ends` what it is that the
//! machine runs an event procedure as its source means it. `Source` has nodes that keep their own program, so
//! that nodes of different sources are of one type, and `Stands` which memories of code stand for theirs.
//! There is no code that runs: [`laws`] has what holds.
#![tactic(auto)]

pub mod laws;
