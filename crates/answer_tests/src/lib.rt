//! Calls of the laws of meaning_laws, small_trees, sound_programs, whole_readings and sim_answers.
//!
//! They stand here, above those crates, so that each of those is proved without them.
#![tactic(auto)]

#[cfg(test)]
mod laws;
