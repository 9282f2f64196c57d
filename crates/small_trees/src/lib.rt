//! The trees of texts are small and light, and declare few: laws.
//!
//! What holds: the tokens of a text of bytes are small, which is that their numbers, characters and texts
//! fit; a program is readable (sound_programs) whose trees are spelled by small tokens, fewer than 2^32 in
//! each file; the weight of a program is at most eight times the number of its tokens; and it has as many
//! files as texts, and no more parts and no more variables than tokens. There is no code that runs.
#![tactic(auto)]

pub mod laws;
