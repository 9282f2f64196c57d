//! Whether typed programs are sound.
//!
//! [`is_sound`] answers for a whole program all that the compiler asks of it. It is for who builds typed
//! trees by other ways than from source: a tool that loads them, or a test that writes them down.
#![tactic(auto, unfolding(crate::proofs::By::stmts, crate::proofs::By::tree, crate::proofs::By::row))]

pub use program::is_sound;

mod around;
mod expression;
mod program;
mod statement;
mod tables;
