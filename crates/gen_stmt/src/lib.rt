//! The code of statements and of whole programs: the compiler, from typed trees to verified code.
//!
//! [`make_code`] makes exactly the code of code_listing's definition, with its tables. [`compile`] hands it
//! over verified, or refuses a program that is too large: [`cells_of`] and [`weight_of`] tell;
//! [`compile_weighed`] does so for who has let go of the source.
//! Targets are made of sizes, which are counted before the code is there, each once, so nothing is filled in
//! afterwards. Lists are gone through by loops; only nesting takes calls within calls.
#![tactic(auto, unfolding(crate::proofs::By::tree, crate::proofs::By::row))]

pub use capl_tree::weight_of;
pub use compiler::{CompileRefusal, cells_of, compile, compile_weighed};
pub use program::make_code;

mod cases;
mod compiler;
mod exits;
mod jump;
mod notes;
mod program;
mod statement;
