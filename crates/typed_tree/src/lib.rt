//! Typed trees of CAPL programs.
//!
//! A typed tree is a program whose names are resolved: variables are cells with numbers, and every
//! conversion is written but for two: what is stored at a place is wrapped to the place's kind, and
//! the duration of a timer is wrapped to long. [`Typed`] is the whole program, with its functions and
//! event procedures ([`TFun`], [`THandler`]), which hold statements ([`TStmt`]) and expressions
//! ([`TExpr`]).
//!
//! Three definitions in specs/ are what the compiler is held to. The meaning of a tree is a function
//! of the cells, the active timers, the turns that are left, the moment, and whether the measurement
//! has ended: `Expression`, `Statement` and `Program` have it, over the memory of `Memory`. `Sound`
//! says all that the compiler asks of a tree. `Size` is the number of instructions that it makes of
//! one.
#![tactic(auto)]

pub use expression::{Place, TExpr};
pub use program::{TFun, THandler, Typed};
pub use statement::{TArm, TGroup, TStmt};

mod expression;
pub mod laws;
mod program;
mod statement;
