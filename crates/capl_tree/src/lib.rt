//! The trees of CAPL sources.
//!
//! A [`Program`] holds the tree of each of its files. Each `at` is the number of a token in its file: of
//! the first one of its part, where the part says no other. The lists and boxes of a tree are seen as
//! lists and values, so that two trees of equal parts are one value, wherever they lie in memory.
//! [`weight_of`] bounds the number of instructions of a program's code.
#![tactic(auto)]

pub use declaration::{Decl, DeclType, Declr, Init, Item};
pub use expr::{Expr, Field};
pub use file::{FileTree, Program, TopItem};
pub use procedure::{Head, Param, Proc, Sel, SelWhat};
pub use statement::{Arm, Group, Label, Stmt};
pub use weight::weight_of;

mod declaration;
mod expr;
mod file;
mod procedure;
mod statement;
mod weight;
