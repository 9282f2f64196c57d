//! Where the variables of a program lie in cells, and the typed trees of its expressions.
//!
//! [`Layout`] has the first cell of each variable, its number of elements, and the number of a timer;
//! [`cell_kinds`] and [`timer_units`] are the tables of the typed program. [`make_expression`] walks over
//! an expression once and gives its typed tree and its sort, [`make_place`] the place that it is, and
//! [`make_row`] the trees of arguments. An expression that breaks a rule has a tree too.
#![tactic(auto, unfolding(crate::proofs::By::tree, crate::proofs::By::source, crate::proofs::By::row))]

pub use expression::{make_expression, make_place, make_row};
pub use layout::{Laid, Layout};
pub use made::{Made, MadePlace, Row, TreeTables};
pub use place::message_slot;
pub use tables::{cell_kinds, timer_units};

mod call;
mod expression;
mod form;
mod layout;
mod made;
mod place;
mod tables;
mod tree;
mod walk;
