//! What CAPL programs mean, and which rules they break: definitions.
//!
//! A program is the trees of its files, with the messages of a database. `Variable` and `Names` in
//! specs/ say what it declares and what a name means at a place, `Sort` of which sort an expression
//! is. The rules E09 to E28 are conditions on parts of the tree, in `ExpressionRules`,
//! `DeclarationRules`, `StatementRules` and `ProcedureRules`; `Offences` has all that a program breaks,
//! and which of them is the first.
//!
//! `Store` says what the variables hold, how that stands in cells, and how many these are; `Initial`
//! what they hold at first. `Expression` and `Statement` have the meaning of each form, said with the
//! words of worlds over a store; `Statement` has that of functions and event procedures, too.
//!
//! The types are for these definitions and for the code that is held to them.
#![tactic(auto)]

pub use builtin::{Builtin, builtin_named, is_builtin};
pub use field::MessageField;
pub use offence::Offence;
pub use sort::Sort;

mod builtin;
mod field;
pub mod laws;
mod offence;
mod sort;
