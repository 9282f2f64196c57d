//! Of which sort expressions are, and which rules they break.
//!
//! [`judge`] walks over an expression once: it answers of which sort the expression is, and notes what
//! the expression and its parts break, in any order, as check_names' `note` does.
#![tactic(auto)]

pub use broken::{note_broken, source_rule};
pub use operand::note_integer_needed;
pub use walk::{judge, judge_field, judge_integer};

mod argument;
mod broken;
mod call;
mod form;
mod judged;
mod member;
mod operand;
mod sort;
mod walk;
mod write;
