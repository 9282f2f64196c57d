//! What the names of a program mean, and the first of offences.
//!
//! [`Names`] says what each name of a program means at a token: the parameter or local of its procedure
//! that is declared before the token, else the global. It lends the declarations of the program, so
//! that what walks over the program finds there what a variable is. [`program_parts`],
//! [`declared_variables`] and [`declared_functions`] list what a program declares.
//!
//! [`note`] keeps the first of the offences that are noted one after another, in any order, so that a
//! walk over a program looks at all of it and needs to know nothing of where tokens stand.
#![tactic(auto)]

pub use first::note;
pub use function::{DeclaredFunction, declared_functions};
pub use head::note_type;
pub use names::{Named, Names};
pub use part::{ProgramPart, program_parts};
pub use selector::push_ranges;
pub use variable::{Declared, Place, Source, declared_variables};

mod covered;
mod declaration;
mod first;
mod function;
mod global;
mod hasher;
mod head;
mod inner;
mod key;
pub mod laws;
mod names;
mod part;
mod purposes;
mod ranges;
mod repeats;
mod rule;
mod scope;
mod seed;
mod selector;
mod table;
mod variable;
