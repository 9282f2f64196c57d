//! What the names of a program are where they stand, and of which sort each form of expression is.
//!
//! [`Scope`] is a part of a program: its procedure, its file, what `this` is there, and what the procedure
//! gives. It says what a name or a call there is. [`form_of`] says what a variable is.
#![tactic(auto)]

pub use constants::Constants;
pub use form::{Form, MessageType, form_of};
pub use format::{NextCode, next_code, read_codes, shows, shows_all, sort_of_builtin};
pub use message::{Held, Member, Places, field_named, member_named, places_of_meaning, text_in};
pub use scope::{Callee, Meaning, Scope, ThisForm};
pub use signals::DeclaredSignals;
pub use sort::{
    given_kind, is_bad, is_number, kind_in, kind_of_field, kind_of_signal, number_from, sort_given,
    sort_of_assignment, sort_of_binary, sort_of_choice, sort_of_element, sort_of_form,
    sort_of_member, sort_of_number, sort_of_prefix, sort_of_step, sort_of_this, working_kind,
};
pub use words::direction;

mod constant;
mod constants;
mod evaluation;
mod form;
mod format;
mod message;
mod scope;
mod signals;
mod sort;
mod values;
mod words;
