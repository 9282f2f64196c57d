// Messages in expressions: fields, payload bytes and signals, and which of them can be assigned to.

ghost use Rattle.std.specs.Prelude.{◌≡◌, List, MatchOption, None, Option, Some, ℕ, false, slice_get};
ghost use Rattle.std.specs.Option.{option_and_then, option_copied, option_map, option_map_or};
ghost use Rattle.std.specs.Bool.{then_some};
ghost use Rattle.capl_meaning.specs.Expression.{timer_in};
ghost use Rattle.capl_meaning.specs.Format.{quoted_text};
ghost use Rattle.capl_tree.specs.declared.expr.Expr.TheVariants.{Name};
ghost use Rattle.capl_meaning.specs.Message.{array_by, array_in, can_be_used, field_named, held_by, held_this, is_assignable_field, is_message_place, is_number_place, is_open_array, is_open_field, is_open_member, is_open_number, is_open_part, is_usable, is_variable, member_named, member_of_signal, member_of_signals, message_in, signal_named, signals_of_type};
ghost use Rattle.capl_meaning.specs.Message as meant;
ghost use Rattle.capl_meaning.specs.Names.{Names, means, signals_by};
ghost use Rattle.capl_meaning.specs.Names as named;
ghost use Rattle.capl_meaning.specs.Variable.{Variable, is_timer};
ghost use Rattle.check_sorts.specs.Form.{form_in, signals_in, type_in};
ghost use Rattle.check_sorts.specs.Message.{ArePlaces, held_in, member_in};
ghost use Rattle.check_sorts.specs.Scope.{IsMeaning, scope_in, this_in};

use crate::form::{Form, MessageType, form_of};
use crate::scope::{Meaning, Scope, ThisForm};
use crate::signals::DeclaredSignals;
use capl_meaning::MessageField;
use capl_tree::{Expr, Field};
use dbc_reader::{DbcMessage, DbcSignal};
use signal_codec::{Layout, usable};

/// A message that an expression names.
#[derive(Clone, Copy)]
pub enum Held<'p> {
    /// The frame of a message procedure.
    Frame(DeclaredSignals<'p>),
    /// A message variable.
    Variable {
        /// Its number among the variables of the program.
        number: u32,
        /// The signals of its message.
        signals: DeclaredSignals<'p>,
    },
}

/// What a name behind the point of a message is.
#[derive(Clone, Copy, Debug, PartialEq, Eq)]
pub enum Member {
    /// A field.
    Field(MessageField),
    /// A signal that can be used.
    Signal(Layout),
    /// A signal that cannot be used.
    Unusable,
    /// None of these.
    Unknown {
        /// Whether the message is declared by name.
        by_name: bool,
    },
}

/// What an expression can be assigned.
#[derive(Clone, Copy)]
pub struct Places {
    /// Whether it is an assignable place of a number.
    pub number: bool,
    /// Whether it is a message variable.
    pub message: bool,
}

/// The bytes of a text between quotes, under any parentheses; None of other expressions.
#[tactic(auto, using(crate::proofs::MessageLemmas::paren_text))]
pub fn text_in(e: &Expr) -> Option<&[u8]>
    ensures { option_copied result ≡ quoted_text e.now }
{
    match e {
        Expr::Paren { inner, .. } => text_in(inner.get()),
        Expr::Str { text, .. } => Some(text.bytes()),
        _ => None,
    }
}

/// The message that `this` is, if it is one.
fn held_this<'p>(this: ThisForm<'p>) -> Option<Held<'p>>
    ensures { (names : Names) →
        option_map (held_in names) result ≡ option_map Some (held_this (this_in this.entry)) }
{
    match this {
        ThisForm::Frame(signals) => Some(Held::Frame(signals)),
        ThisForm::NoThis | ThisForm::Key => None,
    }
}

/// The message of a variable, if it is one.
fn held_variable<'p>(meaning: Meaning<'p>) -> Option<Held<'p>>
    ensures { (names : Names) (v : Variable) → slice_get names.variables meaning.entry.number ≡ Some v →
        option_map (held_in names) result ≡ option_map Some (held_by v (form_in meaning.entry.form)) }
{
    match meaning.form {
        Form::Message(what) => Some(Held::Variable {
            number: meaning.number,
            signals: signals_of_type(what),
        }),
        Form::Number { .. } | Form::Array { .. } | Form::Timer(_) | Form::Misfit => None,
    }
}

/// The field of this name, or None where there is none.
pub fn field_named(name: &[u8]) -> Option<MessageField>
    ensures { result ≡ field_named name.now }
{
    match name {
        b"id" | b"ID" => Some(MessageField::Id),
        b"dlc" | b"DLC" => Some(MessageField::Dlc),
        b"rtr" | b"RTR" => Some(MessageField::Rtr),
        b"can" | b"CAN" => Some(MessageField::Can),
        b"dir" | b"DIR" => Some(MessageField::Dir),
        b"time" | b"TIME" => Some(MessageField::Time),
        _ => None,
    }
}

/// Whether a signal can be used: it is usable and no float.
fn can_be_used(signal: &DbcSignal) -> bool
    ensures { result ≡ can_be_used signal.now }
{
    usable(&signal.layout) && !signal.float
}

/// The member of a signal.
fn member_of_signal(signal: Option<&DbcSignal>) -> Member
    ensures { member_in result ≡ member_of_signal (option_copied signal.entry) }
{
    match signal {
        None => Member::Unknown { by_name: true },
        Some(signal) if can_be_used(signal) => Member::Signal(signal.layout),
        Some(_) => Member::Unusable,
    }
}

/// The member of a name that is no field, of a message that is declared by name.
fn member_of_message(message: Option<&DbcMessage>, name: &[u8]) -> Member
    ensures { member_in result
        ≡ member_of_signal (signal_named (signals_by (option_copied message.entry)) name.now) }
{
    match message {
        None => Member::Unknown { by_name: true },
        Some(message) => member_of_signal(message.signals.named(name)),
    }
}

/// The member of a name that is no field.
fn member_of_signals(signals: DeclaredSignals, name: &[u8]) -> Member
    ensures { member_in result ≡ member_of_signals (signals_in signals.entry) name.now }
{
    match signals {
        DeclaredSignals::Unnamed => Member::Unknown { by_name: false },
        DeclaredSignals::Named(message) => member_of_message(message, name),
    }
}

/// What a name behind the point of a message is. Takes time linear in the name, and constant in the
/// number of signals but for names of one hash.
pub fn member_named(signals: DeclaredSignals, name: &[u8]) -> Member
    ensures { member_in result ≡ member_named (signals_in signals.entry) name.now }
{
    match field_named(name) {
        Some(field) => Member::Field(field),
        None => member_of_signals(signals, name),
    }
}

/// The signals of a message variable, by its type.
fn signals_of_type(what: MessageType) -> DeclaredSignals
    ensures { signals_in result ≡ signals_of_type (type_in what.entry) }
{
    match what {
        MessageType::ByIdentifier(_) => DeclaredSignals::Unnamed,
        MessageType::ByName(message) => DeclaredSignals::Named(message),
    }
}

/// Whether a variable is a number that is not `const`.
fn is_open_number(form: Form) -> bool
    ensures { result ≡ is_open_number (form_in form.entry) }
{
    match form {
        Form::Number { fixed, .. } => !fixed,
        Form::Array { .. } | Form::Message(_) | Form::Timer(_) | Form::Misfit => false,
    }
}

/// Whether a variable is an array that is not `const`.
fn is_open_array(form: Form) -> bool
    ensures { result ≡ is_open_array (form_in form.entry) }
{
    match form {
        Form::Array { fixed, .. } => !fixed,
        Form::Number { .. } | Form::Message(_) | Form::Timer(_) | Form::Misfit => false,
    }
}

/// Whether a field is assignable: direction and time are not.
pub fn is_assignable_field(field: MessageField) -> bool
    ensures { result ≡ is_assignable_field field }
{
    match field {
        MessageField::Dir | MessageField::Time => false,
        MessageField::Id | MessageField::Dlc | MessageField::Rtr | MessageField::Can => true,
    }
}

/// Whether a member is an assignable field or a signal.
fn is_open_member(member: Member) -> bool
    ensures { result ≡ is_open_member (member_in member) }
{
    match member {
        Member::Field(field) => is_assignable_field(field),
        Member::Signal(_) => true,
        Member::Unusable | Member::Unknown { .. } => false,
    }
}

/// Whether a part of a message variable is assignable.
#[tactic(auto, using(crate::proofs::PlaceLemmas::open_bytes))]
fn is_open_field(signals: DeclaredSignals, field: &Field) -> bool
    ensures { result ≡ is_open_field (signals_in signals.entry) field.now }
{
    match field {
        Field::Named { name, .. } => is_open_member(member_named(signals, name.bytes())),
        Field::Bytes { .. } => true,
    }
}

/// Whether a part of a message is assignable; none of a frame is.
fn is_open_part(held: Option<Held>, field: &Field) -> bool
    ensures { (names : Names) (message : Option meant.Held) →
        option_map (held_in names) held.entry ≡ option_map Some message →
        result ≡ option_map_or (is_open_part field.now) message false }
{
    match held {
        Some(Held::Variable { signals, .. }) => is_open_field(signals, field),
        Some(Held::Frame(_)) | None => false,
    }
}

/// What a variable can be assigned: a number that is not `const` a number, and a message a message.
fn places_of_form(form: Form) -> Places
    ensures number { result.number ≡ is_open_number (form_in form.entry) }
    ensures message { (v : Variable) →
        result.message ≡ option_map_or is_variable (held_by v (form_in form.entry)) false }
{
    Places {
        number: is_open_number(form),
        message: matches!(form, Form::Message(_)),
    }
}

/// What a name can be assigned, by what it means where it stands.
#[tactic(auto, using(crate::proofs::PlaceLemmas::none_places, crate::proofs::PlaceLemmas::form_places))]
pub fn places_of_meaning(meaning: Option<Meaning>) -> Places
    ensures { (s : named.Scope) (name : List ℕ) (token : ℕ) →
        MatchOption meaning.entry (means s name token ≡ None) (IsMeaning s.names (means s name token)) →
        ArePlaces s (Name name token) result }
{
    match meaning {
        None => Places {
            number: false,
            message: false,
        },
        Some(meaning) => places_of_form(meaning.form),
    }
}

impl<'a, 'p> Scope<'a, 'p> {
    /// The message that an expression names, or None where it names none.
    #[tactic(auto, using(crate::proofs::MessageLemmas::paren_message))]
    pub fn message_in(&self, e: &Expr) -> Option<Held<'p>>
        ensures { option_map (held_in self.now.names.now) result
            ≡ option_map Some (message_in (scope_in self.now) e.now) }
    {
        match e {
            Expr::Paren { inner, .. } => self.message_in(inner.get()),
            Expr::This { .. } => held_this(self.this),
            Expr::Name { name, at } => self.message_named(name.bytes(), *at),
            _ => None,
        }
    }

    /// The message that a name means, or None where it means none.
    fn message_named(&self, name: &[u8], token: u32) -> Option<Held<'p>>
        ensures { option_map (held_in self.now.names.now) result ≡ option_map Some
            (option_and_then (λ v. held_by v v.form) (means (scope_in self.now) name.now token)) }
    {
        match self.meaning(name, token) {
            None => None,
            Some(meaning) => held_variable(meaning),
        }
    }

    /// The number of the array variable that an expression names, or None where it names none.
    #[tactic(auto, using(crate::proofs::MessageLemmas::paren_array))]
    pub fn array_in(&self, e: &Expr) -> Option<u32>
        ensures { option_map (slice_get self.now.names.now.variables) result
            ≡ option_map Some (array_in (scope_in self.now) e.now) }
    {
        match e {
            Expr::Paren { inner, .. } => self.array_in(inner.get()),
            Expr::Name { name, at } => self.array_named(name.bytes(), *at),
            _ => None,
        }
    }

    /// The number of the array variable that a name means, or None where it means none.
    fn array_named(&self, name: &[u8], token: u32) -> Option<u32>
        ensures { option_map (slice_get self.now.names.now.variables) result ≡ option_map Some
            (option_and_then (λ v. array_by v.form v) (means (scope_in self.now) name.now token)) }
    {
        match self.meaning(name, token) {
            Some(
                Meaning {
                    number,
                    form: Form::Array { .. },
                },
            ) => Some(number),
            _ => None,
        }
    }

    /// The number of the timer variable that an expression names, or None where it names none.
    #[tactic(auto, using(crate::proofs::MessageLemmas::paren_timer))]
    pub fn timer_in(&self, e: &Expr) -> Option<u32>
        ensures { option_map (slice_get self.now.names.now.variables) result
            ≡ option_map Some (timer_in (scope_in self.now) e.now) }
    {
        match e {
            Expr::Paren { inner, .. } => self.timer_in(inner.get()),
            Expr::Name { name, at } => self.timer_named(name.bytes(), *at),
            _ => None,
        }
    }

    /// The number of the timer variable that a name means, or None where it means none.
    fn timer_named(&self, name: &[u8], token: u32) -> Option<u32>
        ensures { option_map (slice_get self.now.names.now.variables) result ≡ option_map Some
            (option_and_then (λ v. then_some (is_timer v.form) v)
            (means (scope_in self.now) name.now token)) }
    {
        match self.meaning(name, token) {
            Some(
                Meaning {
                    number,
                    form: Form::Timer(_),
                },
            ) => Some(number),
            _ => None,
        }
    }

    /// Whether an expression is an assignable place of a number: a number variable that is not `const`,
    /// an element of an array that is not `const`, or an assignable field, payload bytes or a signal of
    /// a message variable.
    #[tactic(auto, using(crate::proofs::PlaceLemmas::paren_place, crate::proofs::PlaceLemmas::index_place))]
    pub fn is_number_place(&self, e: &Expr) -> bool
        ensures { result ≡ is_number_place (scope_in self.now) e.now }
    {
        match e {
            Expr::Paren { inner, .. } => self.is_number_place(inner.get()),
            Expr::Name { name, at } => self.is_open_name(name.bytes(), *at),
            Expr::Index { base, .. } => self.is_open_element(base.get()),
            Expr::Member { base, field, .. } => is_open_part(self.message_in(base.get()), field),
            _ => false,
        }
    }

    /// Whether a name means a number variable that is not `const`.
    fn is_open_name(&self, name: &[u8], token: u32) -> bool
        ensures { result ≡ option_map_or (λ v. is_open_number v.form)
            (means (scope_in self.now) name.now token) false }
    {
        match self.meaning(name, token) {
            None => false,
            Some(meaning) => is_open_number(meaning.form),
        }
    }

    /// Whether an expression names an array that is not `const`.
    fn is_open_element(&self, base: &Expr) -> bool
        ensures { result ≡ option_map_or (λ v. is_open_array v.form)
            (array_in (scope_in self.now) base.now) false }
    {
        match self.array_in(base) {
            None => false,
            Some(number) => is_open_array(form_of(self.names, number)),
        }
    }

    /// What an expression can be assigned. A place of a number is no message variable.
    #[tactic(auto, using(crate::proofs::PlaceLemmas::no_message_place))]
    pub fn places(&self, e: &Expr) -> Places
        ensures { ArePlaces (scope_in self.now) e.now result }
    {
        let number = self.is_number_place(e);
        Places {
            number,
            message: !number && self.is_message_place(e),
        }
    }

    /// Whether an expression is a message variable.
    fn is_message_place(&self, e: &Expr) -> bool
        ensures { result ≡ is_message_place (scope_in self.now) e.now }
    {
        matches!(self.message_in(e), Some(Held::Variable { .. }))
    }
}
