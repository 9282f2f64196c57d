// What variables are.

ghost use Rattle.std.specs.Prelude.{◌≡◌, List, None, Some, slice_get};
ghost use Rattle.std.specs.Option.{option_map_or};
ghost use Rattle.dbc_reader.specs.declared.message.DbcMessage.{DbcMessage};
ghost use Rattle.capl_meaning.specs.Variable.{ByName, Message, Misfit, form_of, identifier, message_named};
ghost use Rattle.check_names.specs.Variable.{variable_in};
ghost use Rattle.check_sorts.specs.Form.{form_in};

use capl_tree::{DeclType, Expr};
use check_names::{Declared, Names, Source};
use dbc_reader::DbcMessage;
use int_kinds::Kind;

/// What a variable is.
#[derive(Clone, Copy)]
pub enum Form<'p> {
    /// A number.
    Number {
        /// Its kind.
        kind: Kind,
        /// Whether it is `const`.
        fixed: bool,
    },
    /// An array of numbers.
    Array {
        /// Their kind.
        kind: Kind,
        /// Whether it is `const`.
        fixed: bool,
        /// Its size as it stands in the source.
        size: &'p Expr,
    },
    /// A message.
    Message(MessageType<'p>),
    /// A timer, by its unit in microseconds.
    Timer(u32),
    /// An array of messages or timers, which there is not.
    Misfit,
}

/// How a message variable is declared.
#[derive(Clone, Copy)]
pub enum MessageType<'p> {
    /// By an identifier, as it stands in its cell: bit 31 marks an extended one. It need not fit there.
    ByIdentifier(u128),
    /// By the name of a message, which the database has or not.
    ByName(Option<&'p DbcMessage>),
}

/// The identifier of a declaration.
fn identifier(value: Option<u64>, extended: bool) -> u128
    ensures { result ≡ option_map_or (λ n. identifier n extended) value 0 }
{
    match value {
        None => 0,
        Some(n) if extended => (1 << 31) + n as u128,
        Some(n) => n as u128,
    }
}

/// What a declaration of a message by its name declares. It stands by itself, so that numbers do not pay for
/// looking up names.
#[inline(never)]
fn form_by_name<'p>(names: &Names<'p>, name: &[u8]) -> Form<'p>
    ensures { form_in result ≡ Message (ByName (message_named names.now.base name.now)) }
{
    Form::Message(MessageType::ByName(names.message(name)))
}

/// What a declaration without a size declares.
#[inline(always)]
fn plain_form<'p>(names: &Names<'p>, what: &DeclType) -> Form<'p>
    ensures { form_in result ≡ form_of names.now.base what.now None }
{
    match what {
        DeclType::Number { kind, fixed } => Form::Number {
            kind: *kind,
            fixed: *fixed,
        },
        DeclType::Any => Form::Message(MessageType::ByIdentifier(0)),
        DeclType::ById { value, ext, .. } => {
            Form::Message(MessageType::ByIdentifier(identifier(*value, *ext)))
        }
        DeclType::ByName { name, .. } => form_by_name(names, name.bytes()),
        DeclType::Seconds => Form::Timer(1_000_000),
        DeclType::Millis => Form::Timer(1_000),
    }
}

/// What a declaration with a size declares.
fn sized_form<'p>(what: &DeclType, size: &'p Expr) -> Form<'p>
    ensures { (base : List DbcMessage) → form_in result ≡ form_of base what.now (Some size.now) }
{
    match what {
        DeclType::Number { kind, fixed } => Form::Array {
            kind: *kind,
            fixed: *fixed,
            size,
        },
        DeclType::Any
        | DeclType::ById { .. }
        | DeclType::ByName { .. }
        | DeclType::Seconds
        | DeclType::Millis => Form::Misfit,
    }
}

/// What a declared variable is. Whoever asks wants a part of it, and should not pay for the whole.
#[inline(always)]
pub(crate) fn declared_form<'p>(names: &Names<'p>, declared: &Declared<'p>) -> Form<'p>
    ensures { form_in result ≡ (variable_in names.now.base declared.now).form }
{
    match declared.source {
        Source::Item { what, item } => match &item.size {
            None => plain_form(names, what),
            Some(size) => sized_form(what, size.get()),
        },
        Source::Parameter(parameter) => Form::Number {
            kind: parameter.kind,
            fixed: false,
        },
    }
}

/// What the variable of a number is; a misfit where there is no such variable. Takes time linear in the
/// name of a message at most.
#[inline(always)]
pub fn form_of<'p>(names: &Names<'p>, number: u32) -> Form<'p>
    ensures { form_in result ≡ option_map_or (λ v. v.form) (slice_get names.now.variables number) Misfit }
{
    match names.variables().get(number as usize) {
        None => Form::Misfit,
        Some(declared) => declared_form(names, declared),
    }
}
