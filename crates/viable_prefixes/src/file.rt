// The tokens of files and of the heads of procedures.

ghost use Rattle.std.specs.Prelude.{◌≡◌, Some, reverse};
ghost use Rattle.viable_prefixes.specs.Inside.File as spec;
ghost use Rattle.viable_prefixes.specs.Inside.Stack.{Takes};

use crate::expression::declaration;
use crate::goal::{Goal, come};
use crate::token::{is_sign, is_word, kind_in};
use capl_lexer::{Sign, Tok, Word};
use expr_parser::operator::kind_of;
use texts::NoMemory;

/// What is between the braces of a procedure, and the parts of the file behind it.
fn body(stack: &mut Vec<Goal>) -> Result<bool, NoMemory>
    ensures { Takes (Some (spec.body (reverse stack.old.items))) result stack.new.items }
{
    come(
        stack,
        &[Goal::Sign(Sign::OpenBrace), Goal::Body, Goal::File],
    )
}

/// The parameters of a function, and its body.
fn signature(stack: &mut Vec<Goal>) -> Result<bool, NoMemory>
    ensures { Takes (Some (spec.signature (reverse stack.old.items))) result stack.new.items }
{
    body(stack)?;
    come(stack, &[Goal::Sign(Sign::OpenParen), Goal::Parameters])
}

/// The word before the name of a function.
fn function(stack: &mut Vec<Goal>) -> Result<bool, NoMemory>
    ensures { Takes (Some (spec.function (reverse stack.old.items))) result stack.new.items }
{
    signature(stack)?;
    come(stack, &[Goal::Name])
}

/// The first token of a part of a file.
pub(crate) fn file_part(token: &Tok, stack: &mut Vec<Goal>) -> Result<bool, NoMemory>
    ensures { Takes (spec.part_from token.now (reverse stack.old.items)) result stack.new.items }
{
    match token {
        Tok::Word(Word::Includes) => {
            come(
                stack,
                &[Goal::Sign(Sign::OpenBrace), Goal::Includes, Goal::File],
            )
        }
        Tok::Word(Word::Variables) => {
            come(
                stack,
                &[Goal::Sign(Sign::OpenBrace), Goal::Variables, Goal::File],
            )
        }
        Tok::Word(Word::On) => {
            body(stack)?;
            come(stack, &[Goal::Event])
        }
        Tok::Word(Word::Void) => function(stack),
        Tok::Word(word) => match kind_of(*word) {
            Some(_) => function(stack),
            None => Ok(false),
        },
        Tok::Name(_) => signature(stack),
        _ => Ok(false),
    }
}

/// The first token of what is left of the names of included files.
pub(crate) fn includes(token: &Tok, stack: &mut Vec<Goal>) -> Result<bool, NoMemory>
    ensures { Takes (spec.includes_from token.now (reverse stack.old.items)) result stack.new.items }
{
    match token {
        Tok::Include(_) => come(stack, &[Goal::Includes]),
        _ => Ok(is_sign(Sign::CloseBrace, token)),
    }
}

/// The first token of what is left of declarations.
pub(crate) fn variables(token: &Tok, stack: &mut Vec<Goal>) -> Result<bool, NoMemory>
    ensures { Takes (spec.variables_from token.now (reverse stack.old.items)) result stack.new.items }
{
    if is_sign(Sign::CloseBrace, token) {
        return Ok(true);
    }
    stack.push(Goal::Variables)?;
    declaration(token, stack)
}

/// The token behind `on`.
pub(crate) fn event(token: &Tok, stack: &mut Vec<Goal>) -> Result<bool, NoMemory>
    ensures { Takes (spec.event_from token.now (reverse stack.old.items)) result stack.new.items }
{
    match token {
        Tok::Word(Word::Message) => come(stack, &[Goal::Selector, Goal::FurtherSelectors]),
        Tok::Word(Word::Timer) => come(stack, &[Goal::Name]),
        Tok::Name(name) => event_named(name.bytes(), stack),
        _ => Ok(false),
    }
}

/// The name behind `on`.
fn event_named(name: &[u8], stack: &mut Vec<Goal>) -> Result<bool, NoMemory>
    ensures { Takes (spec.event_named name.now (reverse stack.old.items)) result stack.new.items }
{
    if name == b"preStart".as_slice()
        || name == b"start".as_slice()
        || name == b"stopMeasurement".as_slice()
    {
        return Ok(true);
    }
    if name == b"key".as_slice() {
        return come(stack, &[Goal::Key]);
    }
    Ok(false)
}

/// Whether the name is that of a channel.
fn names_channel(name: &[u8]) -> bool
    ensures { result ≡ spec.names_channel name.now }
{
    name == b"CAN1".as_slice() || name == b"CAN2".as_slice()
}

/// The first token of a selector.
pub(crate) fn selector(token: &Tok, stack: &mut Vec<Goal>) -> Result<bool, NoMemory>
    ensures { Takes (spec.selector_from token.now (reverse stack.old.items)) result stack.new.items }
{
    match token {
        Tok::Name(name) if names_channel(name.bytes()) => come(stack, &[Goal::Channel]),
        _ => selection(token, stack),
    }
}

/// The first token of which frames of a channel.
pub(crate) fn selection(token: &Tok, stack: &mut Vec<Goal>) -> Result<bool, NoMemory>
    ensures { Takes (spec.selection_from token.now (reverse stack.old.items)) result stack.new.items }
{
    match token {
        Tok::Sign(Sign::Star) | Tok::Name(_) => Ok(true),
        Tok::Num { .. } => come(stack, &[Goal::Range]),
        _ => Ok(false),
    }
}

/// Whether it is a number.
pub(crate) fn number(token: &Tok) -> bool
    ensures { result ≡ spec.is_number token.now }
{
    match token {
        Tok::Num { .. } => true,
        _ => false,
    }
}

/// Whether it is a key.
pub(crate) fn key(token: &Tok) -> bool
    ensures { result ≡ spec.is_key token.now }
{
    match token {
        Tok::Char(_) | Tok::Sign(Sign::Star) => true,
        _ => false,
    }
}

/// Whether it is a name.
pub(crate) fn name(token: &Tok) -> bool
    ensures { result ≡ spec.is_name token.now }
{
    match token {
        Tok::Name(_) => true,
        _ => false,
    }
}

/// The first token of a parameter.
pub(crate) fn parameter(token: &Tok, stack: &mut Vec<Goal>) -> Result<bool, NoMemory>
    ensures { Takes (spec.parameter_from token.now (reverse stack.old.items)) result stack.new.items }
{
    match kind_in(token) {
        Some(_) => come(stack, &[Goal::Name]),
        None => Ok(false),
    }
}

/// The first token of parameters, up to `)`.
pub(crate) fn parameters(token: &Tok, stack: &mut Vec<Goal>) -> Result<bool, NoMemory>
    ensures { Takes (spec.parameters_from token.now (reverse stack.old.items)) result stack.new.items }
{
    if is_sign(Sign::CloseParen, token) {
        return Ok(true);
    }
    if is_word(Word::Void, token) {
        return come(stack, &[Goal::Sign(Sign::CloseParen)]);
    }
    stack.push(Goal::FurtherParameters)?;
    parameter(token, stack)
}
