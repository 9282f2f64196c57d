// The tokens of expressions and declarations.

ghost use Rattle.std.specs.Prelude.{Some, reverse};
ghost use Rattle.viable_prefixes.specs.Inside.Expression as spec;
ghost use Rattle.viable_prefixes.specs.Inside.Stack.{Takes};
ghost use Rattle.viable_prefixes.specs.Inside.Token as token_spec;

use crate::goal::{Goal, come};
use crate::token::{is_sign, kind_in, operator_in};
use capl_lexer::{Sign, Tok, Word};
use expr_parser::operator::{Operator, kind_of, operator_level, prefix_operator};
use int_kinds::UnOp;
use texts::NoMemory;

/// How strongly an assignment binds.
pub(crate) const ASSIGNMENT: u8 = 1;
/// How strongly `?:` binds.
pub(crate) const CHOICE: u8 = 2;
/// How strongly a prefix operator binds.
const PREFIX: u8 = 13;

/// The first token of an expression that binds at this level or more strongly.
pub(crate) fn expression(level: u8, token: &Tok, stack: &mut Vec<Goal>) -> Result<bool, NoMemory>
    ensures { Takes (spec.expression_from level token.now (reverse stack.old.items)) result stack.new.items }
{
    match token {
        Tok::Name(_) => come(stack, &[Goal::Call, Goal::Operators(level)]),
        Tok::Num { .. } | Tok::Char(_) | Tok::Str(_) | Tok::Word(Word::This) => come(
            stack,
            &[Goal::Operators(level)],
        ),
        Tok::Sign(Sign::OpenParen) => come(stack, &[Goal::Enclosed, Goal::Operators(level)]),
        Tok::Sign(sign) => prefix(level, prefix_operator(*sign), stack),
        _ => Ok(false),
    }
}

/// A prefix operator.
fn prefix(level: u8, operator: Option<UnOp>, stack: &mut Vec<Goal>) -> Result<bool, NoMemory>
    ensures { Takes (spec.prefix_from level operator (reverse stack.old.items)) result stack.new.items }
{
    match operator {
        Some(_) => come(stack, &[Goal::Expression(PREFIX), Goal::Operators(level)]),
        None => Ok(false),
    }
}

/// A token behind an operand, of operators that bind at this level or more strongly.
pub(crate) fn operator(level: u8, token: &Tok, stack: &mut Vec<Goal>) -> Result<bool, NoMemory>
    ensures { Takes (spec.operator_from level (token_spec.operator_in token.now) (reverse stack.old.items))
        result stack.new.items }
{
    match operator_in(token) {
        Some(Operator::Assign(_)) => come(
            stack,
            &[Goal::Expression(ASSIGNMENT), Goal::Operators(level)],
        ),
        Some(Operator::Choice) => come(
            stack,
            &[
                Goal::Expression(ASSIGNMENT),
                Goal::Sign(Sign::Colon),
                Goal::Expression(CHOICE),
                Goal::Operators(level),
            ],
        ),
        Some(Operator::Binary(op)) => {
            come(
                stack,
                &[
                    Goal::Expression(operator_level(op) + 1),
                    Goal::Operators(level),
                ],
            )
        }
        Some(Operator::Index) => come(
            stack,
            &[
                Goal::Expression(ASSIGNMENT),
                Goal::Sign(Sign::CloseBracket),
                Goal::Operators(level),
            ],
        ),
        Some(Operator::Member) => come(stack, &[Goal::Field, Goal::Operators(level)]),
        Some(Operator::Post(_)) => come(stack, &[Goal::Operators(level)]),
        Some(Operator::Call) | None => Ok(false),
    }
}

/// The first token of arguments, up to `)`.
pub(crate) fn arguments(token: &Tok, stack: &mut Vec<Goal>) -> Result<bool, NoMemory>
    ensures { Takes (spec.arguments_from token.now (reverse stack.old.items)) result stack.new.items }
{
    if is_sign(Sign::CloseParen, token) {
        return Ok(true);
    }
    stack.push(Goal::FurtherArguments)?;
    expression(ASSIGNMENT, token, stack)
}

/// The first token behind `(`.
pub(crate) fn enclosed(token: &Tok, stack: &mut Vec<Goal>) -> Result<bool, NoMemory>
    ensures { Takes (spec.enclosed_from token.now (reverse stack.old.items)) result stack.new.items }
{
    if kind_in(token).is_some() {
        return come(
            stack,
            &[Goal::Sign(Sign::CloseParen), Goal::Expression(PREFIX)],
        );
    }
    stack.push(Goal::Sign(Sign::CloseParen))?;
    expression(ASSIGNMENT, token, stack)
}

/// The word of a kind, which begins bytes of a payload.
fn bytes(stack: &mut Vec<Goal>) -> Result<bool, NoMemory>
    ensures { Takes (Some (spec.bytes (reverse stack.old.items))) result stack.new.items }
{
    come(
        stack,
        &[
            Goal::Sign(Sign::OpenParen),
            Goal::Expression(ASSIGNMENT),
            Goal::Sign(Sign::CloseParen),
        ],
    )
}

/// The first token of a field.
pub(crate) fn field(token: &Tok, stack: &mut Vec<Goal>) -> Result<bool, NoMemory>
    ensures { Takes (spec.field_from token.now (reverse stack.old.items)) result stack.new.items }
{
    match token {
        Tok::Name(_) => Ok(true),
        _ => match kind_in(token) {
            Some(_) => bytes(stack),
            None => Ok(false),
        },
    }
}

/// The first token of an item of an initialiser.
pub(crate) fn item(token: &Tok, stack: &mut Vec<Goal>) -> Result<bool, NoMemory>
    ensures { Takes (spec.item_from token.now (reverse stack.old.items)) result stack.new.items }
{
    match token {
        Tok::Name(_) => come(stack, &[Goal::Named]),
        _ => match kind_in(token) {
            Some(_) => {
                come(stack, &[Goal::Sign(Sign::Assign), Goal::Expression(CHOICE)])?;
                bytes(stack)
            }
            None => expression(CHOICE, token, stack),
        },
    }
}

/// The token behind the name that an item begins with.
pub(crate) fn named(token: &Tok, stack: &mut Vec<Goal>) -> Result<bool, NoMemory>
    ensures { Takes (spec.named_from token.now (reverse stack.old.items)) result stack.new.items }
{
    if is_sign(Sign::Assign, token) {
        return come(stack, &[Goal::Expression(CHOICE)]);
    }
    if is_sign(Sign::OpenParen, token) {
        return come(stack, &[Goal::Arguments, Goal::Operators(CHOICE)]);
    }
    operator(CHOICE, token, stack)
}

/// The first token of what a variable is given at first.
pub(crate) fn initialiser(token: &Tok, stack: &mut Vec<Goal>) -> Result<bool, NoMemory>
    ensures { Takes (spec.initialiser_from token.now (reverse stack.old.items)) result stack.new.items }
{
    if is_sign(Sign::OpenBrace, token) {
        return come(stack, &[Goal::Item, Goal::FurtherItems]);
    }
    expression(CHOICE, token, stack)
}

/// The first token of a declared variable.
pub(crate) fn declarator(token: &Tok, stack: &mut Vec<Goal>) -> Result<bool, NoMemory>
    ensures { Takes (spec.declarator_from token.now (reverse stack.old.items)) result stack.new.items }
{
    match token {
        Tok::Name(_) => come(stack, &[Goal::Size, Goal::First]),
        _ => Ok(false),
    }
}

/// The token that says which message is declared.
pub(crate) fn message(token: &Tok, stack: &mut Vec<Goal>) -> Result<bool, NoMemory>
    ensures { Takes (spec.message_from token.now (reverse stack.old.items)) result stack.new.items }
{
    match token {
        Tok::Sign(Sign::Star) | Tok::Num { .. } | Tok::Name(_) => come(stack, &[]),
        _ => Ok(false),
    }
}

/// The first token of a declaration.
pub(crate) fn declaration(token: &Tok, stack: &mut Vec<Goal>) -> Result<bool, NoMemory>
    ensures { Takes (spec.declaration_from token.now (reverse stack.old.items)) result stack.new.items }
{
    match token {
        Tok::Word(Word::Const) => come(
            stack,
            &[Goal::Kind, Goal::Declarator, Goal::FurtherDeclarators],
        ),
        Tok::Word(Word::Message) => {
            come(
                stack,
                &[Goal::Message, Goal::Declarator, Goal::FurtherDeclarators],
            )
        }
        Tok::Word(Word::Timer | Word::MsTimer) => come(
            stack,
            &[Goal::Declarator, Goal::FurtherDeclarators],
        ),
        Tok::Word(word) => match kind_of(*word) {
            Some(_) => come(stack, &[Goal::Declarator, Goal::FurtherDeclarators]),
            None => Ok(false),
        },
        _ => Ok(false),
    }
}
