// The first wrong token.

ghost use Rattle.std.specs.Prelude.{◌≡◌, ◌<◌, ◌^◌, [], ◌∷◌, IfOk, length, reverse};
ghost use Rattle.capl_nesting.specs.Tokens.{toks};
ghost use Rattle.viable_prefixes.specs.Inside.Goals as spec;
ghost use Rattle.viable_prefixes.specs.Inside.Stack as stack_spec;
ghost use Rattle.viable_prefixes.specs.Inside.Stack.{Takes};
ghost use Rattle.viable_prefixes.specs.Prefix.{IsFirstWrong};

use crate::goal::{Goal, come_where, further};
use crate::token::{is_sign, is_word, kind_in, operator_in};
use crate::{expression as expr, file, statement as stmt};
use capl_lexer::{Sign, Tok, Token, Word};
use expr_parser::operator::binding;
use std::alloc::Global;
use texts::NoMemory;

/// The number of the first token, counted from 0, with which these tokens are no beginning of a CAPL source
/// any more: up to it they could have become one. Where all of them begin one, their number.
///
/// Takes time linear in the number of tokens, and memory for what nests at one place.
pub fn first_wrong_token(alloc: Global, tokens: &[Token]) -> Result<u32, NoMemory>
    requires { length tokens.now < 2 ^ 32 }
    ensures { IfOk result (IsFirstWrong (toks tokens.now)) }
{
    let mut stack = Vec::new(alloc);
    stack.push(Goal::File)?;
    for (number, token) in tokens.iter().enumerate() {
        if !pass(&token.tok, &mut stack)? {
            return Ok(number as u32);
        }
    }
    Ok(tokens.len() as u32)
}

/// Moves the goals on behind a token, and says whether it can come.
fn pass(token: &Tok, stack: &mut Vec<Goal>) -> Result<bool, NoMemory>
    ensures { Takes (spec.moved token.now (reverse stack.old.items)) result stack.new.items }
{
    for _turn in 0..stack.len() {
        let Some(goal) = stack.pop() else {
            return Ok(false);
        };
        if !ends_before(goal, token) {
            return take(goal, token, stack);
        }
    }
    Ok(false)
}

/// Whether the goal may be nothing, and is so before this token.
fn ends_before(goal: Goal, token: &Tok) -> bool
    ensures { result ≡ spec.ends_before goal token.now }
{
    match goal {
        Goal::Operators(level) => binds_less(level, token),
        Goal::Call => !is_sign(Sign::OpenParen, token),
        Goal::Named => binds_less(expr::CHOICE, token) && !is_sign(Sign::Assign, token),
        Goal::Size => !is_sign(Sign::OpenBracket, token),
        Goal::First => !is_sign(Sign::Assign, token),
        Goal::Else => !is_word(Word::Else, token),
        Goal::Range => !is_sign(Sign::Minus, token),
        Goal::Channel => !is_sign(Sign::Dot, token),
        Goal::FurtherSelectors => !is_sign(Sign::Comma, token),
        _ => false,
    }
}

/// Whether the token is no operator that binds at this level or more strongly.
fn binds_less(level: u8, token: &Tok) -> bool
    ensures { result ≡ spec.binds_less level token.now }
{
    binding(operator_in(token)) < level
}

/// Puts what comes behind the token in the place of the goal, and says whether the goal takes it.
fn take(goal: Goal, token: &Tok, stack: &mut Vec<Goal>) -> Result<bool, NoMemory>
    ensures { Takes (spec.taken goal token.now (reverse stack.old.items)) result stack.new.items }
{
    match goal {
        Goal::Body => stmt::body(token, stack),
        Goal::Groups => stmt::groups(token, stack),
        Goal::GroupBody => stmt::group_body(token, stack),
        Goal::Statement => stmt::statement(token, stack),
        Goal::Else => come_where(is_word(Word::Else, token), &[Goal::Statement], stack),
        Goal::Part(end) => stmt::part(end, token, stack),
        Goal::Sign(wanted) => come_where(is_sign(wanted, token), &[], stack),
        Goal::Word(wanted) => come_where(is_word(wanted, token), &[], stack),
        _ => take_in_expression(goal, token, stack),
    }
}

/// The same where the goal is not one of a statement's.
fn take_in_expression(goal: Goal, token: &Tok, stack: &mut Vec<Goal>) -> Result<bool, NoMemory>
    ensures { Takes (spec.taken_in_expression goal token.now (reverse stack.old.items))
        result stack.new.items }
{
    match goal {
        Goal::Expression(level) => expr::expression(level, token, stack),
        Goal::Operators(level) => expr::operator(level, token, stack),
        Goal::Call => come_where(is_sign(Sign::OpenParen, token), &[Goal::Arguments], stack),
        Goal::Arguments => expr::arguments(token, stack),
        Goal::FurtherArguments => {
            further(
                Goal::Expression(expr::ASSIGNMENT),
                goal,
                Sign::CloseParen,
                token,
                stack,
            )
        }
        Goal::Enclosed => expr::enclosed(token, stack),
        Goal::Field => expr::field(token, stack),
        _ => take_in_declaration(goal, token, stack),
    }
}

/// The same where the goal is not one of an expression's either.
fn take_in_declaration(goal: Goal, token: &Tok, stack: &mut Vec<Goal>) -> Result<bool, NoMemory>
    ensures { Takes (spec.taken_in_declaration goal token.now (reverse stack.old.items))
        result stack.new.items }
{
    match goal {
        Goal::Kind => Ok(kind_in(token).is_some()),
        Goal::Message => expr::message(token, stack),
        Goal::Declarator => expr::declarator(token, stack),
        Goal::Size => come_where(
            is_sign(Sign::OpenBracket, token),
            &[
                Goal::Expression(expr::CHOICE),
                Goal::Sign(Sign::CloseBracket),
            ],
            stack,
        ),
        Goal::First => come_where(is_sign(Sign::Assign, token), &[Goal::Initialiser], stack),
        Goal::FurtherDeclarators => further(Goal::Declarator, goal, Sign::Semi, token, stack),
        Goal::Initialiser => expr::initialiser(token, stack),
        Goal::Item => expr::item(token, stack),
        Goal::Named => expr::named(token, stack),
        Goal::FurtherItems => further(Goal::Item, goal, Sign::CloseBrace, token, stack),
        _ => take_in_file(goal, token, stack),
    }
}

/// The same where the goal is one of a file's part or of a head.
fn take_in_file(goal: Goal, token: &Tok, stack: &mut Vec<Goal>) -> Result<bool, NoMemory>
    ensures { Takes (spec.taken_in_file goal token.now (reverse stack.old.items)) result stack.new.items }
{
    match goal {
        Goal::File => file::file_part(token, stack),
        Goal::Includes => file::includes(token, stack),
        Goal::Variables => file::variables(token, stack),
        Goal::Event => file::event(token, stack),
        Goal::Selector => file::selector(token, stack),
        Goal::Channel => come_where(is_sign(Sign::Dot, token), &[Goal::Selection], stack),
        Goal::Selection => file::selection(token, stack),
        Goal::FurtherSelectors => {
            come_where(is_sign(Sign::Comma, token), &[Goal::Selector, goal], stack)
        }
        Goal::Range => come_where(is_sign(Sign::Minus, token), &[Goal::Number], stack),
        Goal::Number => Ok(file::number(token)),
        Goal::Key => Ok(file::key(token)),
        Goal::Name => Ok(file::name(token)),
        Goal::Parameters => file::parameters(token, stack),
        Goal::Parameter => file::parameter(token, stack),
        Goal::FurtherParameters => further(Goal::Parameter, goal, Sign::CloseParen, token, stack),
        _ => Ok(false),
    }
}
