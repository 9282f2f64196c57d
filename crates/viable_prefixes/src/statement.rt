// The tokens of statements.

ghost use Rattle.std.specs.Prelude.{◌≡◌, ◌∷◌, ◌++◌, Some, reverse};
ghost use Rattle.capl_lexer.specs.declared.token.Sign.TheVariants as sign;
ghost use Rattle.capl_tree.specs.Binding.{assignment_level};
ghost use Rattle.viable_prefixes.specs.declared.goal.Goal.TheVariants as goal;
ghost use Rattle.viable_prefixes.specs.Inside.Expression.{expression_from};
ghost use Rattle.viable_prefixes.specs.Inside.Statement as spec;
ghost use Rattle.viable_prefixes.specs.Inside.Stack.{Takes};

use crate::expression::{ASSIGNMENT, CHOICE, declaration, expression};
use crate::goal::{Goal, come};
use crate::token::{is_sign, is_word, kind_in};
use capl_lexer::{Sign, Tok, Word};
use texts::NoMemory;

/// The first token of an expression that may be missing, up to this sign.
pub(crate) fn part(end: Sign, token: &Tok, stack: &mut Vec<Goal>) -> Result<bool, NoMemory>
    ensures { Takes (spec.part_from end token.now (reverse stack.old.items)) result stack.new.items }
{
    if is_sign(end, token) {
        return Ok(true);
    }
    stack.push(Goal::Sign(end))?;
    expression(ASSIGNMENT, token, stack)
}

/// A word behind which a test stands between parentheses, and then these goals.
fn tested(goals: &[Goal], stack: &mut Vec<Goal>) -> Result<bool, NoMemory>
    ensures { Takes (Some (spec.enclosed (goals.now ++ reverse stack.old.items))) result stack.new.items }
{
    come(stack, goals)?;
    come(
        stack,
        &[
            Goal::Sign(Sign::OpenParen),
            Goal::Expression(ASSIGNMENT),
            Goal::Sign(Sign::CloseParen),
        ],
    )
}

/// `do`, behind which a statement, `while`, a test and `;` stand.
fn do_loop(stack: &mut Vec<Goal>) -> Result<bool, NoMemory>
    ensures { Takes (Some (spec.do_loop (reverse stack.old.items))) result stack.new.items }
{
    tested(&[Goal::Sign(Sign::Semi)], stack)?;
    come(stack, &[Goal::Statement, Goal::Word(Word::While)])
}

/// `for`, behind which its three parts and a statement stand.
fn for_loop(stack: &mut Vec<Goal>) -> Result<bool, NoMemory>
    ensures { Takes (Some (spec.for_loop (reverse stack.old.items))) result stack.new.items }
{
    come(
        stack,
        &[
            Goal::Sign(Sign::OpenParen),
            Goal::Part(Sign::Semi),
            Goal::Part(Sign::Semi),
            Goal::Part(Sign::CloseParen),
            Goal::Statement,
        ],
    )
}

/// The first token of an expression and `;`.
fn evaluation(token: &Tok, stack: &mut Vec<Goal>) -> Result<bool, NoMemory>
    ensures { Takes
        (expression_from assignment_level token.now (goal.Sign sign.Semi ∷ reverse stack.old.items))
        result stack.new.items }
{
    stack.push(Goal::Sign(Sign::Semi))?;
    expression(ASSIGNMENT, token, stack)
}

/// The first token of a statement that is no declaration.
pub(crate) fn statement(token: &Tok, stack: &mut Vec<Goal>) -> Result<bool, NoMemory>
    ensures { Takes (spec.statement_from token.now (reverse stack.old.items)) result stack.new.items }
{
    match token {
        Tok::Sign(Sign::Semi) => Ok(true),
        Tok::Sign(Sign::OpenBrace) => come(stack, &[Goal::Body]),
        Tok::Word(Word::If) => tested(&[Goal::Statement, Goal::Else], stack),
        Tok::Word(Word::Switch) => tested(&[Goal::Sign(Sign::OpenBrace), Goal::Groups], stack),
        Tok::Word(Word::While) => tested(&[Goal::Statement], stack),
        Tok::Word(Word::Do) => do_loop(stack),
        Tok::Word(Word::For) => for_loop(stack),
        Tok::Word(Word::Break | Word::Continue) => come(stack, &[Goal::Sign(Sign::Semi)]),
        Tok::Word(Word::Return) => come(stack, &[Goal::Part(Sign::Semi)]),
        _ => evaluation(token, stack),
    }
}

/// Whether a declaration begins with the token.
fn declares(token: &Tok) -> bool
    ensures { result ≡ spec.declares token.now }
{
    is_word(Word::Const, token)
        || is_word(Word::Message, token)
        || is_word(Word::Timer, token)
        || is_word(Word::MsTimer, token)
        || kind_in(token).is_some()
}

/// The first token of a declaration or a statement.
fn body_part(token: &Tok, stack: &mut Vec<Goal>) -> Result<bool, NoMemory>
    ensures { Takes (spec.body_part_from token.now (reverse stack.old.items)) result stack.new.items }
{
    if declares(token) {
        declaration(token, stack)
    } else {
        statement(token, stack)
    }
}

/// The first token of what is left of a block.
pub(crate) fn body(token: &Tok, stack: &mut Vec<Goal>) -> Result<bool, NoMemory>
    ensures { Takes (spec.body_from token.now (reverse stack.old.items)) result stack.new.items }
{
    if is_sign(Sign::CloseBrace, token) {
        return Ok(true);
    }
    stack.push(Goal::Body)?;
    body_part(token, stack)
}

/// The first token of a label.
fn label(token: &Tok, stack: &mut Vec<Goal>) -> Result<bool, NoMemory>
    ensures { Takes (spec.label_from token.now (reverse stack.old.items)) result stack.new.items }
{
    match token {
        Tok::Word(Word::Case) => come(
            stack,
            &[
                Goal::Expression(CHOICE),
                Goal::Sign(Sign::Colon),
                Goal::GroupBody,
            ],
        ),
        Tok::Word(Word::Default) => come(stack, &[Goal::Sign(Sign::Colon), Goal::GroupBody]),
        _ => Ok(false),
    }
}

/// The first token of the groups of a `switch`.
pub(crate) fn groups(token: &Tok, stack: &mut Vec<Goal>) -> Result<bool, NoMemory>
    ensures { Takes (spec.groups_from token.now (reverse stack.old.items)) result stack.new.items }
{
    if is_sign(Sign::CloseBrace, token) {
        Ok(true)
    } else {
        label(token, stack)
    }
}

/// The first token of what is left of a group.
pub(crate) fn group_body(token: &Tok, stack: &mut Vec<Goal>) -> Result<bool, NoMemory>
    ensures { Takes (spec.group_body_from token.now (reverse stack.old.items)) result stack.new.items }
{
    if is_sign(Sign::CloseBrace, token) {
        return Ok(true);
    }
    if is_word(Word::Case, token) || is_word(Word::Default, token) {
        return label(token, stack);
    }
    stack.push(Goal::GroupBody)?;
    body_part(token, stack)
}
