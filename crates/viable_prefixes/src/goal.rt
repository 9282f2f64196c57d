// What may come next in a part that has begun.

ghost use Rattle.std.specs.Prelude.{◌++◌, Some, reverse};
ghost use Rattle.viable_prefixes.specs.Inside.Stack as spec;
ghost use Rattle.viable_prefixes.specs.Inside.Stack.{Takes};

use crate::token::is_sign;
use capl_lexer::{Sign, Tok, Word};
use texts::NoMemory;

/// What may come next in a part that has begun (the CAPL manual's grammar). A goal that may be nothing ends
/// before each token that it does not take.
#[derive(Clone, Copy)]
pub(crate) enum Goal {
    /// Parts of a file, up to its end.
    File,
    /// Names of included files, up to `}`.
    Includes,
    /// Declarations, up to `}`.
    Variables,
    /// An event, behind `on`.
    Event,
    /// A selector.
    Selector,
    /// Behind `CAN1` or `CAN2`: `.` and which frames of that channel, or nothing.
    Channel,
    /// Which frames of a channel.
    Selection,
    /// Selectors, each behind a comma, or nothing.
    FurtherSelectors,
    /// `-` and a number, or nothing.
    Range,
    /// A number.
    Number,
    /// A key, behind `on key`.
    Key,
    /// A name.
    Name,
    /// Parameters, up to `)`.
    Parameters,
    /// A parameter.
    Parameter,
    /// Parameters, each behind a comma, up to `)`.
    FurtherParameters,
    /// The word of a kind.
    Kind,
    /// Which message, behind `message`.
    Message,
    /// A declared variable.
    Declarator,
    /// The number of elements between brackets, or nothing.
    Size,
    /// `=` and what a variable is given at first, or nothing.
    First,
    /// Declared variables, each behind a comma, up to `;`.
    FurtherDeclarators,
    /// What a variable is given at first.
    Initialiser,
    /// An item between the braces of an initialiser.
    Item,
    /// Behind the name that an item begins with: `=` and a value, or what goes on with the name.
    Named,
    /// Items, each behind a comma, up to `}`.
    FurtherItems,
    /// Declarations and statements, up to `}`.
    Body,
    /// Groups of a `switch`, up to `}`.
    Groups,
    /// Declarations and statements behind a label, and further groups, up to `}`.
    GroupBody,
    /// A statement that is no declaration.
    Statement,
    /// `else` and a statement, or nothing.
    Else,
    /// An expression or nothing, up to this sign.
    Part(Sign),
    /// An expression that binds at this level or more strongly.
    Expression(u8),
    /// Operators that bind at this level or more strongly, each with what stands behind it, or nothing.
    Operators(u8),
    /// The arguments of a call between parentheses, or nothing.
    Call,
    /// Arguments, up to `)`.
    Arguments,
    /// Arguments, each behind a comma, up to `)`.
    FurtherArguments,
    /// Behind `(`: an expression and `)`, or a kind, `)` and an operand.
    Enclosed,
    /// A field, behind `.`.
    Field,
    /// This sign.
    Sign(Sign),
    /// This word.
    Word(Word),
}

/// The goals that come before those on the stack, the next first: the answer of a goal that takes a token.
pub(crate) fn come(stack: &mut Vec<Goal>, goals: &[Goal]) -> Result<bool, NoMemory>
    ensures { Takes (Some (goals.now ++ reverse stack.old.items)) result stack.new.items }
{
    for goal in goals.iter().rev() {
        stack.push(*goal)?;
    }
    Ok(true)
}

/// The same where the token is the one that is wanted; where it is not, no goal takes it.
pub(crate) fn come_where(
    is_wanted: bool,
    goals: &[Goal],
    stack: &mut Vec<Goal>,
) -> Result<bool, NoMemory>
    ensures { Takes (spec.when is_wanted (goals.now ++ reverse stack.old.items)) result stack.new.items }
{
    if !is_wanted {
        return Ok(false);
    }
    come(stack, goals)
}

/// Behind an item of a list: a comma, behind which one more and this goal again come, or the sign that ends
/// the list.
pub(crate) fn further(
    one: Goal,
    again: Goal,
    end: Sign,
    token: &Tok,
    stack: &mut Vec<Goal>,
) -> Result<bool, NoMemory>
    ensures { Takes (spec.further one again end token.now (reverse stack.old.items)) result stack.new.items }
{
    if is_sign(Sign::Comma, token) {
        return come(stack, &[one, again]);
    }
    come_where(is_sign(end, token), &[], stack)
}
