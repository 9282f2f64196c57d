// The declarations of system variables.

ghost use Rattle.std.specs.Prelude.{◌≡◌, ◌+◌, ◌*◌, ◌≤◌, ◌∷◌, ◌++◌, [], All, length, map, IfOk, OnOk};
ghost use Rattle.capl_lexer.specs.declared.token.Tok.{Tok};
ghost use Rattle.capl_nesting.specs.Tokens.{toks};
ghost use Rattle.capl_tree.specs.Nesting.{nesting};
ghost use Rattle.capl_grammar.specs.File.{IsSourceOf};
ghost use Rattle.sys_vars.specs.Name.{HasLong, IsLong};
ghost use Rattle.sys_vars.specs.Prelude.{prelude_tokens, prelude_tree, timer_toks, unplaced, value_toks, variable_toks};

use crate::item::SysItem;
use crate::names::{timer_name, variable_name};
use capl_lexer::{Sign, Tok, Token, Word};
use std::alloc::Global;
use texts::NoMemory;

/// The tokens of one block `variables { }` with `long SPACE::NAME = VALUE;` for each item in order, and then
/// `msTimer` with the name `on SPACE::NAME` for each. They stand in no file, so their places, lines and
/// columns are 0. Takes time and memory linear in the items and their names.
pub fn prelude(alloc: Global, items: &[SysItem]) -> Result<Vec<Token>, NoMemory>
    requires { All HasLong items.now }
    ensures tokens { IfOk result (λ tokens. tokens.items ≡ prelude_tokens items.now) }

    // Their tree declares the variables and then their timers, each in order, and is shallow enough to be
    // read.
    ensures tree { IfOk result (λ tokens. IsSourceOf (toks tokens.items) (prelude_tree items.now)) }
    ensures shallow { IfOk result (λ tokens. nesting (toks tokens.items) ≤ 3) }
    ensures short { IfOk result (λ tokens. length tokens.items ≤ 3 + 9 * length items.now) }
{
    let mut tokens = Vec::new(alloc);
    push(&mut tokens, Tok::Word(Word::Variables))?;
    push(&mut tokens, Tok::Sign(Sign::OpenBrace))?;
    for item in items {
        push_variable(alloc, item, &mut tokens)?;
    }
    for item in items {
        push_timer(alloc, item, &mut tokens)?;
    }
    push(&mut tokens, Tok::Sign(Sign::CloseBrace))?;
    Ok(tokens)
}

/// Appends the declaration of a variable.
fn push_variable(alloc: Global, item: &SysItem, into: &mut Vec<Token>) -> Result<(), NoMemory>
    requires { HasLong item.now }
    ensures { OnOk result (into.new.items ≡ into.old.items ++ map unplaced (variable_toks item.now)) }
{
    let name = variable_name(alloc, item.space.bytes(), item.name.bytes())?;
    push(into, Tok::Word(Word::Long))?;
    push(into, Tok::Name(name))?;
    push(into, Tok::Sign(Sign::Assign))?;
    push_value(item.value, into)?;
    push(into, Tok::Sign(Sign::Semi))?;
    Ok(())
}

/// Appends a value: its digits, behind `-` where it is below 0.
fn push_value(value: i128, into: &mut Vec<Token>) -> Result<(), NoMemory>
    requires { IsLong value }
    ensures { OnOk result (into.new.items ≡ into.old.items ++ map unplaced (value_toks value)) }
{
    let digits = Tok::Num {
        value: Some(value.unsigned_abs() as u64),
        ext: false,
    };
    if value < 0 {
        push(into, Tok::Sign(Sign::Minus))?;
        push(into, digits)?;
        return Ok(());
    }
    push(into, digits)?;
    Ok(())
}

/// Appends the declaration of a variable's hidden timer.
fn push_timer(alloc: Global, item: &SysItem, into: &mut Vec<Token>) -> Result<(), NoMemory>
    ensures { OnOk result (into.new.items ≡ into.old.items ++ map unplaced (timer_toks item.now)) }
{
    let name = timer_name(alloc, item.space.bytes(), item.name.bytes())?;
    push(into, Tok::Word(Word::MsTimer))?;
    push(into, Tok::Name(name))?;
    push(into, Tok::Sign(Sign::Semi))?;
    Ok(())
}

/// Appends a token that stands in no file.
fn push(into: &mut Vec<Token>, tok: Tok) -> Result<(), NoMemory>
    ensures { OnOk result (into.new.items ≡ into.old.items ++ unplaced tok ∷ []) }
{
    into.push(Token {
        tok,
        from: 0,
        to: 0,
        line: 0,
        column: 0,
    })?;
    Ok(())
}
