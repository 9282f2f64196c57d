// The lowering of a file's tokens.

ghost use Rattle.std.specs.Prelude.{◌≡◌, ◌∷◌, ◌++◌, ◌≤◌, length, IfOk, OnOk};
ghost use Rattle.sys_vars.specs.Lowering.{head_of, is_at, is_on, lowered, lowered_from, replaced, use_of};
ghost use Rattle.sys_vars.specs.Inside.Found.{found_in};

use crate::copying::{copy_of, in_place};
use crate::declared::Declared;
use crate::item::SysItem;
use crate::names::{timer_name, variable_name};
use crate::naming::{Found, is_sysvar, named};
use capl_lexer::{Sign, Tok, Token, Word};
use std::alloc::Global;
use texts::NoMemory;

/// The tokens of a file with a name in the place of each system variable that these items declare: of
/// `@SPACE::NAME` and `@sysvar::SPACE::NAME` the name `SPACE::NAME`, and of `sysvar SPACE::NAME` and
/// `sysvar sysvar::SPACE::NAME` behind `on` the word `timer` and the name `on SPACE::NAME`. What is new has
/// the place, the line and the column of the first token that it replaces. All other tokens stay, so that
/// an undeclared variable leaves its `@` or its `sysvar`.
///
/// Takes time linear in the tokens and their texts, each `@` and each `on sysvar` a look-up that is
/// logarithmic in the items, which are sorted first; and memory linear in both.
pub fn lower<'t>(
    alloc: Global,
    tokens: &'t [Token],
    items: &'t [SysItem],
) -> Result<Vec<Token>, NoMemory>
    ensures tokens { IfOk result (λ found. found.items ≡ lowered items.now tokens.now) }
    ensures no_longer { IfOk result (λ found. length found.items ≤ length tokens.now) }
{
    let declared = Declared::of(alloc, items)?;
    let mut found = Vec::new(alloc);
    let mut passed = 0u32;
    let mut behind_on = false;
    let mut rest = tokens;
    while let Some((token, behind)) = rest.split_first() {
        passed = push_next(
            alloc, &declared, passed, behind_on, token, behind, &mut found,
        )?;
        behind_on = is_on(&token.tok);
        rest = behind;
    }
    Ok(found)
}

/// Appends what stands in the place of a token, unless it is passed over with so many others as a part of
/// a form before it, and gives the number of those behind it that are then to be passed over.
#[tactic(auto, using(crate::proofs::LoweringLemmas::one_passed, crate::proofs::LoweringLemmas::one_taken))]
fn push_next<'t>(
    alloc: Global,
    declared: &Declared<'t>,
    passed: u32,
    behind_on: bool,
    token: &Token,
    behind: &'t [Token],
    into: &mut Vec<Token>,
) -> Result<u32, NoMemory>
    ensures { IfOk result (λ left.
        into.new.items ++ lowered_from declared.now left (is_on token.now.tok) behind.now
        ≡ into.old.items ++ lowered_from declared.now passed behind_on (token.now ∷ behind.now)) }
{
    if passed > 0 {
        return Ok(passed - 1);
    }
    let left = push_replaced(alloc, declared, behind_on, token, behind, into)?;
    Ok(left)
}

/// Appends what stands in the place of a token, which may stand behind `on`, and of some of the tokens
/// behind it, and gives the number of these.
fn push_replaced<'t>(
    alloc: Global,
    declared: &Declared<'t>,
    behind_on: bool,
    token: &Token,
    behind: &'t [Token],
    into: &mut Vec<Token>,
) -> Result<u32, NoMemory>
    ensures tokens { OnOk result (into.new.items ≡ into.old.items
        ++ (replaced declared.now behind_on token.now behind.now).tokens) }
    ensures passed { IfOk result (λ passed.
        passed ≡ (replaced declared.now behind_on token.now behind.now).behind) }
{
    if is_at(&token.tok) {
        push_use(alloc, token, named(declared, behind), into)
    } else if behind_on && is_sysvar(&token.tok) {
        push_head(alloc, token, named(declared, behind), into)
    } else {
        into.push(copy_of(alloc, token)?)?;
        Ok(0)
    }
}

/// Appends what stands in the place of a use that begins with this token, and gives the number of tokens
/// behind it that are replaced too.
fn push_use(
    alloc: Global,
    token: &Token,
    found: Option<Found>,
    into: &mut Vec<Token>,
) -> Result<u32, NoMemory>
    ensures tokens { OnOk result (into.new.items ≡ into.old.items
        ++ (use_of token.now (found_in found.entry)).tokens) }
    ensures passed { IfOk result (λ passed. passed ≡ (use_of token.now (found_in found.entry)).behind) }
{
    let Some(found) = found else {
        into.push(copy_of(alloc, token)?)?;
        return Ok(0);
    };
    let name = variable_name(alloc, found.space.bytes(), found.name.bytes())?;
    into.push(in_place(token, Tok::Name(name)))?;
    Ok(found.width)
}

/// The same of a head that begins with this token, behind `on`.
fn push_head(
    alloc: Global,
    token: &Token,
    found: Option<Found>,
    into: &mut Vec<Token>,
) -> Result<u32, NoMemory>
    ensures tokens { OnOk result (into.new.items ≡ into.old.items
        ++ (head_of token.now (found_in found.entry)).tokens) }
    ensures passed { IfOk result (λ passed. passed ≡ (head_of token.now (found_in found.entry)).behind) }
{
    let Some(found) = found else {
        into.push(copy_of(alloc, token)?)?;
        return Ok(0);
    };
    let name = timer_name(alloc, found.space.bytes(), found.name.bytes())?;
    into.push(in_place(token, Tok::Word(Word::Timer)))?;
    into.push(in_place(token, Tok::Name(name)))?;
    Ok(found.width)
}

/// Whether the token is `on`.
fn is_on(tok: &Tok) -> bool
    ensures { result ≡ is_on tok.now }
{
    matches!(tok, Tok::Word(Word::On))
}

/// Whether the token is `@`.
fn is_at(tok: &Tok) -> bool
    ensures { result ≡ is_at tok.now }
{
    matches!(tok, Tok::Sign(Sign::At))
}
