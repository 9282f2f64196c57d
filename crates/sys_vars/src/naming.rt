// How tokens name variables.

ghost use Rattle.std.specs.Prelude.{◌≡◌};
ghost use Rattle.std.specs.Option.{option_map};
ghost use Rattle.capl_nesting.specs.Tokens.{toks};
ghost use Rattle.sys_vars.specs.Lowering.{is_scope, is_sysvar, name_of, named, path};
ghost use Rattle.sys_vars.specs.Inside.Found.{found_in};

use crate::declared::Declared;
use capl_lexer::{Sign, Tok, Token};
use texts::Text;

/// The tokens behind `@` or `on sysvar` that name a variable by its two names.
const SHORT: u32 = 3;

/// The same with `sysvar ::` before them.
const LONG: u32 = 5;

/// A declared variable that tokens name.
#[derive(Clone, Copy)]
pub(crate) struct Found<'t> {
    /// The name of its space.
    pub(crate) space: &'t Text,
    /// Its name in the space.
    pub(crate) name: &'t Text,
    /// How many tokens name it.
    pub(crate) width: u32,
}

/// The declared variable that the front of the tokens names, which stand behind `@` or behind `on sysvar`.
/// Where they begin with the name `sysvar`, the longer form alone is tried.
pub(crate) fn named<'t>(declared: &Declared<'t>, tokens: &'t [Token]) -> Option<Found<'t>>
    ensures { found_in result ≡ named declared.now (toks tokens.now) }
{
    let [first, second, behind @ ..] = tokens else {
        return None;
    };
    if !is_sysvar(&first.tok) {
        path(declared, SHORT, tokens)
    } else if is_scope(&second.tok) {
        path(declared, LONG, behind)
    } else {
        None
    }
}

/// The declared variable whose space, `::` and name stand at the front of the tokens.
fn path<'t>(declared: &Declared<'t>, width: u32, tokens: &'t [Token]) -> Option<Found<'t>>
    ensures { found_in result ≡ path declared.now width (toks tokens.now) }
{
    let [first, second, third, ..] = tokens else {
        return None;
    };
    if !is_scope(&second.tok) {
        return None;
    }
    let space = name_of(&first.tok)?;
    let name = name_of(&third.tok)?;
    if declared.has(space.bytes(), name.bytes()) {
        Some(Found { space, name, width })
    } else {
        None
    }
}

/// Whether the token is `::`.
fn is_scope(tok: &Tok) -> bool
    ensures { result ≡ is_scope tok.now }
{
    matches!(tok, Tok::Sign(Sign::Scope))
}

/// Whether the token is the name `sysvar`.
pub(crate) fn is_sysvar(tok: &Tok) -> bool
    ensures { result ≡ is_sysvar tok.now }
{
    match tok {
        Tok::Name(name) => name.bytes() == b"sysvar".as_slice(),
        _ => false,
    }
}

/// The text of a name, or None for another token.
fn name_of(tok: &Tok) -> Option<&Text>
    ensures { option_map (λ text. text.now) result ≡ name_of tok.now }
{
    match tok {
        Tok::Name(text) => Some(text),
        _ => None,
    }
}
