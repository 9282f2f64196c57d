// The rules of what a declaration declares: arrays of messages and timers, timers in procedures, constants
// without a value, and sizes.

ghost use Rattle.std.specs.Prelude.{◌≡◌, ℕ, List, OnOk, Some, None, false, is_some, true};
ghost use Rattle.dbc_reader.specs.declared.message.DbcMessage.{DbcMessage};
ghost use Rattle.capl_meaning.specs.Constant.{array_length};
ghost use Rattle.capl_meaning.specs.DeclarationRules.{const_rule, form_rule, size_offences};
ghost use Rattle.capl_meaning.specs.ExpressionRules.{broken_where};
ghost use Rattle.capl_meaning.specs.Names.{Scope};
ghost use Rattle.capl_meaning.specs.Variable.{form_of};
ghost use Rattle.check_names.specs.First.{noted};
ghost use Rattle.check_statements.specs.Site.{IsReady, place_of};

use crate::constant::judge_constant;
use crate::site::Site;
use capl_meaning::Offence;
use capl_tree::{DeclType, Expr, Init};
use check_expressions::note_broken;
use items::Boxed;
use std::alloc::Global;
use texts::NoMemory;

/// The most elements that an array has.
const MAX_ELEMENTS: i128 = 1_000_000;

/// Whether a declaration of a type, with or without a size, is of an array of messages or timers, or of
/// a timer in a procedure.
fn is_wrong(what: &DeclType, has_size: bool, owner: u32) -> bool
    ensures sized { (s : Scope) (base : List DbcMessage) (at : ℕ) (size : Expr) → has_size ≡ true →
        form_rule s at (form_of base what.now (Some size)) ≡ broken_where result s at 12 }
    ensures plain { (s : Scope) (base : List DbcMessage) (at : ℕ) → has_size ≡ false → s.owner ≡ owner →
        form_rule s at (form_of base what.now None) ≡ broken_where result s at 12 }
{
    match what {
        DeclType::Number { .. } => false,
        DeclType::Any | DeclType::ById { .. } | DeclType::ByName { .. } => has_size,
        DeclType::Seconds | DeclType::Millis => has_size || owner > 0,
    }
}

/// Notes an array of messages or timers, and a timer in a procedure.
pub(crate) fn note_form(
    site: &Site,
    at: u32,
    what: &DeclType,
    size: &Option<Boxed<Expr>>,
    first: &mut Option<Offence>,
)
    ensures { first.new ≡ noted first.old
        (form_rule (place_of site.now) at (form_of site.now.scope.names.now.base what.now size.now)) }
{
    let wrong = is_wrong(what, size.is_some(), site.scope.owner);
    note_broken(site.scope, wrong, at, 12, first);
}

/// Notes a `const` without initialiser.
pub(crate) fn note_const(
    site: &Site,
    at: u32,
    what: &DeclType,
    init: &Option<Boxed<Init>>,
    first: &mut Option<Offence>,
)
    ensures { first.new ≡ noted first.old (const_rule (place_of site.now) at what.now init.now) }
{
    let broken = match what {
        DeclType::Number { fixed, .. } => *fixed && init.is_none(),
        _ => false,
    };
    note_broken(site.scope, broken, at, 12, first);
}

/// Whether an array has so many elements.
fn is_length(n: i128) -> bool
    ensures { result ≡ is_some (array_length n) }
{
    1 <= n && n <= MAX_ELEMENTS
}

/// Notes what the size of a variable that is declared at a token breaks, if it has one.
#[tactic(auto, using(check_names::proofs::FirstLemmas::noted_append))]
pub(crate) fn judge_size(
    alloc: Global,
    site: &Site,
    at: u32,
    size: &Option<Boxed<Expr>>,
    first: &mut Option<Offence>,
) -> Result<(), NoMemory>
    requires { IsReady site.now }
    ensures { OnOk result (first.new ≡ noted first.old (size_offences (place_of site.now) at size.now)) }
{
    let Some(size) = size else {
        return Ok(());
    };
    let size = size.get();
    judge_constant(alloc, site, at, size, first)?;
    let broken = match site.constants.constant_at(site.scope, at, size) {
        Some(n) => !is_length(n),
        None => false,
    };
    note_broken(site.scope, broken, at, 12, first);
    Ok(())
}
