// The functions that are called in an expression.

ghost use Rattle.std.specs.Prelude.{◌≡◌, ◌++◌, [], ◌∷◌, OnOk};
ghost use Rattle.capl_meaning.specs.Calls.{calls_in, calls_in_field, calls_in_part};
ghost use Rattle.check_calls.specs.Inside.Added.{AreAdded, calls_in_all};

use capl_meaning::is_builtin;
use capl_tree::{Expr, Field};
use check_names::Names;
use items::Boxed;
use texts::NoMemory;

/// Appends the function of a name, if it is one of the program.
fn add_callee(names: &Names, name: &[u8], into: &mut Vec<u32>) -> Result<(), NoMemory>
    ensures { OnOk result (AreAdded names.now into.new.items into.old.items (name.now ∷ [])) }
{
    if is_builtin(name) {
        return Ok(());
    }
    if let Some(function) = names.function(name) {
        into.push(function)?;
    }
    Ok(())
}

/// Appends the functions of the program that are called in an expression.
#[tactic(auto, using(crate::proofs::FormLemmas::in_form, crate::proofs::CalleeLemmas::added))]
#[cycle(calls)]
pub(crate) fn add_calls(names: &Names, e: &Expr, into: &mut Vec<u32>) -> Result<(), NoMemory>
    ensures { OnOk result (AreAdded names.now into.new.items into.old.items (calls_in e.now)) }
{
    match e {
        Expr::Num { .. }
        | Expr::Char { .. }
        | Expr::Str { .. }
        | Expr::This { .. }
        | Expr::Name { .. } => {}
        Expr::Paren { inner, .. } => add_calls(names, inner.get(), into)?,
        Expr::Cast { inner, .. } => add_calls(names, inner.get(), into)?,
        Expr::Unary { inner, .. } => add_calls(names, inner.get(), into)?,
        Expr::Post { inner, .. } => add_calls(names, inner.get(), into)?,
        Expr::Call { name, args, .. } => {
            add_callee(names, name.bytes(), into)?;
            add_all_calls(names, args.as_slice(), into)?;
        }
        Expr::Index { base, index, .. } => {
            add_calls(names, base.get(), into)?;
            add_calls(names, index.get(), into)?;
        }
        Expr::Member { base, field, .. } => {
            add_calls(names, base.get(), into)?;
            add_calls_in_field(names, field, into)?;
        }
        Expr::Binary { left, right, .. } => {
            add_calls(names, left.get(), into)?;
            add_calls(names, right.get(), into)?;
        }
        Expr::Assign { left, right, .. } => {
            add_calls(names, left.get(), into)?;
            add_calls(names, right.get(), into)?;
        }
        Expr::Cond { test, yes, no, .. } => {
            add_calls(names, test.get(), into)?;
            add_calls(names, yes.get(), into)?;
            add_calls(names, no.get(), into)?;
        }
    }
    Ok(())
}

/// Appends those that are called in expressions.
#[cycle(calls)]
fn add_all_calls(names: &Names, all: &[Expr], into: &mut Vec<u32>) -> Result<(), NoMemory>
    ensures { OnOk result (AreAdded names.now into.new.items into.old.items (calls_in_all all.now)) }
{
    for e in all {
        add_calls(names, e, into)?;
    }
    Ok(())
}

/// Appends those that are called in the index of a field.
#[tactic(auto, using(crate::proofs::FormLemmas::in_form, crate::proofs::CalleeLemmas::added))]
#[cycle(calls)]
pub(crate) fn add_calls_in_field(
    names: &Names,
    field: &Field,
    into: &mut Vec<u32>,
) -> Result<(), NoMemory>
    ensures { OnOk result (AreAdded names.now into.new.items into.old.items (calls_in_field field.now)) }
{
    match field {
        Field::Named { .. } => Ok(()),
        Field::Bytes { index, .. } => add_calls(names, index.get(), into),
    }
}

/// Appends those that are called in an expression that may be missing.
pub(crate) fn add_calls_in_part(
    names: &Names,
    part: &Option<Expr>,
    into: &mut Vec<u32>,
) -> Result<(), NoMemory>
    ensures { OnOk result (AreAdded names.now into.new.items into.old.items (calls_in_part part.now)) }
{
    match part {
        Some(e) => add_calls(names, e, into),
        None => Ok(()),
    }
}

/// Appends those that are called in a boxed expression that may be missing.
pub(crate) fn add_calls_in_boxed(
    names: &Names,
    part: &Option<Boxed<Expr>>,
    into: &mut Vec<u32>,
) -> Result<(), NoMemory>
    ensures { OnOk result (AreAdded names.now into.new.items into.old.items (calls_in_part part.now)) }
{
    match part {
        Some(e) => add_calls(names, e.get(), into),
        None => Ok(()),
    }
}
