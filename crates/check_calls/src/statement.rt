// The functions that are called in statements.

ghost use Rattle.std.specs.Prelude.{◌≡◌, ◌++◌, OnOk, flat_map};
ghost use Rattle.std.specs.Option.{option_to_list};
ghost use Rattle.capl_meaning.specs.Calls.{calls_in_declarator, calls_in_init, calls_in_item, calls_in_labels, names_called};
ghost use Rattle.check_calls.specs.Callees.{calls_of_all};
ghost use Rattle.check_calls.specs.Inside.Added.{AreAdded, calls_of_cases, calls_of_list, calls_of_other};

use crate::expression::{add_calls, add_calls_in_boxed, add_calls_in_field, add_calls_in_part};
use capl_tree::{Arm, Declr, Group, Init, Item, Label, Stmt};
use check_names::Names;
use items::Boxed;
use texts::NoMemory;

/// Appends the functions of the program that are called in an item of an initialiser.
fn add_calls_in_item(names: &Names, item: &Item, into: &mut Vec<u32>) -> Result<(), NoMemory>
    ensures { OnOk result (AreAdded names.now into.new.items into.old.items (calls_in_item item.now)) }
{
    match item {
        Item::Plain(value) => add_calls(names, value, into),
        Item::Set { field, value } => {
            add_calls_in_field(names, field, into)?;
            add_calls(names, value, into)?;
            Ok(())
        }
    }
}

/// Appends those that are called in items of an initialiser.
fn add_calls_in_items(names: &Names, items: &[Item], into: &mut Vec<u32>) -> Result<(), NoMemory>
    ensures { OnOk result (AreAdded names.now into.new.items into.old.items
        (flat_map calls_in_item items.now)) }
{
    for item in items {
        add_calls_in_item(names, item, into)?;
    }
    Ok(())
}

/// Appends those that are called in an initialiser.
fn add_calls_in_init(names: &Names, init: &Init, into: &mut Vec<u32>) -> Result<(), NoMemory>
    ensures { OnOk result (AreAdded names.now into.new.items into.old.items (calls_in_init init.now)) }
{
    match init {
        Init::One(value) => add_calls(names, value, into),
        Init::Many { items, .. } => add_calls_in_items(names, items.as_slice(), into),
    }
}

/// Appends those that are called in an initialiser that may be missing.
fn add_calls_in_start(
    names: &Names,
    init: &Option<Boxed<Init>>,
    into: &mut Vec<u32>,
) -> Result<(), NoMemory>
    ensures { OnOk result (AreAdded names.now into.new.items into.old.items
        (flat_map calls_in_init (option_to_list init.now))) }
{
    match init {
        Some(init) => add_calls_in_init(names, init.get(), into),
        None => Ok(()),
    }
}

/// Appends those that are called in a declared variable.
fn add_calls_in_declarator(
    names: &Names,
    declarator: &Declr,
    into: &mut Vec<u32>,
) -> Result<(), NoMemory>
    ensures { OnOk result (AreAdded names.now into.new.items into.old.items
        (calls_in_declarator declarator.now)) }
{
    add_calls_in_boxed(names, &declarator.size, into)?;
    add_calls_in_start(names, &declarator.init, into)?;
    Ok(())
}

/// Appends those that are called in declared variables.
fn add_calls_in_declarators(
    names: &Names,
    declarators: &[Declr],
    into: &mut Vec<u32>,
) -> Result<(), NoMemory>
    ensures { OnOk result (AreAdded names.now into.new.items into.old.items
        (flat_map calls_in_declarator declarators.now)) }
{
    for declarator in declarators {
        add_calls_in_declarator(names, declarator, into)?;
    }
    Ok(())
}

/// Appends those that are called in labels.
fn add_calls_in_labels(names: &Names, labels: &[Label], into: &mut Vec<u32>) -> Result<(), NoMemory>
    ensures { OnOk result (AreAdded names.now into.new.items into.old.items (calls_in_labels labels.now)) }
{
    for label in labels {
        add_calls_in_part(names, &label.value, into)?;
    }
    Ok(())
}

/// Appends the functions of the program that are called in a statement.
#[tactic(auto, using(crate::proofs::FormLemmas::of_form, crate::proofs::CalleeLemmas::added))]
#[cycle(calls)]
fn add_calls_of(names: &Names, statement: &Stmt, into: &mut Vec<u32>) -> Result<(), NoMemory>
    ensures { OnOk result (AreAdded names.now into.new.items into.old.items (names_called statement.now)) }
{
    match statement {
        Stmt::Empty | Stmt::Break { .. } | Stmt::Continue { .. } => {}
        Stmt::Expr(e) => add_calls(names, e, into)?,
        Stmt::Decl(decl) => add_calls_in_declarators(names, decl.items.as_slice(), into)?,
        Stmt::Return { value, .. } => add_calls_in_boxed(names, value, into)?,
        Stmt::Block(body) => add_calls_of_all(names, body.as_slice(), into)?,
        Stmt::If { arms, other } => {
            add_calls_of_arms(names, arms.as_slice(), into)?;
            add_calls_of_other(names, other, into)?;
        }
        Stmt::While { test, body } => {
            add_calls(names, test, into)?;
            add_calls_of(names, body.get(), into)?;
        }
        Stmt::Do { body, test } => {
            add_calls_of(names, body.get(), into)?;
            add_calls(names, test, into)?;
        }
        Stmt::For {
            init,
            test,
            step,
            body,
        } => {
            add_calls_in_boxed(names, init, into)?;
            add_calls_in_boxed(names, test, into)?;
            add_calls_in_boxed(names, step, into)?;
            add_calls_of(names, body.get(), into)?;
        }
        Stmt::Switch { on, groups } => {
            add_calls(names, on.get(), into)?;
            add_calls_of_groups(names, groups.as_slice(), into)?;
        }
    }
    Ok(())
}

/// Appends those that are called in statements.
#[cycle(calls)]
pub(crate) fn add_calls_of_all(
    names: &Names,
    statements: &[Stmt],
    into: &mut Vec<u32>,
) -> Result<(), NoMemory>
    ensures { OnOk result (AreAdded names.now into.new.items into.old.items (calls_of_all statements.now)) }
{
    for statement in statements {
        add_calls_of(names, statement, into)?;
    }
    Ok(())
}

/// Appends those that are called in the arms of an `if`.
#[cycle(calls)]
fn add_calls_of_arms(names: &Names, arms: &[Arm], into: &mut Vec<u32>) -> Result<(), NoMemory>
    ensures { OnOk result (AreAdded names.now into.new.items into.old.items (calls_of_list arms.now)) }
{
    for arm in arms {
        add_calls(names, &arm.test, into)?;
        add_calls_of(names, &arm.body, into)?;
    }
    Ok(())
}

/// Appends those that are called behind a last `else`.
#[cycle(calls)]
fn add_calls_of_other(
    names: &Names,
    other: &Option<Boxed<Stmt>>,
    into: &mut Vec<u32>,
) -> Result<(), NoMemory>
    ensures { OnOk result (AreAdded names.now into.new.items into.old.items (calls_of_other other.now)) }
{
    if let Some(body) = other {
        add_calls_of(names, body.get(), into)?;
    }
    Ok(())
}

/// Appends those that are called in the groups of a `switch`.
#[cycle(calls)]
fn add_calls_of_groups(names: &Names, groups: &[Group], into: &mut Vec<u32>) -> Result<(), NoMemory>
    ensures { OnOk result (AreAdded names.now into.new.items into.old.items (calls_of_cases groups.now)) }
{
    for group in groups {
        add_calls_in_labels(names, group.labels.as_slice(), into)?;
        add_calls_of_all(names, group.body.as_slice(), into)?;
    }
    Ok(())
}
