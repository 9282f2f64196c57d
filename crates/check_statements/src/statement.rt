// The rules of statements.

ghost use Rattle.std.specs.Prelude.{◌≡◌, ◌++◌, OnOk, flat_map};
ghost use Rattle.capl_meaning.specs.StatementRules.{alone_offences, label_offences, labels_rule, needed_offences, return_rule, statement_offences};
ghost use Rattle.capl_meaning.specs.ExpressionRules.{integer_offences};
ghost use Rattle.capl_meaning.specs.Sort.{sort_of};
ghost use Rattle.check_names.specs.First.{noted};
ghost use Rattle.check_statements.specs.Site.{IsReady, place_of};
ghost use Rattle.check_statements.specs.Statement.{all_offences, arm_offences, around_in, else_offences, group_offences, labels_in};

use crate::around::{Around, in_loop, in_switch};
use crate::constant::judge_constant;
use crate::declaration::judge_declaration;
use crate::label::note_labels;
use crate::site::Site;
use capl_meaning::Offence;
use capl_tree::{Arm, Expr, Group, Label, Stmt};
use check_expressions::{judge, judge_integer, note_broken};
use items::Boxed;
use std::alloc::Global;
use texts::NoMemory;

/// Notes what an expression that stands alone breaks, if it is there.
fn judge_alone(
    alloc: Global,
    site: &Site,
    part: &Option<Boxed<Expr>>,
    first: &mut Option<Offence>,
) -> Result<(), NoMemory>
    requires { IsReady site.now }
    ensures { OnOk result (first.new ≡ noted first.old (alone_offences (place_of site.now) part.now)) }
{
    if let Some(e) = part {
        judge(alloc, site.scope, site.calls, e.get(), first)?;
    }
    Ok(())
}

/// Notes what an expression breaks of which an integer is needed, if it is there.
fn judge_needed(
    alloc: Global,
    site: &Site,
    part: &Option<Boxed<Expr>>,
    first: &mut Option<Offence>,
) -> Result<(), NoMemory>
    requires { IsReady site.now }
    ensures { OnOk result (first.new ≡ noted first.old (needed_offences (place_of site.now) part.now)) }
{
    if let Some(e) = part {
        judge_integer(alloc, site.scope, site.calls, e.get(), first)?;
    }
    Ok(())
}

/// Notes a `return` with a value where nothing is given, or without one where a number is.
fn note_return(site: &Site, at: u32, value: &Option<Boxed<Expr>>, first: &mut Option<Offence>)
    ensures { first.new ≡ noted first.old
        (return_rule (place_of site.now) at site.now.scope.gives value.now) }
{
    let broken = value.is_some() != site.scope.gives.is_some();
    note_broken(site.scope, broken, at, 24, first);
}

/// Notes what the value of a label breaks.
fn judge_label(
    alloc: Global,
    site: &Site,
    label: &Label,
    first: &mut Option<Offence>,
) -> Result<(), NoMemory>
    requires { IsReady site.now }
    ensures { OnOk result (first.new ≡ noted first.old (label_offences (place_of site.now) label.now)) }
{
    if let Some(value) = &label.value {
        judge_constant(alloc, site, label.at, value, first)?;
    }
    Ok(())
}

/// Notes what the values of labels break.
fn judge_labels(
    alloc: Global,
    site: &Site,
    labels: &[Label],
    first: &mut Option<Offence>,
) -> Result<(), NoMemory>
    requires { IsReady site.now }
    ensures { OnOk result (first.new ≡
        noted first.old (flat_map (label_offences (place_of site.now)) labels.now)) }
{
    for label in labels {
        judge_label(alloc, site, label, first)?;
    }
    Ok(())
}

/// Notes what the value and the labels of a `switch` break.
#[tactic(auto, using(check_names::proofs::FirstLemmas::noted_append))]
fn judge_switch(
    alloc: Global,
    site: &Site,
    on: &Expr,
    groups: &[Group],
    first: &mut Option<Offence>,
) -> Result<(), NoMemory>
    requires { IsReady site.now }
    ensures { OnOk result (first.new ≡ noted first.old (integer_offences (place_of site.now) on.now
        ++ labels_rule (place_of site.now) (sort_of (place_of site.now) on.now) (labels_in groups.now))) }
{
    let sort = judge_integer(alloc, site.scope, site.calls, on, first)?;
    note_labels(alloc, site, sort, groups, first)?;
    Ok(())
}

/// Notes what a `return` breaks.
#[tactic(auto, using(check_names::proofs::FirstLemmas::noted_append))]
fn judge_return(
    alloc: Global,
    site: &Site,
    at: u32,
    value: &Option<Boxed<Expr>>,
    first: &mut Option<Offence>,
) -> Result<(), NoMemory>
    requires { IsReady site.now }
    ensures { OnOk result (first.new ≡
        noted first.old (return_rule (place_of site.now) at site.now.scope.gives value.now
        ++ needed_offences (place_of site.now) value.now)) }
{
    note_return(site, at, value, first);
    judge_needed(alloc, site, value, first)?;
    Ok(())
}

/// Notes what a statement and its parts break.
#[tactic(auto, using(check_names::proofs::FirstLemmas::noted_append, crate::proofs::StatementLemmas::forms))]
#[cycle(statement)]
fn judge_statement(
    alloc: Global,
    site: &Site,
    around: Around,
    statement: &Stmt,
    first: &mut Option<Offence>,
) -> Result<(), NoMemory>
    requires { IsReady site.now }
    ensures { OnOk result (first.new ≡ noted first.old
        (statement_offences (place_of site.now) (around_in around) statement.now)) }
{
    match statement {
        Stmt::Empty => {}
        Stmt::Block(body) => judge_all(alloc, site, around, body.as_slice(), first)?,
        Stmt::Decl(decl) => judge_declaration(alloc, site, decl, first)?,
        Stmt::Expr(e) => {
            judge(alloc, site.scope, site.calls, e, first)?;
        }
        Stmt::If { arms, other } => {
            judge_arms(alloc, site, around, arms.as_slice(), first)?;
            judge_else(alloc, site, around, other, first)?;
        }
        Stmt::While { test, body } => {
            judge_integer(alloc, site.scope, site.calls, test, first)?;
            judge_statement(alloc, site, in_loop(), body.get(), first)?;
        }
        Stmt::Do { body, test } => {
            judge_statement(alloc, site, in_loop(), body.get(), first)?;
            judge_integer(alloc, site.scope, site.calls, test, first)?;
        }
        Stmt::For {
            init,
            test,
            step,
            body,
        } => {
            judge_alone(alloc, site, init, first)?;
            judge_needed(alloc, site, test, first)?;
            judge_alone(alloc, site, step, first)?;
            judge_statement(alloc, site, in_loop(), body.get(), first)?;
        }
        Stmt::Switch { on, groups } => {
            judge_switch(alloc, site, on.get(), groups.as_slice(), first)?;
            judge_groups(alloc, site, in_switch(around), groups.as_slice(), first)?;
        }
        Stmt::Break { at } => note_broken(site.scope, !around.breakable, *at, 22, first),
        Stmt::Continue { at } => note_broken(site.scope, !around.continuable, *at, 22, first),
        Stmt::Return { value, at } => judge_return(alloc, site, *at, value, first)?,
    }
    Ok(())
}

/// Notes what statements break.
#[cycle(statement)]
pub(crate) fn judge_all(
    alloc: Global,
    site: &Site,
    around: Around,
    statements: &[Stmt],
    first: &mut Option<Offence>,
) -> Result<(), NoMemory>
    requires { IsReady site.now }
    ensures { OnOk result (first.new ≡ noted first.old
        (all_offences (place_of site.now) (around_in around) statements.now)) }
{
    for statement in statements {
        judge_statement(alloc, site, around, statement, first)?;
    }
    Ok(())
}

/// Notes what the arms of an `if` break.
#[tactic(auto, using(check_names::proofs::FirstLemmas::noted_append))]
#[cycle(statement)]
fn judge_arms(
    alloc: Global,
    site: &Site,
    around: Around,
    arms: &[Arm],
    first: &mut Option<Offence>,
) -> Result<(), NoMemory>
    requires { IsReady site.now }
    ensures { OnOk result (first.new ≡ noted first.old
        (flat_map (arm_offences (place_of site.now) (around_in around)) arms.now)) }
{
    for arm in arms {
        judge_integer(alloc, site.scope, site.calls, &arm.test, first)?;
        judge_statement(alloc, site, around, &arm.body, first)?;
    }
    Ok(())
}

/// Notes what stands behind a last `else` breaks.
#[cycle(statement)]
fn judge_else(
    alloc: Global,
    site: &Site,
    around: Around,
    other: &Option<Boxed<Stmt>>,
    first: &mut Option<Offence>,
) -> Result<(), NoMemory>
    requires { IsReady site.now }
    ensures { OnOk result (first.new ≡ noted first.old
        (else_offences (place_of site.now) (around_in around) other.now)) }
{
    if let Some(body) = other {
        judge_statement(alloc, site, around, body.get(), first)?;
    }
    Ok(())
}

/// Notes what the groups of a `switch` break.
#[tactic(auto, using(check_names::proofs::FirstLemmas::noted_append))]
#[cycle(statement)]
fn judge_groups(
    alloc: Global,
    site: &Site,
    around: Around,
    groups: &[Group],
    first: &mut Option<Offence>,
) -> Result<(), NoMemory>
    requires { IsReady site.now }
    ensures { OnOk result (first.new ≡ noted first.old
        (flat_map (group_offences (place_of site.now) (around_in around)) groups.now)) }
{
    for group in groups {
        judge_labels(alloc, site, group.labels.as_slice(), first)?;
        judge_all(alloc, site, around, group.body.as_slice(), first)?;
    }
    Ok(())
}
