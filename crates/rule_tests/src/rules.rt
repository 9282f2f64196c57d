// Expressions and programs that break rules, and such that break none.

ghost use Rattle.check_calls.specs.Calls.{AreCallsOf};
ghost use Rattle.check_names.specs.Few.{IsFew};

use capl_meaning::{Offence, Sort};
use capl_tree::{Expr, Program};
use check_calls::Calls;
use check_expressions::{judge, judge_field, judge_integer, source_rule};
use check_names::Names;
use check_sorts::{Constants, Scope};
use check_statements::first_offence;
use int_kinds::Kind;
use parser_tests::sources::{expression, number, program};
use std::alloc::Global;
use std::process::Abort;
use std::test::Fail;

/// The offence against the rule of a number at a token of the first file.
fn offence(token: u32, number: u8) -> Option<Offence> {
    Some(Offence {
        file: 0,
        token,
        rule: source_rule(number),
    })
}

/// What a sum with a text breaks outside of procedures.
fn check_sum(rt: &impl Abort, alloc: Global, names: &Names, calls: &Calls) -> Result<(), Fail>
    requires { AreCallsOf names.now calls.now }
{
    let program = program(alloc, "f() { 7 + \"a\"; }")?;
    let sum = expression(&program)?;
    let mut first = None;
    let sort = judge(alloc, Scope::outside(names, 0), calls, sum, &mut first)?;
    assert_eq!(rt; sort, Sort::Bad);
    assert_eq!(rt; first, offence(6, 13));
    Ok(())
}

/// A number breaks nothing.
fn check_number(rt: &impl Abort, alloc: Global, names: &Names, calls: &Calls) -> Result<(), Fail>
    requires { AreCallsOf names.now calls.now }
{
    let seven = number(7, 1);
    let mut none = None;
    let sort = judge_integer(alloc, Scope::outside(names, 0), calls, &seven, &mut none)?;
    assert_eq!(rt; sort, Sort::Number(Kind::Long));
    assert_eq!(rt; none, None);
    Ok(())
}

/// What `word(this)` breaks outside of procedures.
fn check_field(rt: &impl Abort, alloc: Global, names: &Names, calls: &Calls) -> Result<(), Fail>
    requires { AreCallsOf names.now calls.now }
{
    let program = program(alloc, "f() { m.word(this); }")?;
    let Expr::Member { field, .. } = expression(&program)? else {
        return Err("it is a member".into());
    };
    let mut outside = None;
    let sort = judge_field(alloc, Scope::outside(names, 0), calls, field, &mut outside)?;
    assert_eq!(rt; sort, Some(Sort::Bad));
    assert_eq!(rt; outside, offence(8, 15));
    Ok(())
}

#[test]
fn expressions_are_judged(rt: HostRuntime) -> Result<(), Fail> {
    let alloc = rt.alloc();
    let program = program(alloc, "")?;
    let named = Names::build(alloc, &program, None)?;
    let names = &named.names;
    let calls = Calls::build(alloc, names)?;
    check_sum(&rt, alloc, names, &calls)?;
    check_number(&rt, alloc, names, &calls)?;
    check_field(&rt, alloc, names, &calls)
}

/// The first offence of a program without a database.
fn first_of(alloc: Global, program: &Program) -> Result<Option<Offence>, Fail>
    requires { IsFew program.now }
{
    let named = Names::build(alloc, program, None)?;
    let names = &named.names;
    let constants = Constants::build(alloc, names)?;
    let calls = Calls::build(alloc, names)?;
    Ok(first_offence(alloc, program, &named, &constants, &calls)?)
}

#[test]
fn the_first_offence_of_a_program_is_told(rt: HostRuntime) -> Result<(), Fail> {
    for (source, wanted) in [
        ("on start { }", None),
        ("on start { break; continue; }", offence(3, 22)),
    ] {
        let program = program(rt.alloc(), source)?;
        assert_eq!(rt; first_of(rt.alloc(), &program)?, wanted);
    }
    Ok(())
}
