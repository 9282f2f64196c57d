// Scopes, sorts, formats and constants of check_sorts.

ghost use Rattle.check_names.specs.Few.{IsFew};
ghost use Rattle.check_sorts.specs.Constant.{AreConstantsOf};

use capl_meaning::{Builtin, MessageField, Sort};
use capl_tree::{Expr, Program};
use check_names::Names;
use check_sorts::{
    Callee, Constants, Held, Member, Scope, member_named, places_of_meaning, sort_of_binary,
    sort_of_builtin, sort_of_element, sort_of_member, sort_of_number,
};
use dbc_reader::{Database, read};
use int_kinds::{BinOp, Kind};
use parser_tests::sources::{number, program};
use signal_codec::Layout;
use std::alloc::Global;
use std::process::Abort;
use std::test::Fail;
use texts::{NoMemory, Text};

/// A name in the source.
fn name(alloc: Global, name: &[u8]) -> Result<Expr, NoMemory> {
    let name = Text::make(alloc, name)?;
    Ok(Expr::Name { name, at: 30 })
}

/// A constant, an array and a message of the database.
static DECLARED: &str = "variables { const long a = 5; byte b[a + 1]; message M m; }";

/// An element has no length, an array that of its size, and 0 is the length of none.
fn check_lengths(rt: &impl Abort, names: &Names, constants: &Constants)
    requires { AreConstantsOf names.now constants.now }
{
    assert_eq!(rt; constants.elements(names, 0), 0);
    assert_eq!(rt; constants.elements(names, 1), 6);
    let length = constants.length_at(Scope::outside(names, 0), 30, &number(0, 30));
    assert_eq!(rt; length, None);
}

/// A constant has its value behind its declaration.
fn check_value(
    rt: &impl Abort,
    alloc: Global,
    names: &Names,
    constants: &Constants,
) -> Result<(), Fail>
    requires { AreConstantsOf names.now constants.now }
{
    let word = name(alloc, b"a")?;
    for (token, value) in [(30, Some(5)), (4, None)] {
        let found = constants.constant_at(Scope::outside(names, 0), token, &word);
        assert_eq!(rt; found, value);
    }
    Ok(())
}

/// Constants have values, and arrays lengths.
fn check_constants(rt: &impl Abort, alloc: Global, names: &Names) -> Result<(), Fail> {
    let constants = Constants::build(alloc, names)?;
    check_lengths(rt, names, &constants);
    check_value(rt, alloc, names, &constants)
}

/// Names have sorts, and calls functions.
fn check_words(rt: &impl Abort, names: &Names) {
    let scope = Scope::outside(names, 0);
    assert_eq!(rt; scope.variable(b"b", 30), Some(1));
    for (word, sort) in [
        (b"b".as_slice(), Sort::Array(Kind::Byte)),
        (b"RX", Sort::Number(Kind::Long)),
        (b"x", Sort::Bad),
    ] {
        assert_eq!(rt; scope.sort_of_name(word, 30), sort);
    }
    assert_eq!(rt; scope.callee(b"write"), Callee::Language(Builtin::Write));
    assert_eq!(rt; scope.callee(b"a"), Callee::Unknown);
}

/// An expression may be the name of an array.
fn check_array(rt: &impl Abort, alloc: Global, names: &Names) -> Result<(), Fail> {
    let word = name(alloc, b"b")?;
    let scope = Scope::outside(names, 0);
    assert_eq!(rt; scope.array_in(&word), Some(1));
    assert_eq!(rt; scope.timer_in(&word), None);
    for declared in names.variables() {
        assert_eq!(rt; Scope::of_declared(names, declared).owner, 0);
    }
    Ok(())
}

/// What is declared outside of procedures.
fn check_declared(rt: &impl Abort, alloc: Global, program: &Program) -> Result<(), Fail>
    requires { IsFew program.now }
{
    let named = Names::build(alloc, program, None)?;
    let names = &named.names;
    check_words(rt, names);
    check_array(rt, alloc, names)?;
    check_constants(rt, alloc, names)
}

#[test]
fn names_constants_and_arrays(rt: HostRuntime) -> Result<(), Fail> {
    let program = program(rt.alloc(), DECLARED)?;
    check_declared(&rt, rt.alloc(), &program)
}

/// A signal of 33 bits from the first one on.
const LAYOUT: Layout = Layout {
    start: 0,
    len: 33,
    big: false,
    signed: false,
};

/// A message has fields, and signals where the database has it.
fn check_members(rt: &impl Abort, held: Option<Held>) {
    let Some(Held::Variable { number, signals }) = held else {
        panic!(rt; "it is a message");
    };
    assert_eq!(rt; number, 2);
    for (word, member) in [
        (b"DLC".as_slice(), Member::Field(MessageField::Dlc)),
        (b"Dlc", Member::Unknown { by_name: true }),
        (b"V", Member::Signal(LAYOUT)),
    ] {
        assert_eq!(rt; member_named(signals, word), member);
    }
}

/// A message is a place.
fn check_message(rt: &impl Abort, alloc: Global, names: &Names) -> Result<(), Fail> {
    let word = name(alloc, b"m")?;
    let scope = Scope::outside(names, 0);
    assert!(rt; scope.places(&word).message);
    assert!(rt; places_of_meaning(scope.meaning(b"m", 30)).message);
    check_members(rt, scope.message_in(&word));
    Ok(())
}

/// A constant is none.
fn check_constant(rt: &impl Abort, alloc: Global, names: &Names) -> Result<(), Fail> {
    let word = name(alloc, b"a")?;
    assert!(rt; !Scope::outside(names, 0).is_number_place(&word));
    Ok(())
}

/// What is declared beside a database.
fn check_beside(
    rt: &impl Abort,
    alloc: Global,
    program: &Program,
    base: &Database,
) -> Result<(), Fail>
    requires { IsFew program.now }
{
    let named = Names::build(alloc, program, Some(base))?;
    let names = &named.names;
    check_message(rt, alloc, names)?;
    check_constant(rt, alloc, names)
}

#[test]
fn messages_and_their_members(rt: HostRuntime) -> Result<(), Fail> {
    let text = b"BO_ 5 M: 8 N\n SG_ V : 0|33@1+ (1,0) [0|1] \"\" N\n";
    let base = read(rt.alloc(), text)?;
    let program = program(rt.alloc(), DECLARED)?;
    check_beside(&rt, rt.alloc(), &program, &base)
}

#[test]
fn sorts_of_forms(rt: HostRuntime) {
    let word = Sort::Number(Kind::Word);
    let int = Sort::Number(Kind::Int);
    for (found, wanted) in [
        (
            sort_of_member(Member::Signal(LAYOUT)),
            Sort::Number(Kind::Int64),
        ),
        (
            sort_of_binary(BinOp::Add, word, int),
            Sort::Number(Kind::Long),
        ),
        (sort_of_binary(BinOp::Add, word, Sort::Text), Sort::Bad),
        (
            sort_of_number(Some(1 << 31), false),
            Sort::Number(Kind::Dword),
        ),
        (sort_of_element(Sort::Array(Kind::Int), word), int),
        (
            sort_of_builtin(Builtin::Write, Some(b"%d"), &[Sort::Text, int]),
            Sort::Nothing,
        ),
        (
            sort_of_builtin(Builtin::Write, Some(b"%s"), &[Sort::Text, int]),
            Sort::Bad,
        ),
        (
            sort_of_builtin(Builtin::TimeNow, None, &[]),
            Sort::Number(Kind::Dword),
        ),
    ] {
        assert_eq!(rt; found, wanted);
    }
}
