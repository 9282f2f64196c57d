// The order of functions, and recursion.

use check_calls::{Calls, laws};
use check_names::Names;
use parser_tests::sources::program;
use std::alloc::Global;
use std::process::Abort;
use std::test::Fail;
use texts::NoMemory;

/// The number of a procedure, that of a function which is called in it, and whether the call is recursive.
type Call = (u32, u32, bool);

/// A source, how many functions are in order, and calls.
type Row = (&'static str, usize, &'static [Call]);

const ROWS: [Row; 3] = [
    (
        "f() { g(); stop(); } g() { h(); h(); } h() { stop(); stop(); }",
        3,
        &[(1, 1, false), (0, 0, false), (3, 0, true)],
    ),
    // Two that go round.
    (
        "f() { g(); stop(); } g() { f(); stop(); }",
        2,
        &[(1, 1, true), (2, 0, true), (0, 0, false)],
    ),
    // Three that go round, called by one and calling one. The last is no call of the program: from `f` the
    // function `end` is reached.
    (
        "start() { f(); } f() { g(); } g() { h(); } h() { last(); f(); } last() { end(); } end() { }",
        6,
        &[
            (1, 1, false),
            (2, 2, true),
            (3, 3, true),
            (4, 1, true),
            (4, 4, false),
            (5, 5, false),
            (6, 1, true),
        ],
    ),
];

/// The calls of a source.
fn calls_of(alloc: Global, source: &str) -> Result<Calls, Fail> {
    let program = program(alloc, source)?;
    let named = Names::build(alloc, &program, None)?;
    let names = &named.names;
    Ok(Calls::build(alloc, names)?)
}

/// Whether each of these calls is recursive that shall be, and no other.
fn are_told(alloc: Global, calls: &Calls, wanted: &[Call]) -> Result<bool, NoMemory> {
    for (owner, function, recursive) in wanted {
        if calls.is_recursive(alloc, *owner, *function)? != *recursive {
            return Ok(false);
        }
    }
    Ok(true)
}

/// A function stands behind those that it calls, where none goes round.
fn check_order(rt: &impl Abort, calls: &Calls) {
    assert_eq!(rt; calls.order(), [3, 2, 1].as_slice());
    assert_eq!(rt; calls.indices(), [2, 1, 0].as_slice());
    assert_eq!(rt; calls.place(0), 2);
}

#[test]
fn functions_stand_behind_what_they_call(rt: HostRuntime) -> Result<(), Fail> {
    let calls = calls_of(rt.alloc(), ROWS[0].0)?;
    check_order(&rt, &calls);
    Ok(())
}

#[test]
fn functions_that_go_round_are_recursive(rt: HostRuntime) -> Result<(), Fail> {
    for (source, count, wanted) in ROWS {
        let calls = calls_of(rt.alloc(), source)?;
        assert_eq!(rt; calls.order().len(), count);
        assert!(rt; are_told(rt.alloc(), &calls, wanted)?, "{source}");
    }
    Ok(())
}

#[test]
fn laws_can_be_called() {
    laws::orders_are_good();
}
