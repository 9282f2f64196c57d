// What checking short sources gives.

use capl_tree::weight_of;
use check_types::{CheckRefusal, check};
use parser_tests::sources::program;
use std::alloc::Global;
use std::process::Abort;
use std::test::Fail;
use typed_tree::Typed;

/// What checking a source gives, where each token of it stands on line 7.
fn checked(alloc: Global, source: &str) -> Result<Result<Typed, CheckRefusal>, Fail> {
    let program = program(alloc, source)?;
    if weight_of(&program) > 1_000_000 {
        return Err(Fail::new("heavy"));
    }
    let row = vec![in alloc; 7u32; 200]?;
    let lines = vec![in alloc; row]?;
    Ok(check(alloc, &program, lines.as_slice(), None))
}

/// The typed program has a function, two event procedures, which stand on line 7, a timer and a format.
fn check_typed(rt: &impl Abort, typed: &Typed) {
    assert_eq!(rt; typed.functions.as_slice().len(), 1);
    assert_eq!(rt; typed.handlers.as_slice().len(), 2);
    assert_eq!(rt; typed.cells.as_slice().len(), 17);
    assert_eq!(rt; typed.timers.as_slice().len(), 1);
    assert_eq!(rt; typed.formats.as_slice().len(), 1);
    for handler in typed.handlers.as_slice() {
        assert_eq!(rt; handler.line, 7);
    }
}

#[test]
fn an_accepted_program_is_typed(rt: HostRuntime) -> Result<(), Fail> {
    let source = "variables { msTimer t; long a = 5; } \
        long twice(long n) { return 2 * n; } \
        on timer t { a = twice(a); } \
        on message 0x100 { write(\"%d\", this.byte(0)); }";
    match checked(rt.alloc(), source)? {
        Ok(typed) => check_typed(&rt, &typed),
        Err(_) => return Err(Fail::new("it is refused")),
    }
    Ok(())
}

#[test]
fn a_program_is_refused_for_its_first_offence(rt: HostRuntime) -> Result<(), Fail> {
    let source = "on start { break; a = 1; }";
    match checked(rt.alloc(), source)? {
        Err(CheckRefusal::Offends(offence)) => {
            assert_eq!(rt; (offence.token, offence.rule.number), (3, 22));
            Ok(())
        }
        _ => Err(Fail::new("it has an offence")),
    }
}

#[test]
fn a_program_of_too_many_cells_is_refused(rt: HostRuntime) -> Result<(), Fail> {
    match checked(rt.alloc(), "variables { byte a[1000000]; byte b; }")? {
        Err(CheckRefusal::Size) => Ok(()),
        _ => Err(Fail::new("it is too large")),
    }
}
