// Where type_expressions lays variables.

ghost use Rattle.type_expressions.specs.Layout.{IsLayoutOf};

use check_names::Names;
use check_sorts::Constants;
use int_kinds::Kind;
use parser_tests::sources::program;
use std::alloc::Global;
use std::process::Abort;
use std::test::Fail;
use type_expressions::{Layout, cell_kinds, timer_units};

/// Variables lie one behind the other.
fn check_layout(rt: &impl Abort, layout: &Layout) {
    assert_eq!(rt; layout.slot(0), 15);
    assert_eq!(rt; layout.slot(2), 29);
    assert_eq!(rt; layout.timer(1), 0);
    assert_eq!(rt; layout.elements(2), 0);
}

/// Cells have kinds, and timers units.
fn check_cells(rt: &impl Abort, alloc: Global, names: &Names, layout: &Layout) -> Result<(), Fail>
    requires { IsLayoutOf names.now layout.now }
{
    let kinds = cell_kinds(alloc, names, layout)?;
    assert_eq!(rt; kinds.len(), 30);
    assert_eq!(rt; kinds.as_slice().get(29).copied(), Some(Kind::Byte));
    assert_eq!(rt; timer_units(alloc, names)?.as_slice(), [1_000].as_slice());
    Ok(())
}

/// The variables of this program lie one behind the other, with their kinds and units.
fn check_program(rt: &impl Abort, alloc: Global, names: &Names) -> Result<(), Fail> {
    let constants = Constants::build(alloc, names)?;
    let layout = Layout::build(alloc, names, &constants)?.ok_or("it has few cells")?;
    check_layout(rt, &layout);
    check_cells(rt, alloc, names, &layout)
}

#[test]
fn variables_lie_one_behind_the_other(rt: HostRuntime) -> Result<(), Fail> {
    let alloc = rt.alloc();
    let program = program(alloc, "variables { message * m; msTimer t; byte b; }")?;
    let named = Names::build(alloc, &program, None)?;
    check_program(&rt, alloc, &named.names)
}
