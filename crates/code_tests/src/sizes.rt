// The size that code_size gives of a program.

use code_size::size_of;
use int_kinds::Kind;
use items::Items;
use std::alloc::{AllocError, Global};
use std::test::Fail;
use typed_tree::{TExpr, TFun, TStmt, Typed};

/// `long f() { now; }`
fn function(alloc: Global) -> Result<TFun, AllocError> {
    Ok(TFun {
        params: Items::new(alloc),
        gives: Some(Kind::Long),
        body: Items::from_list(vec![in alloc; TStmt::Eval(TExpr::Now)]?),
    })
}

/// A program of that function alone.
fn program(alloc: Global) -> Result<Typed, AllocError> {
    Ok(Typed {
        functions: Items::from_list(vec![in alloc; function(alloc)?]?),
        handlers: Items::new(alloc),
        cells: Items::new(alloc),
        starts: Items::new(alloc),
        timers: Items::new(alloc),
        formats: Items::new(alloc),
    })
}

#[test]
fn instructions_are_counted(rt: HostRuntime) -> Result<(), Fail> {
    let typed = program(rt.alloc())?;
    // `Now` and `Drop`, and at the end `Push 0` and `Ret`.
    assert_eq!(rt; size_of(rt.alloc(), &typed), Ok(4));
    Ok(())
}
