// The trees of an expression, a place and arguments.

ghost use Rattle.std.specs.Prelude.{Some};
ghost use Rattle.typed_laws.specs.Laid.{AreDistinct};
ghost use Rattle.type_expressions.specs.Layout.{IsLaidOut};
ghost use Rattle.type_expressions.specs.Made.{AreTreeTables};

use capl_meaning::Sort;
use check_calls::Calls;
use check_names::Names;
use check_sorts::{Constants, Scope};
use int_kinds::{BinOp, Kind};
use parser_tests::sources::{expression, number, program, undeclared};
use std::alloc::Global;
use std::process::Abort;
use std::test::Fail;
use type_expressions::{Layout, TreeTables, make_expression, make_place, make_row};
use typed_tree::TExpr;

/// What the calls make of `1 + 3000000000`, where it stands outside of procedures.
fn check_sum(rt: &impl Abort, alloc: Global, names: &Names, tables: &TreeTables) -> Result<(), Fail>
    requires { AreTreeTables names.now tables.now }
{
    let scope = Scope::outside(names, 0);
    let program = program(alloc, "f() { 1 + 3000000000; }")?;
    let sum = expression(&program)?;
    let made = make_expression(alloc, scope, tables, sum)?;
    assert_eq!(rt; made.sort, Sort::Number(Kind::Dword));
    let is_sum = matches!(
        made.tree,
        TExpr::Binary {
            op: BinOp::Add,
            kind: Kind::Dword,
            ..
        }
    );
    assert!(rt; is_sum);
    let made = make_place(alloc, scope, tables, sum)?;
    assert!(rt; made.place.is_none());
    Ok(())
}

/// What is made of a row of a number.
fn check_row(rt: &impl Abort, alloc: Global, names: &Names, tables: &TreeTables) -> Result<(), Fail>
    requires { AreTreeTables names.now tables.now }
{
    let row = make_row(
        alloc,
        Scope::outside(names, 0),
        tables,
        [number(7, 0)].as_slice(),
    )?;
    assert_eq!(rt; row.trees.len(), 1);
    assert_eq!(rt; row.sorts.as_slice(), [Sort::Number(Kind::Long)].as_slice());
    Ok(())
}

/// What is made by the layout of a program without names of its own.
fn check_layout(rt: &impl Abort, alloc: Global, names: &Names, layout: &Layout) -> Result<(), Fail>
    requires layout { IsLaidOut names.now (Some layout.now) }
    requires distinct { AreDistinct names.now.variables }
{
    let calls = Calls::build(alloc, names)?;
    let tables = TreeTables {
        layout,
        calls: &calls,
    };
    check_sum(rt, alloc, names, &tables)?;
    check_row(rt, alloc, names, &tables)
}

/// What is made in such a program.
fn check_program(rt: &impl Abort, alloc: Global, names: &Names) -> Result<(), Fail>
    requires { AreDistinct names.now.variables }
{
    let constants = Constants::build(alloc, names)?;
    let layout = Layout::build(alloc, names, &constants)?.ok_or("it has few cells")?;
    check_layout(rt, alloc, names, &layout)
}

#[test]
fn expressions_have_trees(rt: HostRuntime) -> Result<(), Fail> {
    let alloc = rt.alloc();
    let program = undeclared(alloc);
    let named = Names::build(alloc, &program, None)?;
    check_program(&rt, alloc, &named.names)
}
