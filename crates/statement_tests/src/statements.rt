// The typed trees of statements.

ghost use Rattle.std.specs.Prelude.{Some};
ghost use Rattle.check_sorts.specs.Constant.{AreConstantsOf};
ghost use Rattle.typed_laws.specs.Laid.{AreDistinct};
ghost use Rattle.type_expressions.specs.Layout.{IsLaidOut};
ghost use Rattle.type_alone.specs.Tables.{AreTables};

use capl_tree::Stmt;
use check_calls::Calls;
use check_names::Names;
use check_sorts::{Constants, Scope};
use parser_tests::sources::{expression, program, undeclared};
use std::alloc::Global;
use std::process::Abort;
use std::test::Fail;
use type_alone::{StatementTables, make_alone};
use type_expressions::{Layout, TreeTables};
use type_statements::{make_body, make_statement};
use typed_tree::TStmt;

/// What is made of a `break`, outside of procedures.
fn check_break(
    rt: &impl Abort,
    alloc: Global,
    names: &Names,
    tables: &StatementTables,
) -> Result<(), Fail>
    requires { AreTables names.now tables.now }
{
    let scope = Scope::outside(names, 0);
    let mut formats = Vec::new(alloc);
    let made = make_statement(alloc, scope, tables, &mut formats, &Stmt::Break { at: 0 })?;
    assert!(rt; matches!(&made, TStmt::Break));
    Ok(())
}

/// What is made of two statements, outside of procedures.
fn check_body(
    rt: &impl Abort,
    alloc: Global,
    names: &Names,
    tables: &StatementTables,
) -> Result<(), Fail>
    requires { AreTables names.now tables.now }
{
    let scope = Scope::outside(names, 0);
    let mut formats = Vec::new(alloc);
    let body = [Stmt::Empty, Stmt::Continue { at: 1 }];
    let made = make_body(alloc, scope, tables, &mut formats, body.as_slice())?;
    assert_eq!(rt; made.len(), 2);
    assert_eq!(rt; formats.len(), 0);
    Ok(())
}

/// What is made of a `write`, outside of procedures.
fn check_write(
    rt: &impl Abort,
    alloc: Global,
    names: &Names,
    tables: &StatementTables,
) -> Result<(), Fail>
    requires { AreTables names.now tables.now }
{
    let program = program(alloc, "f() { write(\"%d\", 7); }")?;
    let write = expression(&program)?;
    let mut formats = Vec::new(alloc);
    let made = make_alone(alloc, Scope::outside(names, 0), tables, &mut formats, write)?;
    assert!(rt; matches!(&made, TStmt::Write { format: 0, .. }));
    assert_eq!(rt; formats.len(), 1);
    Ok(())
}

/// What is made by the tables of a program without names of its own.
fn check_tables<'t>(
    rt: &impl Abort,
    alloc: Global,
    names: &Names,
    constants: &'t Constants,
    layout: &'t Layout,
) -> Result<(), Fail>
    requires constants { AreConstantsOf names.now constants.now }
    requires layout { IsLaidOut names.now (Some layout.now) }
    requires distinct { AreDistinct names.now.variables }
{
    let calls = Calls::build(alloc, names)?;
    let tables = StatementTables {
        trees: TreeTables {
            layout,
            calls: &calls,
        },
        constants,
    };
    check_break(rt, alloc, names, &tables)?;
    check_body(rt, alloc, names, &tables)?;
    check_write(rt, alloc, names, &tables)
}

/// What is made in such a program.
fn check_program(rt: &impl Abort, alloc: Global, names: &Names) -> Result<(), Fail>
    requires { AreDistinct names.now.variables }
{
    let constants = Constants::build(alloc, names)?;
    let layout = Layout::build(alloc, names, &constants)?.ok_or("it has few cells")?;
    check_tables(rt, alloc, names, &constants, &layout)
}

#[test]
fn statements_have_trees(rt: HostRuntime) -> Result<(), Fail> {
    let alloc = rt.alloc();
    let program = undeclared(alloc);
    let named = Names::build(alloc, &program, None)?;
    check_program(&rt, alloc, &named.names)
}
