// Expressions that stand alone.

ghost use Rattle.std.specs.Prelude.{◌≡◌, ◌<◌, ◌^◌, ◌++◌, IfOk, OnOk, length};
ghost use Rattle.capl_meaning.specs.Names.{callee};
ghost use Rattle.typed_source.specs.Expression.{expression_of};
ghost use Rattle.typed_source.specs.Statement.{alone_of, formats_of_alone, formats_of_call, of_call_alone};
ghost use Rattle.typed_tree.specs.declared.statement.TStmt.TheVariants.{Eval};
ghost use Rattle.check_sorts.specs.Scope.{scope_in};
ghost use Rattle.type_alone.specs.Tables.{AreTables, order_of};

use crate::message::{assigned, evaluated, sent};
use crate::tables::StatementTables;
use crate::timer::{cancelled, set};
use crate::write::make_write;
use capl_meaning::Builtin;
use capl_tree::Expr;
use check_sorts::{Callee, Scope};
use std::alloc::Global;
use texts::NoMemory;
use typed_tree::TStmt;
use write_format::Format;

/// A call that stands alone, by the name and the arguments of the expression.
fn called(
    alloc: Global,
    scope: Scope,
    tables: &StatementTables,
    formats: &mut Vec<Format>,
    e: &Expr,
    name: &[u8],
    args: &[Expr],
) -> Result<TStmt, NoMemory>
    requires tables { AreTables scope.names.now tables.now }
    requires room { let s = scope_in scope in
        length (formats.old.items ++ formats_of_call s (callee s.names name.now) args.now) < 2 ^ 32 }
    ensures tree { let s = scope_in scope.entry in IfOk result (λ tree.
        tree ≡ of_call_alone s (order_of tables.now) (length formats.old.items)
        (callee s.names name.now) args.now (Eval (expression_of s (order_of tables.now) e.now))) }
    ensures formats { let s = scope_in scope.entry in OnOk result (formats.new.items
        ≡ formats.old.items ++ formats_of_call s (callee s.names name.now) args.now) }
{
    match (scope.callee(name), args) {
        (Callee::Language(Builtin::Output), [message]) => Ok(sent(scope, tables, message)),
        (Callee::Language(Builtin::Write), [format, arguments @ ..]) => {
            make_write(alloc, scope, tables, formats, format, arguments)
        }
        (Callee::Language(Builtin::SetTimer), [timer, duration]) => {
            set(alloc, scope, tables, timer, duration, false)
        }
        (Callee::Language(Builtin::SetTimerCyclic), [timer, duration]) => {
            set(alloc, scope, tables, timer, duration, true)
        }
        (Callee::Language(Builtin::CancelTimer), [timer]) => Ok(cancelled(scope, tables, timer)),
        (Callee::Language(Builtin::Stop), []) => Ok(TStmt::Halt),
        _ => evaluated(alloc, scope, tables, e),
    }
}

/// The typed tree of an expression that stands alone, as a statement or as the first or third part of a
/// `for`. Appends the format of a `write`.
pub fn make_alone(
    alloc: Global,
    scope: Scope,
    tables: &StatementTables,
    formats: &mut Vec<Format>,
    e: &Expr,
) -> Result<TStmt, NoMemory>
    requires tables { AreTables scope.names.now tables.now }
    requires room { length (formats.old.items ++ formats_of_alone (scope_in scope) e.now) < 2 ^ 32 }
    ensures tree { IfOk result (λ tree. tree ≡ alone_of (scope_in scope.entry) (order_of tables.now)
        (length formats.old.items) e.now) }
    ensures formats { OnOk result (formats.new.items
        ≡ formats.old.items ++ formats_of_alone (scope_in scope.entry) e.now) }
{
    match e {
        Expr::Paren { inner, .. } => make_alone(alloc, scope, tables, formats, inner.get()),
        Expr::Call { name, args, .. } => {
            called(
                alloc,
                scope,
                tables,
                formats,
                e,
                name.bytes(),
                args.as_slice(),
            )
        }
        Expr::Assign {
            op,
            left,
            right,
            ..
        } => match op {
            None => assigned(alloc, scope, tables, e, left.get(), right.get()),
            Some(_) => evaluated(alloc, scope, tables, e),
        },
        _ => evaluated(alloc, scope, tables, e),
    }
}
