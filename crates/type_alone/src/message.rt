// Messages that are sent and copied.

ghost use Rattle.std.specs.Prelude.{◌≡◌, IfOk, Some};
ghost use Rattle.std.specs.Option.{option_map_or};
ghost use Rattle.capl_meaning.specs.Message.{Held as Meant, message_in};
ghost use Rattle.typed_laws.specs.Laid.{message_slot};
ghost use Rattle.typed_source.specs.Expression.{expression_of};
ghost use Rattle.typed_source.specs.Statement.{of_assignment};
ghost use Rattle.typed_tree.specs.declared.statement.TStmt.TheVariants.{Empty, Eval, Send};
ghost use Rattle.check_sorts.specs.Message.{held_in};
ghost use Rattle.check_sorts.specs.Scope.{scope_in};
ghost use Rattle.type_alone.specs.Tables.{AreTables, order_of};

use crate::tables::StatementTables;
use capl_tree::Expr;
use check_sorts::{Held, Scope};
use std::alloc::Global;
use texts::NoMemory;
use type_expressions::{make_expression, message_slot};
use typed_tree::TStmt;

/// An expression whose value is dropped.
pub(crate) fn evaluated(
    alloc: Global,
    scope: Scope,
    tables: &StatementTables,
    e: &Expr,
) -> Result<TStmt, NoMemory>
    requires { AreTables scope.names.now tables.now }
    ensures { IfOk result (λ tree.
        tree ≡ Eval (expression_of (scope_in scope.entry) (order_of tables.now) e.now)) }
{
    let made = make_expression(alloc, scope, &tables.trees, e)?;
    Ok(TStmt::Eval(made.tree))
}

/// `output` of a message, if it is one.
pub(crate) fn sent(scope: Scope, tables: &StatementTables, message: &Expr) -> TStmt
    requires { AreTables scope.names.now tables.now }
    ensures { let s = scope_in scope.entry in result
        ≡ option_map_or (λ held. Send (message_slot s.names held)) (message_in s message.now) Empty }
{
    match scope.message_in(message) {
        None => TStmt::Empty,
        Some(held) => TStmt::Send {
            msg: message_slot(&tables.trees, held),
        },
    }
}

/// An assignment of a message to a message, which is a copy where a variable stands on the left.
fn copied(
    alloc: Global,
    scope: Scope,
    tables: &StatementTables,
    e: &Expr,
    to: Held,
    from: Held,
) -> Result<TStmt, NoMemory>
    requires { AreTables scope.names.now tables.now }
    ensures { let s = scope_in scope.entry in (left right : Meant) → held_in s.names to.entry ≡ Some left →
        held_in s.names from.entry ≡ Some right → IfOk result (λ tree.
        tree ≡ of_assignment s.names (Some left) (Some right)
        (Eval (expression_of s (order_of tables.now) e.now))) }
{
    match to {
        Held::Frame(_) => evaluated(alloc, scope, tables, e),
        Held::Variable { .. } => Ok(TStmt::Copy {
            to: message_slot(&tables.trees, to),
            from: message_slot(&tables.trees, from),
        }),
    }
}

/// An assignment that stands alone: a message variable on the left is made a copy of a message on the
/// right.
pub(crate) fn assigned(
    alloc: Global,
    scope: Scope,
    tables: &StatementTables,
    e: &Expr,
    left: &Expr,
    right: &Expr,
) -> Result<TStmt, NoMemory>
    requires { AreTables scope.names.now tables.now }
    ensures { let s = scope_in scope.entry in IfOk result (λ tree.
        tree ≡ of_assignment s.names (message_in s left.now) (message_in s right.now)
        (Eval (expression_of s (order_of tables.now) e.now))) }
{
    // The right is looked at first, since mostly it is no name and then needs no look-up.
    let Some(from) = scope.message_in(right) else {
        return evaluated(alloc, scope, tables, e);
    };
    match scope.message_in(left) {
        Some(to) => copied(alloc, scope, tables, e, to, from),
        None => evaluated(alloc, scope, tables, e),
    }
}
