// Timers that are set and cancelled.

ghost use Rattle.std.specs.Prelude.{◌≡◌, IfOk};
ghost use Rattle.std.specs.Option.{option_map_or};
ghost use Rattle.capl_meaning.specs.Expression.{timer_in};
ghost use Rattle.capl_meaning.specs.Store.{timer_number};
ghost use Rattle.typed_source.specs.Expression.{expression_of};
ghost use Rattle.typed_source.specs.Statement.{setting};
ghost use Rattle.typed_tree.specs.declared.statement.TStmt.TheVariants.{Cancel, Empty};
ghost use Rattle.check_sorts.specs.Scope.{scope_in};
ghost use Rattle.type_alone.specs.Tables.{AreTables, order_of};

use crate::tables::StatementTables;
use capl_tree::Expr;
use check_sorts::Scope;
use std::alloc::Global;
use texts::NoMemory;
use type_expressions::make_expression;
use typed_tree::TStmt;

/// `setTimer` or `setTimerCyclic` of a timer, if it is one.
pub(crate) fn set(
    alloc: Global,
    scope: Scope,
    tables: &StatementTables,
    timer: &Expr,
    duration: &Expr,
    cyclic: bool,
) -> Result<TStmt, NoMemory>
    requires { AreTables scope.names.now tables.now }
    ensures { let s = scope_in scope.entry in IfOk result (λ tree.
        tree ≡ setting s.names (timer_in s timer.now) cyclic
        (expression_of s (order_of tables.now) duration.now)) }
{
    let Some(number) = scope.timer_in(timer) else {
        return Ok(TStmt::Empty);
    };
    let made = make_expression(alloc, scope, &tables.trees, duration)?;
    Ok(TStmt::Set {
        timer: tables.trees.layout.timer(number),
        cyclic,
        value: made.tree,
    })
}

/// `cancelTimer` of a timer, if it is one.
pub(crate) fn cancelled(scope: Scope, tables: &StatementTables, timer: &Expr) -> TStmt
    requires { AreTables scope.names.now tables.now }
    ensures { let s = scope_in scope.entry in result
        ≡ option_map_or (λ v. Cancel (timer_number s.names v)) (timer_in s timer.now) Empty }
{
    match scope.timer_in(timer) {
        None => TStmt::Empty,
        Some(number) => TStmt::Cancel {
            timer: tables.trees.layout.timer(number),
        },
    }
}
