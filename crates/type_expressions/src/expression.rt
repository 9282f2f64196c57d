// The typed trees of expressions, of places and of arguments.

ghost use Rattle.std.specs.Prelude.{◌≡◌, IfOk, map};
ghost use Rattle.capl_meaning.specs.Sort.{sort_of};
ghost use Rattle.typed_source.specs.Expression.{expression_of, place_of};
ghost use Rattle.check_sorts.specs.Scope.{scope_in};
ghost use Rattle.type_expressions.specs.Made.{AreTreeTables, order_in};

use crate::made::{Made, MadePlace, Row, TreeTables, place_in, value_in};
use crate::walk::{walk, walk_row};
use capl_tree::Expr;
use check_sorts::Scope;
use std::alloc::Global;
use texts::NoMemory;

/// The typed tree of an expression where a part of the program stands, and of which sort the expression
/// is. One that breaks a rule has a tree too. Takes time and memory linear in the expression, but for
/// what the recursion of a call and the format of a `write` take.
pub fn make_expression(
    alloc: Global,
    scope: Scope,
    tables: &TreeTables,
    e: &Expr,
) -> Result<Made, NoMemory>
    requires { AreTreeTables scope.names.now tables.now }
    ensures tree { IfOk result (λ made.
        made.tree ≡ expression_of (scope_in scope.entry) (order_in tables.now) e.now) }
    ensures sort { IfOk result (λ made. made.sort ≡ sort_of (scope_in scope.entry) e.now) }
{
    let walked = walk(alloc, scope, tables, e)?;
    Ok(Made {
        tree: value_in(walked.shape),
        sort: walked.sort,
    })
}

/// The place of a number that an expression is where a part of the program stands, if it is one, and of
/// which sort the expression is. Takes as much as its tree.
pub fn make_place(
    alloc: Global,
    scope: Scope,
    tables: &TreeTables,
    e: &Expr,
) -> Result<MadePlace, NoMemory>
    requires { AreTreeTables scope.names.now tables.now }
    ensures place { IfOk result (λ made.
        made.place ≡ place_of (scope_in scope.entry) (order_in tables.now) e.now) }
    ensures sort { IfOk result (λ made. made.sort ≡ sort_of (scope_in scope.entry) e.now) }
{
    let walked = walk(alloc, scope, tables, e)?;
    Ok(MadePlace {
        place: place_in(walked.shape),
        sort: walked.sort,
    })
}

/// The typed trees of expressions where a part of the program stands, and of which sorts they are. Takes
/// as much as their trees.
pub fn make_row(
    alloc: Global,
    scope: Scope,
    tables: &TreeTables,
    all: &[Expr],
) -> Result<Row, NoMemory>
    requires { AreTreeTables scope.names.now tables.now }
    ensures trees { IfOk result (λ row.
        row.trees.items ≡ map (expression_of (scope_in scope.entry) (order_in tables.now)) all.now) }
    ensures sorts { IfOk result (λ row. row.sorts.items ≡ map (sort_of (scope_in scope.entry)) all.now) }
{
    walk_row(alloc, scope, tables, all)
}
