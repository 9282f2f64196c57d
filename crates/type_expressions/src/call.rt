// Calls, by what their arguments are.

ghost use Rattle.std.specs.Prelude.{◌≡◌, pos, IfOk, None, Some, slice_get};
ghost use Rattle.std.specs.List.{list_all};
ghost use Rattle.std.specs.Option.{option_copied, option_map_or};
ghost use Rattle.capl_meaning.specs.Names as meant;
ghost use Rattle.capl_meaning.specs.Names.{callee};
ghost use Rattle.capl_meaning.specs.Sort.{is_number, is_recursive, sort_of_builtin, sort_of_call, sort_of_function};
ghost use Rattle.capl_meaning.specs.declared.sort.Sort.TheVariants as sort;
ghost use Rattle.typed_tree.specs.declared.expression.TExpr.TheVariants.{Call, Const};
ghost use Rattle.typed_source.specs.Expression.{of_builtin, of_call, place_in as place_of};
ghost use Rattle.type_expressions.specs.declared.made.Shape.TheVariants as shape;
ghost use Rattle.check_names.specs.Function.{function_in};
ghost use Rattle.check_sorts.specs.Scope.{scope_in};
ghost use Rattle.type_expressions.specs.Made.{AreTreeTables, order_in, place_in, text_of_first, value_in};

use crate::made::{Row, Shape, TreeTables, Walked};
use capl_meaning::{Builtin, Sort};
use capl_tree::Expr;
use check_names::DeclaredFunction;
use check_sorts::{Callee, Scope, is_number, sort_given, sort_of_builtin, text_in};
use items::Items;
use std::alloc::Global;
use texts::NoMemory;
use typed_tree::TExpr;

/// A call of a function of the language that gives a number; 0 for all others.
fn of_builtin(scope: Scope, tables: &TreeTables, builtin: Builtin, args: &[Expr]) -> TExpr
    requires { AreTreeTables scope.names.now tables.now }
    ensures { result ≡ of_builtin (scope_in scope.entry) builtin args.now }
{
    match (builtin, args) {
        (Builtin::IsTimerActive, [timer]) => match scope.timer_in(timer) {
            None => TExpr::Const(0),
            Some(number) => TExpr::Active {
                timer: tables.layout.timer(number),
            },
        },
        (Builtin::TimeNow, _) => TExpr::Now,
        (Builtin::ElCount, [array]) => match scope.array_in(array) {
            None => TExpr::Const(0),
            Some(number) => TExpr::Const(i128::from(tables.layout.elements(number))),
        },
        _ => TExpr::Const(0),
    }
}

/// The bytes of the first argument, where it is a text.
fn first_text(args: &[Expr]) -> Option<&[u8]>
    ensures { option_copied result ≡ text_of_first args.now }
{
    match args {
        [] => None,
        [first, ..] => text_in(first),
    }
}

/// Whether all sorts are numbers.
fn are_numbers(sorts: &[Sort]) -> bool
    ensures { result ≡ list_all is_number sorts.now }
{
    for sort in sorts {
        if !is_number(*sort) {
            return false;
        }
    }
    true
}

/// Of which sort a call of a function of the program is, that is recursive or not.
fn sort_of_function(function: &DeclaredFunction, recursive: bool, sorts: &[Sort]) -> Sort
    ensures { (s : meant.Scope) → recursive ≡ is_recursive s (function_in function.now) →
        result ≡ sort_of_function s (function_in function.now) sorts.now }
{
    let fits = sorts.len() == function.parameters.len();
    if fits && are_numbers(sorts) && !recursive {
        sort_given(function.gives)
    } else {
        Sort::Bad
    }
}

/// A call of what is no function.
fn unknown_call() -> Walked
    ensures { result ≡ record { shape = shape.Value (Const (pos 0)); sort = sort.Bad } }
{
    Walked {
        shape: Shape::Value(TExpr::Const(0)),
        sort: Sort::Bad,
    }
}

/// A call of a function of the language.
fn language_call(
    scope: Scope,
    tables: &TreeTables,
    builtin: Builtin,
    args: &[Expr],
    sorts: &[Sort],
) -> Walked
    requires { AreTreeTables scope.names.now tables.now }
    ensures { result ≡ record {
      shape = shape.Value (of_builtin (scope_in scope.entry) builtin args.now);
      sort = sort_of_builtin builtin (text_of_first args.now) sorts.now;
    } }
{
    Walked {
        shape: Shape::Value(of_builtin(scope, tables, builtin, args)),
        sort: sort_of_builtin(builtin, first_text(args), sorts),
    }
}

/// The trees alone.
fn trees_in(row: Row) -> Vec<TExpr>
    ensures { result.items ≡ row.trees.items }
{
    let Row { trees, .. } = row;
    trees
}

/// A call of the function of the program at an index.
fn program_call(
    alloc: Global,
    scope: Scope,
    tables: &TreeTables,
    index: u32,
    function: &DeclaredFunction,
    row: Row,
) -> Result<Walked, NoMemory>
    requires tables { AreTreeTables scope.names.now tables.now }
    requires function { slice_get scope.names.now.functions index ≡ Some (function_in function.now) }
    ensures { IfOk result (λ walked. walked ≡ record {
      shape = shape.Value (option_map_or (λ f. Call f row.trees.items)
          (place_of (order_in tables.now) (function_in function.now).number) (Const (pos 0)));
      sort = sort_of_function (scope_in scope.entry) (function_in function.now) row.sorts.items;
    }) }
{
    let recursive = tables.calls.is_recursive(alloc, scope.owner, index)?;
    let sort = sort_of_function(function, recursive, row.sorts.as_slice());
    let tree = TExpr::Call {
        function: tables.calls.place(index),
        args: Items::from_list(trees_in(row)),
    };
    Ok(Walked {
        shape: Shape::Value(tree),
        sort,
    })
}

/// A call.
pub(crate) fn called(
    alloc: Global,
    scope: Scope,
    tables: &TreeTables,
    name: &[u8],
    args: &[Expr],
    row: Row,
) -> Result<Walked, NoMemory>
    requires { AreTreeTables scope.names.now tables.now }
    ensures value { let s = scope_in scope.entry in IfOk result (λ walked. value_in walked.shape ≡
        of_call s (order_in tables.now) (callee s.names name.now) args.now (λ f. Call f row.trees.items)) }
    ensures place { IfOk result (λ walked. place_in walked.shape ≡ None) }
    ensures sort { let s = scope_in scope.entry in IfOk result (λ walked. walked.sort ≡
        sort_of_call s (callee s.names name.now) (text_of_first args.now) row.sorts.items) }
{
    match scope.callee(name) {
        Callee::Language(builtin) => {
            Ok(language_call(scope, tables, builtin, args, row.sorts.as_slice()))
        }
        Callee::Program(index) => match scope.names.functions().get(index as usize) {
            None => Ok(unknown_call()),
            Some(function) => program_call(alloc, scope, tables, index, function, row),
        },
        Callee::Unknown => Ok(unknown_call()),
    }
}
