// The walk over an expression.

ghost use Rattle.std.specs.Prelude.{◌≡◌, [], ◌∷◌, ◌++◌, IfOk, OnOk, map, true};
ghost use Rattle.int_kinds.specs.Kind.{join};
ghost use Rattle.typed_tree.specs.Forms.{Cond, Convert};
ghost use Rattle.capl_meaning.specs.Message.{is_message_place, is_number_place};
ghost use Rattle.capl_meaning.specs.Sort.{kind_in, sort_of, sort_of_assignment, sort_of_binary, sort_of_choice, sort_of_prefix, sort_of_step, working_kind};
ghost use Rattle.typed_source.specs.Expression.{assigned, expression_of, operation, place_of, stepping};
ghost use Rattle.check_sorts.specs.Expression.{has_parts};
ghost use Rattle.check_sorts.specs.Message.{ArePlaces};
ghost use Rattle.check_sorts.specs.Scope.{scope_in};
ghost use Rattle.type_expressions.specs.declared.made.Shape.TheVariants as shape;
ghost use Rattle.type_expressions.specs.Made.{AreTreeTables, assigning, order_in, place_in, prefix_tree, value_in};

use crate::call::called;
use crate::form::{
    assign, binary, cast, character, choice, choose, no_member, number, prefix, step, text,
    this_word,
};
use crate::made::{Part, Row, Target, TreeTables, Walked, make_part, sort_in, value_in};
use crate::place::{element, member, name, named, payload};
use capl_meaning::Sort;
use capl_tree::{Expr, Field};
use check_sorts::Scope;
use int_kinds::{BinOp, UnOp};
use std::alloc::Global;
use texts::NoMemory;

/// What an expression is. Each part is walked over once.
#[cycle(walk)]
pub(crate) fn walk(
    alloc: Global,
    scope: Scope,
    tables: &TreeTables,
    e: &Expr,
) -> Result<Walked, NoMemory>
    requires { AreTreeTables scope.names.now tables.now }
    ensures value { IfOk result (λ walked.
        value_in walked.shape ≡ expression_of (scope_in scope.entry) (order_in tables.now) e.now) }
    ensures place { IfOk result (λ walked.
        place_in walked.shape ≡ place_of (scope_in scope.entry) (order_in tables.now) e.now) }
    ensures sort { IfOk result (λ walked. walked.sort ≡ sort_of (scope_in scope.entry) e.now) }
{
    match e {
        Expr::Num { value, ext, .. } => Ok(number(*value, *ext)),
        Expr::Char { value, .. } => Ok(character(*value)),
        Expr::Str { .. } => Ok(text()),
        Expr::This { .. } => Ok(this_word(scope)),
        Expr::Name { name: word, at } => Ok(name(scope, tables, word.bytes(), *at)),
        _ => walk_whole(alloc, scope, tables, e),
    }
}

/// What an expression with parts is.
#[cycle(walk)]
fn walk_whole(
    alloc: Global,
    scope: Scope,
    tables: &TreeTables,
    e: &Expr,
) -> Result<Walked, NoMemory>
    requires tables { AreTreeTables scope.names.now tables.now }
    requires parts { has_parts e.now ≡ true }
    ensures value { IfOk result (λ walked.
        value_in walked.shape ≡ expression_of (scope_in scope.entry) (order_in tables.now) e.now) }
    ensures place { IfOk result (λ walked.
        place_in walked.shape ≡ place_of (scope_in scope.entry) (order_in tables.now) e.now) }
    ensures sort { IfOk result (λ walked. walked.sort ≡ sort_of (scope_in scope.entry) e.now) }
{
    match e {
        Expr::Paren { inner, .. } => walk(alloc, scope, tables, inner.get()),
        Expr::Call { name, args, .. } => {
            let row = walk_row(alloc, scope, tables, args.as_slice())?;
            called(alloc, scope, tables, name.bytes(), args.as_slice(), row)
        }
        Expr::Index { base, index, .. } => {
            let sort = walk_sort(alloc, scope, tables, base.get())?;
            let index = walk_part(alloc, scope, tables, index.get())?;
            Ok(element(scope, tables, base.get(), sort, index))
        }
        Expr::Member { base, field, .. } => match scope.message_in(base.get()) {
            None => Ok(no_member()),
            Some(held) => match field {
                Field::Named { name, .. } => Ok(member(tables, held, name.bytes())),
                Field::Bytes { kind, index, .. } => {
                    let index = walk_part(alloc, scope, tables, index.get())?;
                    Ok(payload(tables, held, *kind, index))
                }
            },
        },
        Expr::Cast { kind, inner, .. } => {
            let inner = walk_part(alloc, scope, tables, inner.get())?;
            Ok(cast(*kind, inner))
        }
        Expr::Unary { op, inner, .. } => walk_prefix(alloc, scope, tables, *op, inner.get()),
        Expr::Post { up, inner, .. } => walk_step(alloc, scope, tables, *up, inner.get()),
        Expr::Binary {
            op,
            left,
            right,
            ..
        } => {
            let left = walk_part(alloc, scope, tables, left.get())?;
            walk_binary(alloc, scope, tables, right.get(), *op, left)
        }
        Expr::Cond { test, yes, no, .. } => {
            let yes = walk_part(alloc, scope, tables, yes.get())?;
            let no = walk_part(alloc, scope, tables, no.get())?;
            walk_choice(alloc, scope, tables, test.get(), yes, no)
        }
        Expr::Assign {
            op,
            left,
            right,
            ..
        } => {
            let right = walk_part(alloc, scope, tables, right.get())?;
            walk_assignment(alloc, scope, tables, left.get(), *op, right)
        }
        _ => unreachable!(),
    }
}

/// What an expression is that stands in another.
#[cycle(walk)]
fn walk_part(alloc: Global, scope: Scope, tables: &TreeTables, e: &Expr) -> Result<Part, NoMemory>
    requires { AreTreeTables scope.names.now tables.now }
    ensures tree { IfOk result (λ part.
        part.tree ≡ expression_of (scope_in scope.entry) (order_in tables.now) e.now) }
    ensures sort { IfOk result (λ part. part.sort ≡ sort_of (scope_in scope.entry) e.now) }
{
    let walked = walk(alloc, scope, tables, e)?;
    make_part(alloc, walked)
}

/// Of which sort an expression is.
#[cycle(walk)]
fn walk_sort(alloc: Global, scope: Scope, tables: &TreeTables, e: &Expr) -> Result<Sort, NoMemory>
    requires { AreTreeTables scope.names.now tables.now }
    ensures { IfOk result (λ sort. sort ≡ sort_of (scope_in scope.entry) e.now) }
{
    let walked = walk(alloc, scope, tables, e)?;
    Ok(sort_in(walked))
}

/// What an expression is, with what it can be assigned.
#[cycle(walk)]
fn walk_target(
    alloc: Global,
    scope: Scope,
    tables: &TreeTables,
    e: &Expr,
) -> Result<Target, NoMemory>
    requires { AreTreeTables scope.names.now tables.now }
    ensures value { IfOk result (λ target.
        value_in target.walked.shape ≡ expression_of (scope_in scope.entry) (order_in tables.now) e.now) }
    ensures place { IfOk result (λ target.
        place_in target.walked.shape ≡ place_of (scope_in scope.entry) (order_in tables.now) e.now) }
    ensures sort { IfOk result (λ target. target.walked.sort ≡ sort_of (scope_in scope.entry) e.now) }
    ensures places { IfOk result (λ target. ArePlaces (scope_in scope.entry) e.now target.places) }
{
    match e {
        Expr::Name { name: word, at } => Ok(named(scope, tables, word.bytes(), *at)),
        _ => {
            let walked = walk(alloc, scope, tables, e)?;
            let places = scope.places(e);
            Ok(Target { walked, places })
        }
    }
}

/// A prefix operator before an expression.
#[cycle(walk)]
fn walk_prefix(
    alloc: Global,
    scope: Scope,
    tables: &TreeTables,
    op: UnOp,
    inner: &Expr,
) -> Result<Walked, NoMemory>
    requires { AreTreeTables scope.names.now tables.now }
    ensures { let s = scope_in scope.entry in IfOk result (λ walked. walked ≡ record {
      shape = shape.Value (prefix_tree op (sort_of s inner.now)
          (assigned (is_number_place s inner.now) (place_of s (order_in tables.now) inner.now))
          (expression_of s (order_in tables.now) inner.now));
      sort = sort_of_prefix op (is_number_place s inner.now) (sort_of s inner.now);
    }) }
{
    let target = walk_target(alloc, scope, tables, inner)?;
    prefix(alloc, op, target.places.number, target.walked)
}

/// `++` or `--` behind an expression.
#[cycle(walk)]
fn walk_step(
    alloc: Global,
    scope: Scope,
    tables: &TreeTables,
    up: bool,
    inner: &Expr,
) -> Result<Walked, NoMemory>
    requires { AreTreeTables scope.names.now tables.now }
    ensures { let s = scope_in scope.entry in IfOk result (λ walked. walked ≡ record {
      shape = shape.Value (stepping (kind_in (sort_of s inner.now)) up true
          (assigned (is_number_place s inner.now) (place_of s (order_in tables.now) inner.now)));
      sort = sort_of_step (is_number_place s inner.now) (sort_of s inner.now);
    }) }
{
    let target = walk_target(alloc, scope, tables, inner)?;
    step(alloc, up, true, target.places.number, target.walked)
}

/// A binary operator behind its left side.
#[cycle(walk)]
fn walk_binary(
    alloc: Global,
    scope: Scope,
    tables: &TreeTables,
    right: &Expr,
    op: BinOp,
    left: Part,
) -> Result<Walked, NoMemory>
    requires { AreTreeTables scope.names.now tables.now }
    ensures { let s = scope_in scope.entry in IfOk result (λ walked. walked ≡ record {
      shape = shape.Value (operation op (working_kind op (kind_in left.sort) (kind_in (sort_of s right.now)))
          left.tree (expression_of s (order_in tables.now) right.now));
      sort = sort_of_binary op left.sort (sort_of s right.now);
    }) }
{
    let right = walk_part(alloc, scope, tables, right)?;
    Ok(binary(op, left, right))
}

/// `?:` before what its branches are.
#[cycle(walk)]
fn walk_choice(
    alloc: Global,
    scope: Scope,
    tables: &TreeTables,
    test: &Expr,
    yes: Part,
    no: Part,
) -> Result<Walked, NoMemory>
    requires { AreTreeTables scope.names.now tables.now }
    ensures { let s = scope_in scope.entry in IfOk result (λ walked.
        let k = join (kind_in yes.sort) (kind_in no.sort) in walked ≡ record {
          shape = shape.Value (Cond (expression_of s (order_in tables.now) test.now)
              (Convert k yes.tree) (Convert k no.tree));
          sort = sort_of_choice (sort_of s test.now) yes.sort no.sort;
        }) }
{
    let branches = choose(alloc, yes, no)?;
    let test = walk_part(alloc, scope, tables, test)?;
    Ok(choice(test, branches))
}

/// An assignment of a value to what stands on the left.
#[cycle(walk)]
fn walk_assignment(
    alloc: Global,
    scope: Scope,
    tables: &TreeTables,
    left: &Expr,
    op: Option<BinOp>,
    right: Part,
) -> Result<Walked, NoMemory>
    requires { AreTreeTables scope.names.now tables.now }
    ensures { let s = scope_in scope.entry in IfOk result (λ walked. walked ≡ record {
      shape = shape.Value (assigning op (sort_of s left.now) right.sort
          (assigned (is_number_place s left.now) (place_of s (order_in tables.now) left.now)) right.tree);
      sort = sort_of_assignment op (is_number_place s left.now) (is_message_place s left.now)
          (sort_of s left.now) right.sort;
    }) }
{
    let target = walk_target(alloc, scope, tables, left)?;
    let places = target.places;
    assign(
        alloc,
        op,
        places.number,
        places.message,
        target.walked,
        right,
    )
}

/// Appends what a walk made of an expression.
fn push_walked(walked: Walked, into: &mut Row) -> Result<(), NoMemory>
    ensures trees { OnOk result (into.new.trees.items ≡ into.old.trees.items ++ value_in walked.shape ∷ []) }
    ensures sorts { OnOk result (into.new.sorts.items ≡ into.old.sorts.items ++ walked.sort ∷ []) }
{
    let Walked { shape, sort } = walked;
    into.trees.push(value_in(shape))?;
    into.sorts.push(sort)?;
    Ok(())
}

/// What expressions in a row are.
#[cycle(walk)]
pub(crate) fn walk_row(
    alloc: Global,
    scope: Scope,
    tables: &TreeTables,
    all: &[Expr],
) -> Result<Row, NoMemory>
    requires { AreTreeTables scope.names.now tables.now }
    ensures trees { IfOk result (λ row.
        row.trees.items ≡ map (expression_of (scope_in scope.entry) (order_in tables.now)) all.now) }
    ensures sorts { IfOk result (λ row. row.sorts.items ≡ map (sort_of (scope_in scope.entry)) all.now) }
{
    let mut row = Row {
        trees: Vec::new(alloc),
        sorts: Vec::new(alloc),
    };
    for e in all {
        let walked = walk(alloc, scope, tables, e)?;
        push_walked(walked, &mut row)?;
    }
    Ok(row)
}
