// What is made of an expression.

ghost use Rattle.std.specs.Prelude.{◌≡◌, IfOk};
ghost use Rattle.type_expressions.specs.Made.{place_in, value_in};

use crate::layout::Layout;
use crate::tree::loaded;
use capl_meaning::Sort;
use check_calls::Calls;
use check_sorts::Places;
use items::Boxed;
use std::alloc::Global;
use texts::NoMemory;
use typed_tree::{Place, TExpr};

/// What the trees of a program's expressions are made by.
#[derive(Clone, Copy)]
pub struct TreeTables<'t> {
    /// Where the variables lie.
    pub layout: &'t Layout,
    /// The order of the functions.
    pub calls: &'t Calls,
}

/// What was made of an expression.
#[derive(Drop)]
pub struct Made {
    /// The typed tree of its value.
    pub tree: TExpr,
    /// Of which sort it is.
    pub sort: Sort,
}

/// The place that was made of an expression.
#[derive(Drop)]
pub struct MadePlace {
    /// The place, if it is one.
    pub place: Option<Place>,
    /// Of which sort it is.
    pub sort: Sort,
}

/// What was made of expressions in a row.
#[derive(Drop)]
pub struct Row {
    /// The typed trees of their values.
    pub trees: Vec<TExpr>,
    /// Of which sorts they are.
    pub sorts: Vec<Sort>,
}

/// What an expression is.
#[derive(Drop)]
pub(crate) enum Shape {
    /// A place of a number, or None where there is none.
    Place(Option<Place>),
    /// A value.
    Value(TExpr),
}

/// What a walk over an expression made of it.
#[derive(Drop)]
pub(crate) struct Walked {
    /// What it is.
    pub(crate) shape: Shape,
    /// Of which sort it is.
    pub(crate) sort: Sort,
}

/// What a walk made of an expression that may be assigned something.
#[derive(Drop)]
pub(crate) struct Target {
    /// What it made of it.
    pub(crate) walked: Walked,
    /// What it can be assigned.
    pub(crate) places: Places,
}

/// What was made of an expression that stands in another.
#[derive(Drop)]
pub(crate) struct Part {
    /// The typed tree of its value.
    pub(crate) tree: Boxed<TExpr>,
    /// Of which sort it is.
    pub(crate) sort: Sort,
}

/// The tree of a value.
pub(crate) fn value_in(shape: Shape) -> TExpr
    ensures { result ≡ value_in shape }
{
    match shape {
        Shape::Place(place) => loaded(place),
        Shape::Value(tree) => tree,
    }
}

/// The place, if there is one.
pub(crate) fn place_in(shape: Shape) -> Option<Place>
    ensures { result ≡ place_in shape }
{
    match shape {
        Shape::Place(place) => place,
        Shape::Value(_) => None,
    }
}

/// The sort alone.
pub(crate) fn sort_in(walked: Walked) -> Sort
    ensures { result ≡ walked.sort }
{
    walked.sort
}

/// A part by what was made of it.
pub(crate) fn make_part(alloc: Global, walked: Walked) -> Result<Part, NoMemory>
    ensures tree { IfOk result (λ part. part.tree ≡ value_in walked.shape) }
    ensures sort { IfOk result (λ part. part.sort ≡ walked.sort) }
{
    let Walked { shape, sort } = walked;
    let tree = Boxed::new(alloc, value_in(shape))?;
    Ok(Part { tree, sort })
}
