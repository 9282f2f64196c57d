// Expressions whose sorts are known.

use capl_meaning::Sort;
use capl_tree::Expr;
use check_sorts::Places;

/// An expression and its sort.
#[derive(Clone, Copy)]
pub(crate) struct Judged<'e> {
    /// The expression.
    pub(crate) e: &'e Expr,
    /// Its sort.
    pub(crate) sort: Sort,
}

/// What is known of an expression that may be assigned something.
#[derive(Clone, Copy)]
pub(crate) struct Target {
    /// Its sort.
    pub(crate) sort: Sort,
    /// What it can be assigned.
    pub(crate) places: Places,
}
