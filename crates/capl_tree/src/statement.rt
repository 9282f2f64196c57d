// Statements.

use crate::declaration::Decl;
use crate::expr::Expr;
use items::{Boxed, Items};

/// A statement.
#[derive(Drop)]
#[cycle(statement)]
pub enum Stmt {
    /// `;`
    Empty,
    /// `{ .. }`
    Block(Items<Stmt>),
    /// A declaration of local variables.
    Decl(Decl),
    /// `EXPR;`
    Expr(Expr),
    /// `if (TEST) BODY`, then each further arm behind `else if`, then what stands behind a last
    /// `else`, if one stands.
    If {
        arms: Items<Arm>,
        other: Option<Boxed<Stmt>>,
    },
    /// `while (TEST) BODY`
    While {
        test: Expr,
        body: Boxed<Stmt>,
    },
    /// `do BODY while (TEST);`
    Do {
        body: Boxed<Stmt>,
        test: Expr,
    },
    /// `for (INIT; TEST; STEP) BODY`, where each of the three may be missing.
    For {
        init: Option<Boxed<Expr>>,
        test: Option<Boxed<Expr>>,
        step: Option<Boxed<Expr>>,
        body: Boxed<Stmt>,
    },
    /// `switch (ON) { .. }`
    Switch {
        on: Boxed<Expr>,
        groups: Items<Group>,
    },
    /// `break;`
    Break {
        at: u32,
    },
    /// `continue;`
    Continue {
        at: u32,
    },
    /// `return;`, or `return VALUE;`
    Return {
        value: Option<Boxed<Expr>>,
        at: u32,
    },
}

/// An arm of an `if`.
#[derive(Drop)]
#[cycle(statement)]
pub struct Arm {
    /// What stands between the parentheses.
    pub test: Expr,
    /// What is done where the test is not 0, and no test before it was.
    pub body: Stmt,
}

/// A group of a `switch`: the labels that stand together, and what stands behind them.
#[derive(Drop)]
#[cycle(statement)]
pub struct Group {
    /// Its labels, at least one.
    pub labels: Items<Label>,
    /// The statements up to the next label.
    pub body: Items<Stmt>,
}

/// `case VALUE:`, or `default:`, which has no value.
#[derive(Drop)]
pub struct Label {
    /// The value of a `case`.
    pub value: Option<Expr>,
    /// The word `case` or `default`.
    pub at: u32,
}
