// Statements.

use crate::expression::TExpr;
use items::{Boxed, Items};

/// A statement.
#[derive(Drop)]
#[cycle(statement)]
pub enum TStmt {
    /// Does nothing.
    Empty,
    /// Statements in a row.
    Block(Items<TStmt>),
    /// The body of the first arm whose test is not 0, and what stands after the last `else` where
    /// there is none.
    If {
        /// The arms.
        arms: Items<TArm>,
        /// What stands after the last `else`.
        other: Option<Boxed<TStmt>>,
    },
    /// Tests, takes a turn and runs the body, again and again until the test is 0.
    While {
        /// The test.
        test: Boxed<TExpr>,
        /// The body.
        body: Boxed<TStmt>,
    },
    /// Takes a turn, runs the body and tests, again and again until the test is 0.
    Do {
        /// The body.
        body: Boxed<TStmt>,
        /// The test.
        test: TExpr,
    },
    /// Runs its first part, and then tests, takes a turn, runs the body and its third part, again and
    /// again until the test is 0.
    For {
        /// The first part.
        init: Option<Boxed<TStmt>>,
        /// The test. Where there is none the loop goes on.
        test: Option<Boxed<TExpr>>,
        /// The third part, to which a `continue` in the body leads.
        step: Option<Boxed<TStmt>>,
        /// The body.
        body: Boxed<TStmt>,
    },
    /// Runs the groups from the first on that has the value among its labels, or else from the first
    /// one with `default` on, to the end or a `break`.
    Switch {
        /// The value.
        on: Boxed<TExpr>,
        /// The groups.
        groups: Items<TGroup>,
    },
    /// Leaves the loop or `switch` around it.
    Break,
    /// Ends the round of the loop around it.
    Continue,
    /// Ends the procedure.
    Return {
        /// What it gives, if its function gives a number.
        value: Option<Boxed<TExpr>>,
    },
    /// Evaluates an expression and drops its value. A call of a function that gives nothing may stand
    /// here.
    Eval(TExpr),
    /// Writes a line.
    Write {
        /// The format's number.
        format: u32,
        /// The numbers that the format takes.
        args: Items<TExpr>,
    },
    /// Requests the frame of a message.
    Send {
        /// The message's first cell.
        msg: u32,
    },
    /// Copies one message to another.
    Copy {
        /// The first cell of the message that changes.
        to: u32,
        /// The first cell of the other.
        from: u32,
    },
    /// `stop()`: asks to stop the measurement.
    Halt,
    /// Sets a timer.
    Set {
        /// The timer's number.
        timer: u32,
        /// Whether it is set again whenever it is due.
        cyclic: bool,
        /// The duration in the timer's unit. It is wrapped to long, and below 1 it counts as 1.
        value: TExpr,
    },
    /// Cancels a timer.
    Cancel {
        /// The timer's number.
        timer: u32,
    },
}

/// An arm of an `if`.
#[derive(Drop)]
#[cycle(statement)]
pub struct TArm {
    /// The test.
    pub test: TExpr,
    /// What runs where it is not 0.
    pub body: TStmt,
}

/// Labels of a `switch` that stand together, and the statements after them.
#[derive(Drop)]
#[cycle(statement)]
pub struct TGroup {
    /// The numbers of the labels, with `None` for `default`.
    pub labels: Items<Option<i128>>,
    /// The statements.
    pub body: Items<TStmt>,
}
