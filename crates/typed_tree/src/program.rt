// Whole programs.

use crate::statement::TStmt;
use int_kinds::Kind;
use items::Items;
use run_effects::Event;
use write_format::Format;

/// A function.
pub struct TFun {
    /// The cells of its parameters.
    pub params: Items<u32>,
    /// The kind of the numbers that it gives, if it gives any. A `return` does not wrap: where its
    /// number may be another, the conversion stands in its expression.
    pub gives: Option<Kind>,
    /// The body.
    pub body: Items<TStmt>,
}

// These two are written out, so that no crate that drops typed programs has the drops of all parts of their
// trees proved once more.
impl Drop for TFun {
    fn drop(self) {
        let TFun {
            params,
            gives: _,
            body,
        } = self;
        drop(params);
        drop(body);
    }
}

/// An event procedure.
pub struct THandler {
    /// What it reacts to.
    pub event: Event,
    /// The body.
    pub body: Items<TStmt>,
    /// The number of the file that it stands in.
    pub file: u32,
    /// The line of its first word.
    pub line: u32,
}

impl Drop for THandler {
    fn drop(self) {
        let THandler {
            event,
            body,
            file: _,
            line: _,
        } = self;
        drop(event);
        drop(body);
    }
}

/// A typed program.
#[derive(Drop)]
pub struct Typed {
    /// The functions. Each calls only earlier ones.
    pub functions: Items<TFun>,
    /// The event procedures.
    pub handlers: Items<THandler>,
    /// The kinds of the cells. The first 15 are the event's.
    pub cells: Items<Kind>,
    /// Cells with their initial values. A cell that is not here begins with 0.
    pub starts: Items<(u32, i128)>,
    /// The unit of each timer in microseconds.
    pub timers: Items<u64>,
    /// The formats of the lines that are written.
    pub formats: Items<Format>,
}
