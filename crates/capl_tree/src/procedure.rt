// Event procedures and functions.

use crate::expr::Expr;
use crate::statement::Stmt;
use int_kinds::Kind;
use items::Items;
use texts::Text;

/// An event procedure or a function.
#[derive(Drop)]
pub struct Proc {
    /// What it is run for, or what its calls look like.
    pub head: Head,
    /// What stands between its braces.
    pub body: Items<Stmt>,
    /// Its first token.
    pub at: u32,
}

/// The head of a procedure.
#[derive(Drop)]
pub enum Head {
    /// `on preStart`
    PreStart,
    /// `on start`
    Start,
    /// `on stopMeasurement`
    Stop,
    /// `on message SEL, ..`, at least one.
    Message(Items<Sel>),
    /// `on timer NAME`; `at` is the name.
    Timer {
        name: Text,
        at: u32,
    },
    /// `on key 'CHAR'`, by its byte, or `on key *`, which has no value.
    Key {
        value: Option<u8>,
    },
    /// `KIND NAME(PARAM, ..)`; a function that gives nothing has no kind, with `void` or without it.
    /// `at` is the name.
    Function {
        kind: Option<Kind>,
        name: Text,
        params: Items<Param>,
        at: u32,
    },
}

/// A parameter of a function.
#[derive(Drop)]
pub struct Param {
    /// Its kind.
    pub kind: Kind,
    /// Its name.
    pub name: Text,
    /// The name's token.
    pub at: u32,
}

/// Which frames a message procedure is for: `SELECTED`, `CAN1.SELECTED` or `CAN2.SELECTED`.
#[derive(Drop)]
pub struct Sel {
    /// The channel: 1 or 2, or 0 where none is named.
    pub chan: u8,
    /// Which frames of that channel, or of both.
    pub what: SelWhat,
}

/// Which frames of a channel. Each `at` is the first token of this part, so that a selector with a channel
/// begins two tokens before it.
#[derive(Drop)]
pub enum SelWhat {
    /// `*`
    Any {
        at: u32,
    },
    /// `NAME`, of a message of the database.
    Name {
        name: Text,
        at: u32,
    },
    /// `LOW`, or `LOW - HIGH`, both being numbers; `at` is the first.
    Ids {
        low: Expr,
        high: Option<Expr>,
        at: u32,
    },
}
