// Expressions.

ghost use Rattle.std.specs.Prelude.{◌≡◌};
ghost use Rattle.capl_tree.specs.Place.{expression_place, field_place};

use int_kinds::{BinOp, Kind, UnOp};
use items::{Boxed, Items};
use texts::Text;

/// An expression.
#[derive(Drop)]
#[cycle(expr)]
pub enum Expr {
    /// A number as it is spelled: None where it is above 2^64 - 1. `ext` is true where an `x` marks it
    /// as an extended identifier.
    Num {
        value: Option<u64>,
        ext: bool,
        at: u32,
    },
    /// `'CHAR'`, by the byte that it stands for: its escape is read.
    Char {
        value: u8,
        at: u32,
    },
    /// `"TEXT"`, by the bytes that it stands for: its escapes are read.
    Str {
        text: Text,
        at: u32,
    },
    /// `this`
    This {
        at: u32,
    },
    /// `NAME`
    Name {
        name: Text,
        at: u32,
    },
    /// `(INNER)`; `at` is the parenthesis.
    Paren {
        inner: Boxed<Expr>,
        at: u32,
    },
    /// `NAME(ARG, ..)`; `at` is the name.
    Call {
        name: Text,
        args: Items<Expr>,
        at: u32,
    },
    /// `BASE[INDEX]`; `at` is the first token of the base.
    Index {
        base: Boxed<Expr>,
        index: Boxed<Expr>,
        at: u32,
    },
    /// `BASE.FIELD`; `at` is the first token of the base.
    Member {
        base: Boxed<Expr>,
        field: Field,
        at: u32,
    },
    /// `(KIND) INNER`; `at` is the parenthesis.
    Cast {
        kind: Kind,
        inner: Boxed<Expr>,
        at: u32,
    },
    /// `OP INNER`; `at` is the operator.
    Unary {
        op: UnOp,
        inner: Boxed<Expr>,
        at: u32,
    },
    /// `INNER++` where `up` is true, else `INNER--`; `at` is the first token of the operand.
    Post {
        up: bool,
        inner: Boxed<Expr>,
        at: u32,
    },
    /// `LEFT OP RIGHT`; `at` is the first token of the left operand.
    Binary {
        op: BinOp,
        left: Boxed<Expr>,
        right: Boxed<Expr>,
        at: u32,
    },
    /// `TEST ? YES : NO`; `at` is the first token of the test.
    Cond {
        test: Boxed<Expr>,
        yes: Boxed<Expr>,
        no: Boxed<Expr>,
        at: u32,
    },
    /// `LEFT = RIGHT`, or with the sign of an operator before the `=`; `at` is the first token of the
    /// left side.
    Assign {
        op: Option<BinOp>,
        left: Boxed<Expr>,
        right: Boxed<Expr>,
        at: u32,
    },
}

/// What stands behind the point of a member.
#[derive(Drop)]
#[cycle(expr)]
pub enum Field {
    /// `NAME`
    Named {
        name: Text,
        at: u32,
    },
    /// `KIND(INDEX)`, bytes of the payload; `at` is the kind.
    Bytes {
        kind: Kind,
        index: Boxed<Expr>,
        at: u32,
    },
}

impl Expr {
    /// The number of its first token in its file.
    pub fn place(&self) -> u32
        ensures { result ≡ expression_place self.now }
    {
        match self {
            Expr::Num { at, .. }
            | Expr::Char { at, .. }
            | Expr::Str { at, .. }
            | Expr::This { at }
            | Expr::Name { at, .. }
            | Expr::Paren { at, .. }
            | Expr::Call { at, .. }
            | Expr::Index { at, .. }
            | Expr::Member { at, .. }
            | Expr::Cast { at, .. }
            | Expr::Unary { at, .. }
            | Expr::Post { at, .. }
            | Expr::Binary { at, .. }
            | Expr::Cond { at, .. }
            | Expr::Assign { at, .. } => *at,
        }
    }
}

impl Field {
    /// The number of its first token in its file.
    pub fn place(&self) -> u32
        ensures { result ≡ field_place self.now }
    {
        match self {
            Field::Named { at, .. } | Field::Bytes { at, .. } => *at,
        }
    }
}
