// Declarations of variables.

use crate::expr::{Expr, Field};
use int_kinds::Kind;
use items::{Boxed, Items};
use texts::Text;

/// A declaration of variables of one type.
#[derive(Drop)]
pub struct Decl {
    /// Their type.
    pub what: DeclType,
    /// The variables, at least one.
    pub items: Items<Declr>,
    /// The first word.
    pub at: u32,
}

/// The type of a declaration.
#[derive(Drop)]
pub enum DeclType {
    /// A kind of number, behind `const` where `fixed` is true.
    Number {
        kind: Kind,
        fixed: bool,
    },
    /// `message *`
    Any,
    /// `message NUMBER`, the number as in an expression; `at` is the number.
    ById {
        value: Option<u64>,
        ext: bool,
        at: u32,
    },
    /// `message NAME`; `at` is the name.
    ByName {
        name: Text,
        at: u32,
    },
    /// `timer`, whose durations are in seconds.
    Seconds,
    /// `msTimer`, whose durations are in milliseconds.
    Millis,
}

/// A declared variable.
#[derive(Drop)]
pub struct Declr {
    /// Its name.
    pub name: Text,
    /// The name's token.
    pub at: u32,
    /// What stands between `[` and `]`, if they stand.
    pub size: Option<Boxed<Expr>>,
    /// What stands behind `=`, if it stands.
    pub init: Option<Boxed<Init>>,
}

/// What a variable is given at first.
#[derive(Drop)]
pub enum Init {
    /// A value.
    One(Expr),
    /// `{ ITEM, .. }`, at least one; `at` is the brace.
    Many { items: Items<Item>, at: u32 },
}

/// An item between the braces of an initialiser.
#[derive(Drop)]
pub enum Item {
    /// A value.
    Plain(Expr),
    /// `FIELD = VALUE`
    Set { field: Field, value: Expr },
}
