// CAPL's operators.

/// A binary operator of CAPL, from the one that binds loosest to those that bind tightest.
#[derive(Clone, Copy, Debug, PartialEq, Eq, Hash)]
pub enum BinOp {
    /// `||`, which leaves out its second operand where the first is not 0.
    OrElse,
    /// `&&`, which leaves out its second operand where the first is 0.
    AndAlso,
    /// `|`.
    Or,
    /// `^`.
    Xor,
    /// `&`.
    And,
    /// `==`.
    Equal,
    /// `!=`.
    NotEqual,
    /// `<`.
    Less,
    /// `<=`.
    LessEqual,
    /// `>`.
    Greater,
    /// `>=`.
    GreaterEqual,
    /// `<<`.
    Shl,
    /// `>>`, which rounds down.
    Shr,
    /// `+`.
    Add,
    /// `-`.
    Sub,
    /// `*`.
    Mul,
    /// `/`, which rounds towards zero.
    Div,
    /// `%`, whose result has the sign of the dividend.
    Rem,
}

/// A prefix operator of CAPL.
#[derive(Clone, Copy, Debug, PartialEq, Eq, Hash)]
pub enum UnOp {
    /// `-`.
    Minus,
    /// `+`.
    Plus,
    /// `!`, which gives 1 for 0 and 0 for every other number.
    Not,
    /// `~`, which turns each bit.
    Inv,
    /// `++`.
    Up,
    /// `--`.
    Down,
}
