// Comparisons, and what a binary operator makes of two numbers.

ghost use Rattle.std.specs.Prelude.{◌≡◌, int_le, int_lt};
ghost use Rattle.std.specs.Ordering.{int_eq};
ghost use Rattle.int_kinds.specs.Arithmetic.{value};
ghost use Rattle.int_kinds.specs.Kind.{IsNumber};

use crate::arithmetic::{add, div, mul, rem, sub, truth};
use crate::bitwise::{and, or, shl, shr, xor};
use crate::kinds::{Kind, wrap};
use crate::operators::BinOp;

/// Whether two numbers are equal.
#[inline]
pub fn is_equal(a: i128, b: i128) -> bool
    ensures { result ≡ int_eq a b }
{
    a == b
}

/// Whether a number is less than another.
#[inline]
fn is_less(a: i128, b: i128) -> bool
    ensures { result ≡ int_lt a b }
{
    a < b
}

/// Whether a number is less than another, or equal to it.
#[inline]
fn is_at_most(a: i128, b: i128) -> bool
    ensures { result ≡ int_le a b }
{
    a <= b
}

/// What a binary operator makes of two numbers in a kind; None where the divisor is 0, and of `||` and
/// `&&`, which do not always take both operands (CAPL manual, operators).
#[inline(always)]
pub fn value(op: BinOp, kind: Kind, a: i128, b: i128) -> Option<i128>
    requires left { IsNumber a }
    requires right { IsNumber b }
    ensures { result ≡ value op kind a b }
{
    // The machine spends a fifth of its time here, and a call would cost as much again.
    match op {
        BinOp::Add => Some(add(kind, a, b)),
        BinOp::Sub => Some(sub(kind, a, b)),
        BinOp::Mul => Some(mul(kind, a, b)),
        BinOp::Div => div(kind, a, b),
        BinOp::Rem => rem(kind, a, b),
        BinOp::Equal => Some(truth(is_equal(wrap(kind, a), wrap(kind, b)))),
        BinOp::NotEqual => Some(truth(!is_equal(wrap(kind, a), wrap(kind, b)))),
        BinOp::Less => Some(truth(is_less(wrap(kind, a), wrap(kind, b)))),
        BinOp::LessEqual => Some(truth(is_at_most(wrap(kind, a), wrap(kind, b)))),
        BinOp::Greater => Some(truth(is_less(wrap(kind, b), wrap(kind, a)))),
        BinOp::GreaterEqual => Some(truth(is_at_most(wrap(kind, b), wrap(kind, a)))),
        BinOp::And => Some(and(kind, a, b)),
        BinOp::Or => Some(or(kind, a, b)),
        BinOp::Xor => Some(xor(kind, a, b)),
        BinOp::Shl => Some(shl(kind, a, b)),
        BinOp::Shr => Some(shr(kind, a, b)),
        BinOp::OrElse | BinOp::AndAlso => None,
    }
}
