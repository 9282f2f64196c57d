// CAPL's `+`, `-`, `*`, `/` and `%`, the sign `-`, and the number of a test.
//
// The operands are wrapped to the kind `k` first, and a result is a number of that kind.

ghost use Rattle.std.specs.Prelude.{◌≡◌, Some};
ghost use Rattle.int_kinds.specs.Arithmetic.{negated, truth, value};
ghost use Rattle.int_kinds.specs.Kind.{IsNumber};
ghost use Rattle.int_kinds.specs.declared.operators.BinOp.TheVariants.{Add, Div, Mul, Rem, Sub};

use crate::kinds::{Kind, wrap_any, wrap_word};

/// `a + b` in the kind `k`.
pub const fn add(k: Kind, a: i128, b: i128) -> i128
    requires left { IsNumber a }
    requires right { IsNumber b }
    ensures { Some result ≡ value Add k a b }
{
    wrap_any(k, a + b)
}

/// `a - b` in the kind `k`.
pub const fn sub(k: Kind, a: i128, b: i128) -> i128
    requires left { IsNumber a }
    requires right { IsNumber b }
    ensures { Some result ≡ value Sub k a b }
{
    wrap_any(k, a - b)
}

/// `a * b` in the kind `k`.
#[tactic(auto, using(crate::proofs::Operations::operations_on_words))]
pub const fn mul(k: Kind, a: i128, b: i128) -> i128
    requires left { IsNumber a }
    requires right { IsNumber b }
    ensures { Some result ≡ value Mul k a b }
{
    // The product of two qwords needs all 128 bits, and more than an `i128` has.
    wrap_word(k, a.cast_unsigned().wrapping_mul(b.cast_unsigned()))
}

/// `a / b` in the kind `k`, rounded towards zero, and `None` where `b` wraps to 0. The least number
/// divided by -1 wraps to itself.
pub const fn div(k: Kind, a: i128, b: i128) -> Option<i128>
    requires left { IsNumber a }
    requires right { IsNumber b }
    ensures { result ≡ value Div k a b }
{
    let dividend = wrap_any(k, a);
    let divisor = wrap_any(k, b);
    if divisor == 0 {
        return None;
    }
    Some(wrap_any(k, dividend / divisor))
}

/// `a % b` in the kind `k`, with the sign of the dividend, and `None` where `b` wraps to 0.
pub const fn rem(k: Kind, a: i128, b: i128) -> Option<i128>
    requires left { IsNumber a }
    requires right { IsNumber b }
    ensures { result ≡ value Rem k a b }
{
    let dividend = wrap_any(k, a);
    let divisor = wrap_any(k, b);
    if divisor == 0 {
        return None;
    }
    Some(wrap_any(k, dividend % divisor))
}

/// `-a` in the kind `k`.
pub const fn neg(k: Kind, a: i128) -> i128
    requires { IsNumber a }
    ensures { result ≡ negated k a }
{
    wrap_any(k, -a)
}

/// 1 for a test that holds, and 0 for one that does not, as CAPL's comparisons and `!` give it.
#[inline]
pub const fn truth(holds: bool) -> i128
    ensures { result ≡ truth holds }
{
    if holds { 1 } else { 0 }
}
