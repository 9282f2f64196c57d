// CAPL's operators on the bits of a number in two's complement: `&`, `|`, `^`, `~`, `<<` and `>>`.
//
// The operands are wrapped to the kind `k` first, and a result is a number of that kind.

ghost use Rattle.std.specs.Prelude.{◌≡◌, Some};
ghost use Rattle.int_kinds.specs.Arithmetic.{inverted, residue, shift_count, value};
ghost use Rattle.int_kinds.specs.Kind.{IsNumber};
ghost use Rattle.int_kinds.specs.declared.operators.BinOp.TheVariants.{And, Or, Shl, Shr, Xor};

use crate::kinds::{Kind, bits, wrap_any, wrap_word};

/// `a & b` in the kind `k`.
#[tactic(auto, using(crate::proofs::Operations::operations_on_words))]
pub const fn and(k: Kind, a: i128, b: i128) -> i128
    requires left { IsNumber a }
    requires right { IsNumber b }
    ensures { Some result ≡ value And k a b }
{
    wrap_word(k, a.cast_unsigned() & b.cast_unsigned())
}

/// `a | b` in the kind `k`.
#[tactic(auto, using(crate::proofs::Operations::operations_on_words))]
pub const fn or(k: Kind, a: i128, b: i128) -> i128
    requires left { IsNumber a }
    requires right { IsNumber b }
    ensures { Some result ≡ value Or k a b }
{
    wrap_word(k, a.cast_unsigned() | b.cast_unsigned())
}

/// `a ^ b` in the kind `k`.
#[tactic(auto, using(crate::proofs::Operations::operations_on_words))]
pub const fn xor(k: Kind, a: i128, b: i128) -> i128
    requires left { IsNumber a }
    requires right { IsNumber b }
    ensures { Some result ≡ value Xor k a b }
{
    wrap_word(k, a.cast_unsigned() ^ b.cast_unsigned())
}

/// `~a` in the kind `k`.
pub const fn inv(k: Kind, a: i128) -> i128
    requires { IsNumber a }
    ensures { result ≡ inverted k a }
{
    wrap_word(k, !a.cast_unsigned())
}

/// `a << b` in the kind `k`: by as many places as `b` is modulo the kind's width.
#[tactic(auto, using(crate::proofs::Operations::operations_on_words))]
pub const fn shl(k: Kind, a: i128, b: i128) -> i128
    requires left { IsNumber a }
    requires right { IsNumber b }
    ensures { Some result ≡ value Shl k a b }
{
    wrap_word(k, a.cast_unsigned() << places(k, b))
}

/// `a >> b` in the kind `k`, rounded down: by as many places as `b` is modulo the kind's width.
pub const fn shr(k: Kind, a: i128, b: i128) -> i128
    requires left { IsNumber a }
    requires right { IsNumber b }
    ensures { Some result ≡ value Shr k a b }
{
    wrap_any(k, a) >> places(k, b)
}

/// The bits of `n` in two's complement at the kind's width, read as one number: `n` modulo 2 to the
/// width. `n` may be any `i128`.
#[inline]
pub const fn residue(k: Kind, n: i128) -> u64
    ensures { result ≡ residue k n }
{
    (n.cast_unsigned() % (1u128 << bits(k))) as u64
}

/// By how many places a shift by `b` moves. A width is a power of 2, so a mask takes `b` modulo it.
const fn places(k: Kind, b: i128) -> u32
    ensures { result ≡ shift_count k b }
{
    (b.cast_unsigned() & (bits(k) - 1) as u128) as u32
}
