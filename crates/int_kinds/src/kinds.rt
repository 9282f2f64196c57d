// The kinds of integers.

ghost use Rattle.std.specs.Prelude.{◌≡◌, ◌^◌, ◌-◌, ◌↔◌, IsTrue, pos};
ghost use Rattle.int_kinds.specs.Kind.{Holds, IsNumber, high, join, low, width, wrap};

/// A kind of integer: its width and whether it has negative numbers. A `Char` is a byte that is
/// meant as a character.
#[derive(Clone, Copy, Debug, PartialEq, Eq, Hash)]
pub enum Kind {
    /// 8 bits, unsigned.
    Byte,
    /// 16 bits, unsigned.
    Word,
    /// 32 bits, unsigned.
    Dword,
    /// 64 bits, unsigned.
    Qword,
    /// 16 bits, signed.
    Int,
    /// 32 bits, signed.
    Long,
    /// 64 bits, signed.
    Int64,
    /// 8 bits, unsigned.
    Char,
}

/// How many bits the kind has.
pub const fn bits(k: Kind) -> u32
    ensures { result ≡ width k }
{
    match k {
        Kind::Byte | Kind::Char => 8,
        Kind::Word | Kind::Int => 16,
        Kind::Dword | Kind::Long => 32,
        Kind::Qword | Kind::Int64 => 64,
    }
}

/// Whether `n` lies from -2^63 to 2^64 - 1, as the numbers of every kind do.
#[inline]
pub const fn is_number(n: i128) -> bool
    ensures { IsTrue result ↔ IsNumber n }
{
    -(1 << 63) <= n && n < 1 << 64
}

/// Whether the kind has the number `n`.
pub const fn holds(k: Kind, n: i128) -> bool
    requires { IsNumber n }
    ensures { IsTrue result ↔ Holds k n }
{
    least(k) <= n && n <= greatest(k)
}

/// The number of the kind that is congruent to `n` modulo 2 to the kind's width, as a store to a
/// variable of the kind leaves it.
#[inline]
pub const fn wrap(k: Kind, n: i128) -> i128
    requires { IsNumber n }
    ensures { result ≡ wrap k n }
{
    wrap_any(k, n)
}

/// The kind in which a binary operator works on operands of the kinds `a` and `b`: qword if one is
/// qword, else int64 if one is int64, else dword if one is dword, else long.
pub const fn join(a: Kind, b: Kind) -> Kind
    ensures { result ≡ join a b }
{
    match (a, b) {
        (Kind::Qword, _) | (_, Kind::Qword) => Kind::Qword,
        (Kind::Int64, _) | (_, Kind::Int64) => Kind::Int64,
        (Kind::Dword, _) | (_, Kind::Dword) => Kind::Dword,
        _ => Kind::Long,
    }
}

/// The least number of the kind.
const fn least(k: Kind) -> i128
    ensures { result ≡ low k }
{
    match k {
        Kind::Byte | Kind::Word | Kind::Dword | Kind::Qword | Kind::Char => 0,
        Kind::Int => i16::MIN as i128,
        Kind::Long => i32::MIN as i128,
        Kind::Int64 => i64::MIN as i128,
    }
}

/// The greatest number of the kind.
const fn greatest(k: Kind) -> i128
    ensures { result ≡ high k }
{
    match k {
        Kind::Byte | Kind::Char => u8::MAX as i128,
        Kind::Word => u16::MAX as i128,
        Kind::Dword => u32::MAX as i128,
        Kind::Qword => u64::MAX as i128,
        Kind::Int => i16::MAX as i128,
        Kind::Long => i32::MAX as i128,
        Kind::Int64 => i64::MAX as i128,
    }
}

/// `wrap` of any `i128`.
#[inline]
pub(crate) const fn wrap_any(k: Kind, n: i128) -> i128
    ensures { result ≡ wrap k n }
{
    wrap_word(k, n.cast_unsigned())
}

/// `wrap` of a word of 128 bits, of which only the lowest, as many as the kind has, make a
/// difference.
#[inline]
pub(crate) const fn wrap_word(k: Kind, word: u128) -> i128
    ensures { result ≡ wrap k (pos word) }
{
    match k {
        Kind::Byte | Kind::Char => (word & 0xff) as i128,
        Kind::Word => (word & 0xffff) as i128,
        Kind::Dword => (word & 0xffff_ffff) as i128,
        Kind::Qword => (word & 0xffff_ffff_ffff_ffff) as i128,
        Kind::Int => ((word & 0xffff) as u16).cast_signed() as i128,
        Kind::Long => ((word & 0xffff_ffff) as u32).cast_signed() as i128,
        Kind::Int64 => ((word & 0xffff_ffff_ffff_ffff) as u64).cast_signed() as i128,
    }
}
