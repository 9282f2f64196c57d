// Tests against C, and at the edges of ranges.

ghost use Rattle.int_kinds.specs.Kind.{IsNumber};

use int_kinds::{
    BinOp, Kind, add, and, bits, div, holds, inv, is_equal, is_number, join, laws, mul, neg, or,
    rem, residue, shl, shr, sub, truth, value, wrap, xor,
};

/// The least and the greatest number that a call takes.
const LEAST: i128 = -0x8000_0000_0000_0000;

const GREATEST: i128 = 0xffff_ffff_ffff_ffff;

/// What C's operators give on `uint8_t` to `uint64_t` and `int16_t` to `int64_t`: an operator, the
/// kind of the type, two operands and the result.
///
/// A program in C printed the rows, built by gcc. It cast the operands to the type, and the result
/// back to it. It took sums, differences, products and bits of both as `uint64_t`, shifted left an
/// operand cast to the unsigned type of its width, shifted right one of the type itself, by a count
/// modulo the width, and divided numbers of the type.
static ANSWERS_OF_C: [(BinOp, Kind, i128, i128, i128); 168] = [
    (BinOp::Add, Kind::Byte, 255, 1, 0),
    (BinOp::Add, Kind::Byte, 0, 255, 255),
    (BinOp::Sub, Kind::Byte, 0, 1, 255),
    (BinOp::Sub, Kind::Byte, 0, 255, 1),
    (BinOp::Mul, Kind::Byte, 255, 255, 1),
    (BinOp::Mul, Kind::Byte, 0, 255, 0),
    (BinOp::Mul, Kind::Byte, 85, 7, 83),
    (BinOp::And, Kind::Byte, 255, 85, 85),
    (BinOp::And, Kind::Byte, 250, 0, 0),
    (BinOp::Or, Kind::Byte, 0, 51, 51),
    (BinOp::Or, Kind::Byte, 170, 51, 187),
    (BinOp::Xor, Kind::Byte, 255, 255, 0),
    (BinOp::Xor, Kind::Byte, 0, 36, 36),
    (BinOp::Shl, Kind::Byte, 85, 1, 170),
    (BinOp::Shl, Kind::Byte, 253, 10, 244),
    (BinOp::Shl, Kind::Byte, 1, 7, 128),
    (BinOp::Shl, Kind::Byte, 5, 255, 128),
    (BinOp::Shr, Kind::Byte, 0, 7, 0),
    (BinOp::Shr, Kind::Byte, 249, 1, 124),
    (BinOp::Shr, Kind::Byte, 255, 11, 31),
    (BinOp::Div, Kind::Byte, 255, 254, 1),
    (BinOp::Div, Kind::Byte, 249, 2, 124),
    (BinOp::Rem, Kind::Byte, 249, 2, 1),
    (BinOp::Rem, Kind::Byte, 255, 246, 9),
    (BinOp::Add, Kind::Word, 65535, 1, 0),
    (BinOp::Add, Kind::Word, 0, 65535, 65535),
    (BinOp::Sub, Kind::Word, 0, 1, 65535),
    (BinOp::Sub, Kind::Word, 0, 65535, 1),
    (BinOp::Mul, Kind::Word, 65535, 65535, 1),
    (BinOp::Mul, Kind::Word, 0, 65535, 0),
    (BinOp::Mul, Kind::Word, 21845, 7, 21843),
    (BinOp::And, Kind::Word, 65535, 21845, 21845),
    (BinOp::And, Kind::Word, 65530, 0, 0),
    (BinOp::Or, Kind::Word, 0, 13107, 13107),
    (BinOp::Or, Kind::Word, 65450, 51, 65467),
    (BinOp::Xor, Kind::Word, 65535, 65535, 0),
    (BinOp::Xor, Kind::Word, 0, 9362, 9362),
    (BinOp::Shl, Kind::Word, 21845, 1, 43690),
    (BinOp::Shl, Kind::Word, 65533, 18, 65524),
    (BinOp::Shl, Kind::Word, 1, 15, 32768),
    (BinOp::Shl, Kind::Word, 5, 65535, 32768),
    (BinOp::Shr, Kind::Word, 0, 15, 0),
    (BinOp::Shr, Kind::Word, 65529, 1, 32764),
    (BinOp::Shr, Kind::Word, 65535, 19, 8191),
    (BinOp::Div, Kind::Word, 65535, 65534, 1),
    (BinOp::Div, Kind::Word, 65529, 2, 32764),
    (BinOp::Rem, Kind::Word, 65529, 2, 1),
    (BinOp::Rem, Kind::Word, 65535, 65526, 9),
    (BinOp::Add, Kind::Dword, 4294967295, 1, 0),
    (BinOp::Add, Kind::Dword, 0, 4294967295, 4294967295),
    (BinOp::Sub, Kind::Dword, 0, 1, 4294967295),
    (BinOp::Sub, Kind::Dword, 0, 4294967295, 1),
    (BinOp::Mul, Kind::Dword, 4294967295, 4294967295, 1),
    (BinOp::Mul, Kind::Dword, 0, 4294967295, 0),
    (BinOp::Mul, Kind::Dword, 1431655765, 7, 1431655763),
    (BinOp::And, Kind::Dword, 4294967295, 1431655765, 1431655765),
    (BinOp::And, Kind::Dword, 4294967290, 0, 0),
    (BinOp::Or, Kind::Dword, 0, 858993459, 858993459),
    (BinOp::Or, Kind::Dword, 4294967210, 51, 4294967227),
    (BinOp::Xor, Kind::Dword, 4294967295, 4294967295, 0),
    (BinOp::Xor, Kind::Dword, 0, 613566756, 613566756),
    (BinOp::Shl, Kind::Dword, 1431655765, 1, 2863311530),
    (BinOp::Shl, Kind::Dword, 4294967293, 34, 4294967284),
    (BinOp::Shl, Kind::Dword, 1, 31, 2147483648),
    (BinOp::Shl, Kind::Dword, 5, 4294967295, 2147483648),
    (BinOp::Shr, Kind::Dword, 0, 31, 0),
    (BinOp::Shr, Kind::Dword, 4294967289, 1, 2147483644),
    (BinOp::Shr, Kind::Dword, 4294967295, 35, 536870911),
    (BinOp::Div, Kind::Dword, 4294967295, 4294967294, 1),
    (BinOp::Div, Kind::Dword, 4294967289, 2, 2147483644),
    (BinOp::Rem, Kind::Dword, 4294967289, 2, 1),
    (BinOp::Rem, Kind::Dword, 4294967295, 4294967286, 9),
    (BinOp::Add, Kind::Qword, 18446744073709551615, 1, 0),
    (
        BinOp::Add,
        Kind::Qword,
        0,
        18446744073709551615,
        18446744073709551615,
    ),
    (BinOp::Sub, Kind::Qword, 0, 1, 18446744073709551615),
    (BinOp::Sub, Kind::Qword, 0, 18446744073709551615, 1),
    (
        BinOp::Mul,
        Kind::Qword,
        18446744073709551615,
        18446744073709551615,
        1,
    ),
    (BinOp::Mul, Kind::Qword, 0, 18446744073709551615, 0),
    (
        BinOp::Mul,
        Kind::Qword,
        6148914691236517205,
        7,
        6148914691236517203,
    ),
    (
        BinOp::And,
        Kind::Qword,
        18446744073709551615,
        6148914691236517205,
        6148914691236517205,
    ),
    (BinOp::And, Kind::Qword, 18446744073709551610, 0, 0),
    (
        BinOp::Or,
        Kind::Qword,
        0,
        3689348814741910323,
        3689348814741910323,
    ),
    (
        BinOp::Or,
        Kind::Qword,
        18446744073709551530,
        51,
        18446744073709551547,
    ),
    (
        BinOp::Xor,
        Kind::Qword,
        18446744073709551615,
        18446744073709551615,
        0,
    ),
    (
        BinOp::Xor,
        Kind::Qword,
        0,
        2635249153387078802,
        2635249153387078802,
    ),
    (
        BinOp::Shl,
        Kind::Qword,
        6148914691236517205,
        1,
        12297829382473034410,
    ),
    (
        BinOp::Shl,
        Kind::Qword,
        18446744073709551613,
        66,
        18446744073709551604,
    ),
    (BinOp::Shl, Kind::Qword, 1, 63, 9223372036854775808),
    (
        BinOp::Shl,
        Kind::Qword,
        5,
        18446744073709551615,
        9223372036854775808,
    ),
    (BinOp::Shr, Kind::Qword, 0, 63, 0),
    (
        BinOp::Shr,
        Kind::Qword,
        18446744073709551609,
        1,
        9223372036854775804,
    ),
    (
        BinOp::Shr,
        Kind::Qword,
        18446744073709551615,
        67,
        2305843009213693951,
    ),
    (
        BinOp::Div,
        Kind::Qword,
        18446744073709551615,
        18446744073709551614,
        1,
    ),
    (
        BinOp::Div,
        Kind::Qword,
        18446744073709551609,
        2,
        9223372036854775804,
    ),
    (BinOp::Rem, Kind::Qword, 18446744073709551609, 2, 1),
    (
        BinOp::Rem,
        Kind::Qword,
        18446744073709551615,
        18446744073709551606,
        9,
    ),
    (BinOp::Add, Kind::Int, 32767, 1, -32768),
    (BinOp::Add, Kind::Int, -32768, -1, 32767),
    (BinOp::Sub, Kind::Int, -32768, 1, 32767),
    (BinOp::Sub, Kind::Int, 0, 32767, -32767),
    (BinOp::Mul, Kind::Int, 32767, 32767, 1),
    (BinOp::Mul, Kind::Int, -32768, -1, -32768),
    (BinOp::Mul, Kind::Int, 10922, 7, 10918),
    (BinOp::And, Kind::Int, 32767, 10922, 10922),
    (BinOp::And, Kind::Int, -6, -32768, -32768),
    (BinOp::Or, Kind::Int, -32768, 6553, -26215),
    (BinOp::Or, Kind::Int, -86, 51, -69),
    (BinOp::Xor, Kind::Int, 32767, -1, -32768),
    (BinOp::Xor, Kind::Int, -32768, 4681, -28087),
    (BinOp::Shl, Kind::Int, 10922, 1, 21844),
    (BinOp::Shl, Kind::Int, -3, 18, -12),
    (BinOp::Shl, Kind::Int, 1, 15, -32768),
    (BinOp::Shl, Kind::Int, 5, -1, -32768),
    (BinOp::Shr, Kind::Int, -32768, 15, -1),
    (BinOp::Shr, Kind::Int, -7, 1, -4),
    (BinOp::Shr, Kind::Int, 32767, 19, 4095),
    (BinOp::Div, Kind::Int, 32767, -2, -16383),
    (BinOp::Div, Kind::Int, -7, 2, -3),
    (BinOp::Rem, Kind::Int, -7, 2, -1),
    (BinOp::Rem, Kind::Int, 32767, -10, 7),
    (BinOp::Add, Kind::Long, 2147483647, 1, -2147483648),
    (BinOp::Add, Kind::Long, -2147483648, -1, 2147483647),
    (BinOp::Sub, Kind::Long, -2147483648, 1, 2147483647),
    (BinOp::Sub, Kind::Long, 0, 2147483647, -2147483647),
    (BinOp::Mul, Kind::Long, 2147483647, 2147483647, 1),
    (BinOp::Mul, Kind::Long, -2147483648, -1, -2147483648),
    (BinOp::Mul, Kind::Long, 715827882, 7, 715827878),
    (BinOp::And, Kind::Long, 2147483647, 715827882, 715827882),
    (BinOp::And, Kind::Long, -6, -2147483648, -2147483648),
    (BinOp::Or, Kind::Long, -2147483648, 429496729, -1717986919),
    (BinOp::Or, Kind::Long, -86, 51, -69),
    (BinOp::Xor, Kind::Long, 2147483647, -1, -2147483648),
    (BinOp::Xor, Kind::Long, -2147483648, 306783378, -1840700270),
    (BinOp::Shl, Kind::Long, 715827882, 1, 1431655764),
    (BinOp::Shl, Kind::Long, -3, 34, -12),
    (BinOp::Shl, Kind::Long, 1, 31, -2147483648),
    (BinOp::Shl, Kind::Long, 5, -1, -2147483648),
    (BinOp::Shr, Kind::Long, -2147483648, 31, -1),
    (BinOp::Shr, Kind::Long, -7, 1, -4),
    (BinOp::Shr, Kind::Long, 2147483647, 35, 268435455),
    (BinOp::Div, Kind::Long, 2147483647, -2, -1073741823),
    (BinOp::Div, Kind::Long, -7, 2, -3),
    (BinOp::Rem, Kind::Long, -7, 2, -1),
    (BinOp::Rem, Kind::Long, 2147483647, -10, 7),
    (
        BinOp::Add,
        Kind::Int64,
        9223372036854775807,
        1,
        -9223372036854775808,
    ),
    (
        BinOp::Add,
        Kind::Int64,
        -9223372036854775808,
        -1,
        9223372036854775807,
    ),
    (
        BinOp::Sub,
        Kind::Int64,
        -9223372036854775808,
        1,
        9223372036854775807,
    ),
    (
        BinOp::Sub,
        Kind::Int64,
        0,
        9223372036854775807,
        -9223372036854775807,
    ),
    (
        BinOp::Mul,
        Kind::Int64,
        9223372036854775807,
        9223372036854775807,
        1,
    ),
    (
        BinOp::Mul,
        Kind::Int64,
        -9223372036854775808,
        -1,
        -9223372036854775808,
    ),
    (
        BinOp::Mul,
        Kind::Int64,
        3074457345618258602,
        7,
        3074457345618258598,
    ),
    (
        BinOp::And,
        Kind::Int64,
        9223372036854775807,
        3074457345618258602,
        3074457345618258602,
    ),
    (
        BinOp::And,
        Kind::Int64,
        -6,
        -9223372036854775808,
        -9223372036854775808,
    ),
    (
        BinOp::Or,
        Kind::Int64,
        -9223372036854775808,
        1844674407370955161,
        -7378697629483820647,
    ),
    (BinOp::Or, Kind::Int64, -86, 51, -69),
    (
        BinOp::Xor,
        Kind::Int64,
        9223372036854775807,
        -1,
        -9223372036854775808,
    ),
    (
        BinOp::Xor,
        Kind::Int64,
        -9223372036854775808,
        1317624576693539401,
        -7905747460161236407,
    ),
    (
        BinOp::Shl,
        Kind::Int64,
        3074457345618258602,
        1,
        6148914691236517204,
    ),
    (BinOp::Shl, Kind::Int64, -3, 66, -12),
    (BinOp::Shl, Kind::Int64, 1, 63, -9223372036854775808),
    (BinOp::Shl, Kind::Int64, 5, -1, -9223372036854775808),
    (BinOp::Shr, Kind::Int64, -9223372036854775808, 63, -1),
    (BinOp::Shr, Kind::Int64, -7, 1, -4),
    (
        BinOp::Shr,
        Kind::Int64,
        9223372036854775807,
        67,
        1152921504606846975,
    ),
    (
        BinOp::Div,
        Kind::Int64,
        9223372036854775807,
        -2,
        -4611686018427387903,
    ),
    (BinOp::Div, Kind::Int64, -7, 2, -3),
    (BinOp::Rem, Kind::Int64, -7, 2, -1),
    (BinOp::Rem, Kind::Int64, 9223372036854775807, -10, 7),
];

/// The value of an operator that C has on two numbers.
fn calculate(op: BinOp, k: Kind, a: i128, b: i128) -> Option<i128>
    requires left { IsNumber a }
    requires right { IsNumber b }
{
    match op {
        BinOp::Add => Some(add(k, a, b)),
        BinOp::Sub => Some(sub(k, a, b)),
        BinOp::Mul => Some(mul(k, a, b)),
        BinOp::And => Some(and(k, a, b)),
        BinOp::Or => Some(or(k, a, b)),
        BinOp::Xor => Some(xor(k, a, b)),
        BinOp::Shl => Some(shl(k, a, b)),
        BinOp::Shr => Some(shr(k, a, b)),
        BinOp::Div => div(k, a, b),
        BinOp::Rem => rem(k, a, b),
        _ => None,
    }
}

#[test]
fn operators_answer_as_in_c(rt: HostRuntime) {
    for &(op, k, a, b, result) in &ANSWERS_OF_C {
        assert!(rt; is_number(a) && is_number(b));
        assert_eq!(rt;
            calculate(op, k, a, b),
            Some(result),
            "{op:?} {k:?} {a} {b}"
        );
        assert_eq!(rt; value(op, k, a, b), Some(result));
    }
}

#[test]
fn comparisons_are_of_wrapped_numbers(rt: HostRuntime) {
    assert_eq!(rt; value(BinOp::Less, Kind::Int, 0x1_0001, 2), Some(1));
    assert_eq!(rt; value(BinOp::OrElse, Kind::Int, 1, 2), None);
    assert!(rt; is_equal(-1, -1));
}

/// Operands that are wrapped first.
static WRAPPED: [(BinOp, Kind, i128, i128, Option<i128>); 8] = [
    // The product of the two greatest numbers needs all 128 bits.
    (BinOp::Mul, Kind::Qword, GREATEST, GREATEST, Some(1)),
    (
        BinOp::Mul,
        Kind::Long,
        0xffff_ffff_fffe_1235,
        GREATEST,
        Some(0x1_edcb),
    ),
    (BinOp::Add, Kind::Int64, GREATEST, GREATEST, Some(-2)),
    (BinOp::Shr, Kind::Byte, 0x1ff, 7, Some(1)),
    // A divisor that is 0 once it is wrapped.
    (BinOp::Div, Kind::Byte, 1, 0x100, None),
    (BinOp::Rem, Kind::Int, 1, 0x1_0000, None),
    // The least number divided by -1.
    (BinOp::Div, Kind::Int64, LEAST, -1, Some(LEAST)),
    (BinOp::Rem, Kind::Int64, LEAST, -1, Some(0)),
];

#[test]
fn operands_are_wrapped_first(rt: HostRuntime) {
    for &(op, k, a, b, result) in &WRAPPED {
        assert!(rt; is_number(a) && is_number(b));
        assert_eq!(rt; calculate(op, k, a, b), result, "{op:?} {k:?} {a} {b}");
    }
    for (k, a, negated, inverted) in [
        (Kind::Long, -0x8000_0000, -0x8000_0000, 0x7fff_ffff),
        (Kind::Dword, 1, 0xffff_ffff, 0xffff_fffe),
        (Kind::Int64, 0, 0, -1),
        (Kind::Char, 0x5a, 0xa6, 0xa5),
    ] {
        assert!(rt; is_number(a));
        assert_eq!(rt; neg(k, a), negated);
        assert_eq!(rt; inv(k, a), inverted);
    }
}

#[test]
fn kinds_have_the_ranges_of_c(rt: HostRuntime) {
    for (k, width, least, greatest) in [
        (Kind::Byte, 8, 0, 255),
        (Kind::Word, 16, 0, 65535),
        (Kind::Dword, 32, 0, 4294967295),
        (Kind::Qword, 64, 0, GREATEST),
        (Kind::Int, 16, -32768, 32767),
        (Kind::Long, 32, -2147483648, 2147483647),
        (Kind::Int64, 64, LEAST, 9223372036854775807),
        (Kind::Char, 8, 0, 255),
    ] {
        assert_eq!(rt; bits(k), width);
        assert!(rt; LEAST <= least && least <= 0 && 0 < greatest && greatest <= GREATEST);
        assert!(rt; holds(k, least) && holds(k, greatest));
        assert_eq!(rt; holds(k, LEAST), least == LEAST);
        assert_eq!(rt; holds(k, GREATEST), greatest == GREATEST);
        assert_eq!(rt; wrap(k, -1), if least < 0 { -1 } else { greatest });
        assert_eq!(rt; residue(k, -1), (u128::MAX >> (128 - width)) as u64);
    }
}

#[test]
fn joins_are_of_the_widest(rt: HostRuntime) {
    for (a, b, joined) in [
        (Kind::Byte, Kind::Char, Kind::Long),
        (Kind::Int, Kind::Word, Kind::Long),
        (Kind::Long, Kind::Dword, Kind::Dword),
        (Kind::Dword, Kind::Int64, Kind::Int64),
        (Kind::Int64, Kind::Qword, Kind::Qword),
        (Kind::Qword, Kind::Byte, Kind::Qword),
    ] {
        assert_eq!(rt; join(a, b), joined);
        assert_eq!(rt; join(b, a), joined);
    }
}

#[test]
fn numbers_lie_in_the_range_of_all_kinds(rt: HostRuntime) {
    assert!(rt; is_number(LEAST) && is_number(GREATEST));
    assert!(rt; !is_number(LEAST - 1) && !is_number(GREATEST + 1));
    assert_eq!(rt; residue(Kind::Word, LEAST - 1), 0xffff);
    assert_eq!(rt; truth(true), 1);
    assert_eq!(rt; truth(false), 0);
}

#[test]
fn laws_can_be_called() {
    laws::wrapped_is_unique(Kind::Byte);
}
