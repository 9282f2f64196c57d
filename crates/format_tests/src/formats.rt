// Lines of write_format against C, and formats that it refuses.

ghost use Rattle.std.specs.Prelude.{◌≡◌, ◌↔◌, ◌≤◌, ◌≤ℤ◌, All, IfOk, IsTrue, length, pos};
ghost use Rattle.write_format.specs.Line.{IsCharArray, char_arrays};

use int_kinds::Kind;
use items::Items;
use std::alloc::Global;
use std::test::Fail;
use texts::{NoMemory, Text};
use write_format::{ArgKind, CharCells, Format, FormatRefusal, laws, render, render_list};

/// What C's `printf` makes of a number: a format, the kind of its argument, the number and the text.
///
/// A program in C printed the texts, built by gcc for a machine with ints of 32 bits and long longs of
/// 64. It wrote `ll` for `I64` and nothing for `l`, and passed the number modulo 2^32 or 2^64 as the type
/// that `printf` takes there.
static NUMBERS: [(&[u8], Kind, i128, &[u8]); 71] = [
    (b"%d", Kind::Long, -2147483648, b"-2147483648"),
    (b"%d", Kind::Long, -1, b"-1"),
    (b"%d", Kind::Long, 0, b"0"),
    (b"%d", Kind::Long, 7, b"7"),
    (b"%d", Kind::Long, 2147483647, b"2147483647"),
    (b"%ld", Kind::Dword, 4294967295, b"-1"),
    (b"%ld", Kind::Dword, 2147483648, b"-2147483648"),
    (b"%d", Kind::Byte, 255, b"255"),
    (b"%d", Kind::Int, -32768, b"-32768"),
    (b"%d", Kind::Word, 65535, b"65535"),
    (b"%u", Kind::Dword, 0, b"0"),
    (b"%u", Kind::Dword, 255, b"255"),
    (b"%u", Kind::Dword, 4294967295, b"4294967295"),
    (b"%lu", Kind::Long, -1, b"4294967295"),
    (b"%u", Kind::Int, -1, b"4294967295"),
    (b"%x", Kind::Long, -1, b"ffffffff"),
    (b"%x", Kind::Dword, 11259375, b"abcdef"),
    (b"%lx", Kind::Long, -1, b"ffffffff"),
    (b"%lx", Kind::Dword, 11259375, b"abcdef"),
    (b"%X", Kind::Long, -1, b"FFFFFFFF"),
    (b"%X", Kind::Dword, 11259375, b"ABCDEF"),
    (b"%lX", Kind::Long, -1, b"FFFFFFFF"),
    (b"%lX", Kind::Dword, 11259375, b"ABCDEF"),
    (b"%o", Kind::Long, -1, b"37777777777"),
    (b"%o", Kind::Dword, 11259375, b"52746757"),
    (b"%lo", Kind::Long, -1, b"37777777777"),
    (b"%lo", Kind::Dword, 11259375, b"52746757"),
    (b"%x", Kind::Long, 0, b"0"),
    (
        b"%I64d",
        Kind::Int64,
        -9223372036854775808,
        b"-9223372036854775808",
    ),
    (b"%I64d", Kind::Int64, -1, b"-1"),
    (
        b"%I64d",
        Kind::Int64,
        9223372036854775807,
        b"9223372036854775807",
    ),
    (b"%I64d", Kind::Qword, 18446744073709551615, b"-1"),
    (b"%I64u", Kind::Qword, 0, b"0"),
    (
        b"%I64u",
        Kind::Qword,
        18446744073709551615,
        b"18446744073709551615",
    ),
    (
        b"%I64u",
        Kind::Int64,
        -9223372036854775808,
        b"9223372036854775808",
    ),
    (
        b"%I64x",
        Kind::Qword,
        18446744073709551615,
        b"ffffffffffffffff",
    ),
    (b"%I64x", Kind::Int64, -1, b"ffffffffffffffff"),
    (
        b"%I64x",
        Kind::Int64,
        -9223372036854775808,
        b"8000000000000000",
    ),
    (b"%1d", Kind::Long, -42, b"-42"),
    (b"%5d", Kind::Long, -42, b"  -42"),
    (b"%5d", Kind::Long, 42, b"   42"),
    (b"%-5d", Kind::Long, -42, b"-42  "),
    (b"%-5d", Kind::Long, 42, b"42   "),
    (b"%05d", Kind::Long, -42, b"-0042"),
    (b"%05d", Kind::Long, 42, b"00042"),
    (b"%-05d", Kind::Long, -42, b"-42  "),
    (b"%-05d", Kind::Long, 42, b"42   "),
    (b"%0-5d", Kind::Long, -42, b"-42  "),
    (b"%00005d", Kind::Long, -42, b"-0042"),
    (b"%--5d", Kind::Long, -42, b"-42  "),
    (b"%0d", Kind::Long, -42, b"-42"),
    (b"%-d", Kind::Long, -42, b"-42"),
    (
        b"%32d",
        Kind::Long,
        -42,
        b"                             -42",
    ),
    (
        b"%032d",
        Kind::Long,
        -42,
        b"-0000000000000000000000000000042",
    ),
    (
        b"%032d",
        Kind::Long,
        42,
        b"00000000000000000000000000000042",
    ),
    (
        b"%-32d",
        Kind::Long,
        -42,
        b"-42                             ",
    ),
    (b"%8x", Kind::Dword, 48879, b"    beef"),
    (b"%08X", Kind::Dword, 48879, b"0000BEEF"),
    (b"%-8x", Kind::Dword, 48879, b"beef    "),
    (b"%012o", Kind::Dword, 48879, b"000000137357"),
    (b"%3x", Kind::Dword, 48879, b"beef"),
    (
        b"%020I64d",
        Kind::Int64,
        -9223372036854775808,
        b"-9223372036854775808",
    ),
    (
        b"%22I64d",
        Kind::Int64,
        -9223372036854775808,
        b"  -9223372036854775808",
    ),
    (
        b"%-22I64d",
        Kind::Int64,
        -9223372036854775808,
        b"-9223372036854775808  ",
    ),
    (b"%016I64x", Kind::Qword, 1, b"0000000000000001"),
    (
        b"%-25I64u",
        Kind::Qword,
        18446744073709551615,
        b"18446744073709551615     ",
    ),
    (b"%c", Kind::Long, 353, b"a"),
    (b"%c", Kind::Char, 65, b"A"),
    (b"%3c", Kind::Byte, 66, b"  B"),
    (b"%-3c", Kind::Byte, 66, b"B  "),
    (b"%c", Kind::Int, -191, b"A"),
];

/// Lines of several arguments: a format, a letter for each argument, the numbers, and the line. The
/// letters are those of [`argument`]. The texts were printed by C too, from the bytes before their
/// first 0.
static LINES: [(&[u8], &[u8], &[i128], &[u8]); 12] = [
    (b"go \\ on\xff", b"", &[], b"go \\ on\xff"),
    (b"", b"", &[], b""),
    (b"100%%", b"", &[], b"100%"),
    (b"[%5s]", b"t", &[], b"[   ab]"),
    (b"[%-5s|%05s|%1s]", b"ttt", &[], b"[ab   |   ab|ab]"),
    (b"%s %s", b"fr", &[], b"Hi !\xff!"),
    (b"%4s%-4s%0s", b"fff", &[], b"  HiHi  Hi"),
    (b"%s", b"n", &[], b""),
    (b"%d%s%u%c", b"ltlb", &[-1, 7, 353], b"-1ab7a"),
    (b"%-05d|", b"l", &[42], b"42   |"),
    (b"%I64x%%%x", b"ql", &[-1, -1], b"ffffffffffffffff%ffffffff"),
    (b"\0%d\0", b"l", &[3], b"\x003\x00"),
];

/// What is refused: a format, a letter for each argument, and the argument that is wrong, if one is.
static REFUSALS: [(&[u8], &[u8], Option<usize>); 33] = [
    (b"%I64d", b"l", Some(0)),
    (b"%I64u", b"d", Some(0)),
    (b"%I64x", b"t", Some(0)),
    (b"%d", b"q", Some(0)),
    (b"%lu", b"i", Some(0)),
    (b"%X", b"t", Some(0)),
    (b"%c", b"q", Some(0)),
    (b"%c", b"f", Some(0)),
    (b"%s", b"l", Some(0)),
    (b"%s%d%s", b"tll", Some(2)),
    (b"%d%d%I64d%I64d", b"lqll", Some(1)),
    (b"%33d", b"l", None),
    (b"%033d", b"l", None),
    (b"%100s", b"t", None),
    (b"%18446744073709551617d", b"l", None),
    (b"%5%", b"", None),
    (b"%-%", b"", None),
    (b"100%", b"", None),
    (b"%", b"", None),
    (b"%d", b"", None),
    (b"go", b"t", None),
    (b"%d%d", b"l", None),
    (b"%I64d", b"lq", None),
    (b"%5-d", b"l", None),
    (b"%+d", b"l", None),
    (b"%.3s", b"t", None),
    (b"%i", b"l", None),
    (b"%lc", b"l", None),
    (b"%ls", b"t", None),
    (b"%I64X", b"q", None),
    (b"%I64o", b"q", None),
    (b"%I6d", b"q", None),
    (b"%lld", b"q", None),
];

/// The cells of the test's arrays.
static CELLS: [i128; 7] = [120, 72, 105, 0, 33, 255, 33];

/// An argument: a long, a dword, a qword, an int64, a byte, an array with a 0 in it, one with none, an
/// empty one, or the text `ab` before a 0.
fn argument(alloc: Global, letter: u8) -> Result<ArgKind, NoMemory> {
    Ok(match letter {
        b'l' => ArgKind::Number(Kind::Long),
        b'd' => ArgKind::Number(Kind::Dword),
        b'q' => ArgKind::Number(Kind::Qword),
        b'i' => ArgKind::Number(Kind::Int64),
        b'b' => ArgKind::Number(Kind::Byte),
        b'f' => ArgKind::Chars { base: 1, len: 4 },
        b'r' => ArgKind::Chars { base: 4, len: 3 },
        b'n' => ArgKind::Chars { base: 7, len: 0 },
        _ => ArgKind::Str(Text::make(alloc, b"ab\0c")?),
    })
}

/// The arguments of letters.
fn arguments(alloc: Global, letters: &[u8]) -> Result<Vec<ArgKind>, NoMemory> {
    let mut args = Vec::new(alloc);
    for letter in letters {
        args.push(argument(alloc, *letter)?)?;
    }
    Ok(args)
}

/// Whether each cell holds a byte.
fn are_bytes(cells: &[i128]) -> bool
    ensures { IsTrue result ↔ All (λ n. (pos 0 ≤ℤ n) × (n ≤ℤ pos 255)) cells.now }
{
    cells.iter().all(|cell| 0 <= *cell && *cell <= 255)
}

/// Whether cells of these kinds have the arrays of a format.
fn has_arrays(alloc: Global, format: &Format, kinds: &[Kind]) -> Result<bool, Fail>
    ensures { IfOk result (λ found. IsTrue found ↔ All (IsCharArray kinds.now) (char_arrays format.now)) }
{
    let cells = CharCells::of(alloc, kinds)?;
    Ok(format.has_arrays_in(&cells))
}

/// The line of a format with these numbers, where the arrays stand in the test's cells. It has to be the
/// same as a list.
fn line(alloc: Global, format: &Format, numbers: &[i128]) -> Result<Text, Fail> {
    let kinds = [Kind::Char; 7];
    let has_arrays = has_arrays(alloc, format, &kinds)?;
    let fits = numbers.len() == format.numbers_taken();
    if !fits || !has_arrays || !are_bytes(&CELLS) {
        return Err("the format takes something else".into());
    }
    let list = render_list(alloc, format, numbers, &CELLS)?;
    let text = render(alloc, format, numbers, &CELLS)?;
    if list.as_slice() != text.bytes() {
        return Err("the list is another line".into());
    }
    Ok(text)
}

/// What a format makes of a number of this kind.
fn shown(alloc: Global, text: &[u8], kind: Kind, number: i128) -> Result<Text, Fail> {
    let format = Format::read(alloc, text, &[ArgKind::Number(kind)])?;
    line(alloc, &format, &[number])
}

#[test]
fn numbers_are_shown_as_in_c(rt: HostRuntime) -> Result<(), Fail> {
    for &(text, kind, number, expected) in &NUMBERS {
        let line = shown(rt.alloc(), text, kind, number)?;
        assert_eq!(rt; line.bytes(), expected);
    }
    Ok(())
}

/// The copy of a format with arguments of these letters.
fn copied(alloc: Global, text: &[u8], letters: &[u8]) -> Result<Format, Fail> {
    let args = arguments(alloc, letters)?;
    Ok(Format::read(alloc, text, &args)?.copy(alloc)?)
}

#[test]
fn lines_have_their_texts_and_numbers(rt: HostRuntime) -> Result<(), Fail> {
    for &(text, letters, numbers, expected) in &LINES {
        let copy = copied(rt.alloc(), text, letters)?;
        let line = line(rt.alloc(), &copy, numbers)?;
        assert_eq!(rt; line.bytes(), expected);
        assert_eq!(rt; copy.text(), text);
        assert_eq!(rt; copy.args().len(), letters.len());
    }
    Ok(())
}

#[test]
fn wrong_formats_are_refused(rt: HostRuntime) -> Result<(), Fail> {
    let alloc = rt.alloc();
    for &(text, letters, arg) in &REFUSALS {
        let args = arguments(alloc, letters)?;
        let refusal = Format::read(alloc, text, &args).err();
        assert_eq!(rt; refusal, Some(FormatRefusal::Wrong { arg }));
    }
    Ok(())
}

#[test]
fn arrays_are_looked_for(rt: HostRuntime) -> Result<(), Fail> {
    let args = arguments(rt.alloc(), b"f")?;
    let format = Format::read(rt.alloc(), b"%s", &args)?;
    let chars = [Kind::Byte, Kind::Char, Kind::Char, Kind::Char, Kind::Char];
    assert!(rt; has_arrays(rt.alloc(), &format, &chars)?);
    assert!(rt; !has_arrays(rt.alloc(), &format, &chars[..4])?);
    assert!(rt; !has_arrays(rt.alloc(), &format, &[Kind::Byte; 5])?);
    laws::one_format();
    laws::pieces_are_found();
    Ok(())
}

#[test]
fn a_format_keeps_what_it_is_given(rt: HostRuntime) -> Result<(), Fail> {
    let text = Text::make(rt.alloc(), b"100%%")?;
    let format = Format::of_owned(text, Items::from_list(Vec::new(rt.alloc())))?;
    assert_eq!(rt; format.text(), b"100%%".as_slice());
    assert_eq!(rt; format.args().len(), 0);
    Ok(())
}
