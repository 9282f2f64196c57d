// The codes of write formats.

ghost use Rattle.std.specs.Prelude.{◌≡◌, ◌∷◌, IfOk};
ghost use Rattle.std.specs.Option.{option_copied, option_map};
ghost use Rattle.write_format.specs.Reading.{is_wide};
ghost use Rattle.capl_meaning.specs.declared.builtin.Builtin.TheVariants as builtin;
ghost use Rattle.capl_meaning.specs.declared.sort.Sort.TheVariants as sort;
ghost use Rattle.capl_meaning.specs.Format.{format_codes, shows};
ghost use Rattle.capl_meaning.specs.Sort.{sort_of_builtin};
ghost use Rattle.check_sorts.specs.Format.{LeavesLess, codes_by, shown};

use capl_meaning::{Builtin, Sort};
use int_kinds::{Kind, bits};
use std::alloc::Global;
use texts::NoMemory;
use write_format::{Code, Conversion, Piece, next_piece};

/// What is first of the codes of a text.
#[derive(Clone, Copy)]
pub enum NextCode<'t> {
    /// A code, and what stands behind it.
    Code(Code, &'t [u8]),
    /// The end of the text.
    End,
    /// What is no part of a format.
    Wrong,
}

/// The first code of a text, and what stands behind it. Takes time linear in what stands up to there.
pub fn next_code(text: &[u8]) -> NextCode
    ensures codes { codes_by result ≡ format_codes text.now }
    ensures shorter { LeavesLess text.now result }
{
    let mut rest = text;
    while let Some((piece, behind)) = next_piece(rest) {
        if let Piece::Argument(code) = piece {
            return NextCode::Code(code, behind);
        }
        rest = behind;
    }
    if rest.is_empty() {
        NextCode::End
    } else {
        NextCode::Wrong
    }
}

/// The codes of a text, or None where it is no format. Takes time linear in the text, and memory linear
/// in its codes.
pub fn read_codes(alloc: Global, text: &[u8]) -> Result<Option<Vec<Code>>, NoMemory>
    ensures { IfOk result (λ codes. option_map (λ found. found.items) codes ≡ format_codes text.now) }
{
    let mut codes = Vec::new(alloc);
    let mut left = text;
    while let NextCode::Code(code, behind) = next_code(left) {
        codes.push(code)?;
        left = behind;
    }
    match next_code(left) {
        NextCode::End => Ok(Some(codes)),
        _ => Ok(None),
    }
}

/// Whether the kind has more than 32 bits.
fn is_wide(kind: Kind) -> bool
    ensures { result ≡ is_wide kind }
{
    bits(kind) == 64
}

/// Whether a code shows an expression of a sort.
pub fn shows(code: Code, sort: Sort) -> bool
    ensures { result ≡ shows code sort }
{
    match (code.conversion, sort) {
        (Conversion::Number { kind, .. }, Sort::Number(given)) => is_wide(kind) == is_wide(given),
        (Conversion::Character, Sort::Number(given)) => !is_wide(given),
        (Conversion::Text, Sort::Array(Kind::Char) | Sort::Text) => true,
        _ => false,
    }
}

/// Whether a text has codes, as many as there are sorts, and each shows its one. Takes no memory.
pub fn shows_all(text: &[u8], sorts: &[Sort]) -> bool
    ensures { result ≡ shown (format_codes text.now) sorts.now }
{
    let mut rest = text;
    let mut left = sorts;
    while let NextCode::Code(code, behind) = next_code(rest) {
        let [sort, others @ ..] = left else {
            return false;
        };
        if !shows(code, *sort) {
            return false;
        }
        rest = behind;
        left = others;
    }
    matches!(next_code(rest), NextCode::End) && left.is_empty()
}

/// A function of the language that is given expressions of these sorts; of `write` also the text of the
/// first. Takes time linear in the text and the sorts, and no memory.
pub fn sort_of_builtin(builtin: Builtin, text: Option<&[u8]>, sorts: &[Sort]) -> Sort
    ensures { result ≡ sort_of_builtin builtin (option_copied text.entry) sorts.now }
{
    match (builtin, sorts) {
        (Builtin::Output, [Sort::Message]) => Sort::Nothing,
        (Builtin::Write, [Sort::Text, rest @ ..]) => sort_of_write(text, rest),
        (Builtin::SetTimer | Builtin::SetTimerCyclic, [Sort::Timer, Sort::Number(_)]) =>
            Sort::Nothing,
        (Builtin::CancelTimer, [Sort::Timer]) => Sort::Nothing,
        (Builtin::Stop, []) => Sort::Nothing,
        (Builtin::IsTimerActive, [Sort::Timer]) => Sort::Number(Kind::Long),
        (Builtin::TimeNow, []) => Sort::Number(Kind::Dword),
        (Builtin::ElCount, [Sort::Array(_)]) => Sort::Number(Kind::Long),
        _ => Sort::Bad,
    }
}

/// A `write` of a text with arguments of these sorts.
fn sort_of_write(text: Option<&[u8]>, rest: &[Sort]) -> Sort
    ensures { result ≡ sort_of_builtin builtin.Write (option_copied text.entry) (sort.Text ∷ rest.now) }
{
    match text {
        Some(text) if shows_all(text, rest) => Sort::Nothing,
        _ => Sort::Bad,
    }
}
