// The codes of a text against its arguments.

ghost use Rattle.std.specs.Prelude.{◌≡◌, ◌↔◌, ℕ, List, IfOk, IsErrOf, IsTrue, IsNone, IfSome, None, Some, length};
ghost use Rattle.write_format.specs.Inside.Shown.{AreFit};
ghost use Rattle.write_format.specs.Reading.{AreSpelled, HasCodesFor, IsFirstUnfit, codes_of, first_unfit, is_fit, is_wide};
ghost use Rattle.write_format.specs.declared.piece.Piece as declared;

use crate::argument::ArgKind;
use crate::code::Conversion;
use crate::piece::{Piece, next_piece, place_of};
use crate::refusal::FormatRefusal;
use int_kinds::{Kind, bits};

/// What is found of the codes of a text.
#[derive(Clone, Copy, Debug)]
pub(crate) struct Survey {
    /// How many there are.
    pub(crate) codes: usize,
    /// The first argument that its code does not show.
    pub(crate) unfit: Option<usize>,
}

/// Refuses a text and arguments that are no format. Takes no memory.
pub(crate) fn check_codes(text: &[u8], args: &[ArgKind]) -> Result<(), FormatRefusal>
    ensures fit { IfOk result (λ done. AreFit text.now args.now) }
    ensures wrong { IsErrOf result (FormatRefusal.Wrong None) ↔ ¬ (HasCodesFor text.now args.now) }
    ensures unfit { (place : ℕ) →
        IsErrOf result (FormatRefusal.Wrong (Some place)) ↔ IsFirstUnfit text.now args.now place }
{
    let Some(survey) = look_over(text, args) else {
        return Err(FormatRefusal::Wrong { arg: None });
    };
    if survey.codes != args.len() {
        return Err(FormatRefusal::Wrong { arg: None });
    }
    if let Some(place) = survey.unfit {
        return Err(FormatRefusal::Wrong { arg: Some(place) });
    }
    Ok(())
}

/// The codes of a text against these arguments, or None where the text has no reading.
fn look_over(text: &[u8], args: &[ArgKind]) -> Option<Survey>
    ensures none { IsNone result ↔ ((pieces : List declared.Piece) → AreSpelled text.now pieces → ⊥) }
    ensures some { IfSome result (λ survey. (pieces : List declared.Piece) × AreSpelled text.now pieces
        × (survey.codes ≡ length (codes_of pieces))
        × (survey.unfit ≡ first_unfit (codes_of pieces) args.now)) }
{
    let mut rest = text;
    let mut codes = 0;
    let mut unfit = None;
    while let Some((piece, behind)) = next_piece(rest) {
        match piece {
            Piece::Byte(_) => rest = &behind[place_of(b'%', behind)..],
            Piece::Argument(code) => {
                if unfit.is_none() && codes < args.len() && !is_fit(code.conversion, &args[codes]) {
                    unfit = Some(codes);
                }
                codes += 1;
                rest = behind;
            }
        }
    }
    if rest.is_empty() {
        Some(Survey { codes, unfit })
    } else {
        None
    }
}

/// Whether a conversion shows such an argument.
fn is_fit(conversion: Conversion, arg: &ArgKind) -> bool
    ensures { result ≡ is_fit conversion arg.now }
{
    match (conversion, arg) {
        (Conversion::Number { kind, .. }, ArgKind::Number(given)) => {
            is_wide(kind) == is_wide(*given)
        }
        (Conversion::Character, ArgKind::Number(given)) => !is_wide(*given),
        (Conversion::Text, ArgKind::Chars { .. } | ArgKind::Str(_)) => true,
        _ => false,
    }
}

/// Whether the kind has more than 32 bits.
fn is_wide(kind: Kind) -> bool
    ensures { result ≡ is_wide kind }
{
    bits(kind) == 64
}
