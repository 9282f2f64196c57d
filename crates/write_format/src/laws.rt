//! Laws of formats. Each call does nothing: its contract is the law.

ghost use Rattle.std.specs.Prelude.{◌≡◌, List, Some, ℕ};
ghost use Rattle.write_format.specs.Line.{FormatText, IsFormatOf};
ghost use Rattle.write_format.specs.Reading.{AreSpelled, pieces_of};
ghost use Rattle.write_format.specs.declared.argument.ArgKind as declared;
ghost use Rattle.write_format.specs.declared.piece.Piece.{Piece};

/// A text has at most one format for its arguments.
pub fn one_format()
    ensures { (text : List ℕ) (arguments : List declared.ArgKind) (format other : FormatText) →
        IsFormatOf text arguments format → IsFormatOf text arguments other → other ≡ format }
{}

/// The pieces that are found in a text, one after another, are those that spell it, if any do.
pub fn pieces_are_found()
    ensures found { (text : List ℕ) (pieces : List Piece) →
        AreSpelled text pieces → pieces_of text ≡ Some pieces }
    ensures spelled { (text : List ℕ) (pieces : List Piece) →
        pieces_of text ≡ Some pieces → AreSpelled text pieces }
{}
