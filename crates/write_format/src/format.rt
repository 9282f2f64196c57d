// Formats.

ghost use Rattle.std.specs.Prelude.{◌≡◌, ◌↔◌, ◌<◌, ◌^◌, ℕ, List, All, IfOk, IsErrOf, IsTrue, Some, None, count_by, length};
ghost use Rattle.write_format.specs.Line.{IsCharArray, IsFormatOf, IsShort, IsShortArgument, char_arrays, numbers_taken};
ghost use Rattle.write_format.specs.Inside.Shown.{AreFit, IsArrayIn, IsShownShort, format_held, is_number};
ghost use Rattle.write_format.specs.Reading.{AreSpelled, HasCodesFor, IsFirstUnfit};
ghost use Rattle.write_format.specs.declared.piece.Piece as declared;

use crate::argument::ArgKind;
use crate::chars::CharCells;
use crate::piece::{count_pieces, place_of};
use crate::reading::check_codes;
use crate::refusal::FormatRefusal;
use items::Items;
use std::alloc::Global;
use std::marker::Model;
use texts::{NoMemory, Text};

/// No list of code is as long as this.
pub(crate) const LIMIT: usize = 0x1_0000_0000;

/// A format with what is known of its arguments.
///
/// It keeps the text and the arguments that it was read from, of which a line is made piece by piece, and
/// how many numbers a line takes.
#[derive(Debug, Drop)]
pub struct Format {
    text: Text,
    args: Items<ArgKind>,
    numbers: usize,
}

impl Model for Format {
    ghost use Rattle.std.specs.Prelude.{◌≡◌};
    ghost use Rattle.write_format.specs.Line.{FormatText, numbers_taken};
    ghost use Rattle.write_format.specs.Inside.Shown.{AreFit, format_held};

    ghost Value = { FormatText };

    ghost view = { λ format. format_held format.text format.args };

    ghost invariant = { λ format. AreFit format.text format.args
        × (format.numbers ≡ numbers_taken (format_held format.text format.args)) };
}

impl Format {
    /// The format of this text and these arguments. It is wrong exactly where the text is no format, or
    /// has another number of codes than there are arguments, or an argument does not fit its code; the
    /// first argument that does not is named. Takes time and memory linear in the text and in the
    /// texts among the arguments.
    pub fn read(alloc: Global, text: &[u8], args: &[ArgKind]) -> Result<Format, FormatRefusal>
        ensures format { IfOk result (IsFormatOf text.now args.now) }
        ensures wrong { IsErrOf result (FormatRefusal.Wrong None) ↔ ¬ (HasCodesFor text.now args.now) }
        ensures unfit { (place : ℕ) →
            IsErrOf result (FormatRefusal.Wrong (Some place)) ↔ IsFirstUnfit text.now args.now place }

        // Short texts make a format that code can hold.
        ensures short { IfOk result (λ format.
            length text.now < 2 ^ 32 → All IsShortArgument args.now → IsShort format) }
    {
        check_codes(text, args)?;
        let own = Text::make(alloc, text)?;
        let given = copy_args(alloc, args)?;
        Ok(from_fit(own, given))
    }

    /// The same as [`Format::read`] of a text and arguments that it keeps, so that nothing is copied.
    /// Takes time linear in the text and in the arguments, and no memory.
    pub fn of_owned(text: Text, args: Items<ArgKind>) -> Result<Format, FormatRefusal>
        ensures format { IfOk result (IsFormatOf text args) }
        ensures wrong { IsErrOf result (FormatRefusal.Wrong None) ↔ ¬ (HasCodesFor text args) }
        ensures unfit { (place : ℕ) →
            IsErrOf result (FormatRefusal.Wrong (Some place)) ↔ IsFirstUnfit text args place }

        // Short texts make a format that code can hold.
        ensures short { IfOk result (λ format.
            length text < 2 ^ 32 → All IsShortArgument args → IsShort format) }
    {
        check_codes(text.bytes(), args.as_slice())?;
        Ok(from_fit(text, args))
    }

    /// The same format once more. Takes time and memory linear in its text and the texts in it.
    pub fn copy(&self, alloc: Global) -> Result<Format, NoMemory>
        ensures { IfOk result (λ format. format ≡ self.now) }
    {
        let text = Text::make(alloc, self.text.bytes())?;
        let args = copy_args(alloc, self.args.as_slice())?;
        Ok(from_fit(text, args))
    }

    /// The text that it was read from.
    pub fn text(&self) -> &[u8]
        ensures text { result.now ≡ (self.now).text }
        ensures read { IsFormatOf (self.now).text (self.now).arguments self.now }
    {
        self.text.bytes()
    }

    /// The arguments that it was read with.
    pub fn args(&self) -> &[ArgKind]
        ensures { result.now ≡ (self.now).arguments }
    {
        self.args.as_slice()
    }

    /// How many numbers a line of this format takes.
    pub fn numbers_taken(&self) -> usize
        ensures { result ≡ numbers_taken self.now }
    {
        self.numbers
    }

    /// Whether the arrays of characters that it reads are among these cells. Takes time linear in its
    /// arguments.
    pub fn has_arrays_in(&self, cells: &CharCells<'_>) -> bool
        ensures { IsTrue result ↔ All (IsCharArray cells.now) (char_arrays self.now) }
    {
        are_arrays_in(self.args.as_slice(), cells)
    }

    /// Whether it is as short as the lists of code have to be: it has fewer than 2^32 parts, of which
    /// each byte of its text is one, and so have the texts in it. Takes time linear in its text and in
    /// its arguments.
    pub fn is_short(&self) -> bool
        ensures { IsTrue result ↔ IsShort self.now }
    {
        has_few_pieces(self.text.bytes()) && are_shown_short(self.args.as_slice())
    }
}

/// The format of a text and arguments, each of which its code shows.
fn from_fit(text: Text, args: Items<ArgKind>) -> Format
    requires { AreFit text args }
    ensures held { result ≡ format_held text args }
    ensures format { IsFormatOf text args result }
{
    let numbers = count_numbers(args.as_slice());
    Format {
        text,
        args,
        numbers,
    }
}

/// The same arguments once more.
fn copy_args(alloc: Global, args: &[ArgKind]) -> Result<Items<ArgKind>, NoMemory>
    ensures { IfOk result (λ copies. copies ≡ args.now) }
{
    let mut copies = Vec::with_capacity(alloc, args.len())?;
    for arg in args {
        copies.push(arg.copy(alloc)?)?;
    }
    Ok(Items::from_list(copies))
}

/// How many arguments are numbers.
fn count_numbers(args: &[ArgKind]) -> usize
    ensures { result ≡ count_by is_number args.now }
{
    args.iter().filter(|arg| is_number(arg)).count()
}

/// Whether an argument is a number.
fn is_number(arg: &ArgKind) -> bool
    ensures { result ≡ is_number arg.now }
{
    match arg {
        ArgKind::Number(_) => true,
        ArgKind::Chars { .. } | ArgKind::Str(_) => false,
    }
}

/// Whether the arrays among the arguments are arrays of characters among these cells.
fn are_arrays_in(args: &[ArgKind], cells: &CharCells<'_>) -> bool
    ensures { IsTrue result ↔ All (IsArrayIn cells.now) args.now }
{
    args.iter().all(|arg| is_array_in(arg, cells))
}

/// Whether an argument is no array, or one of characters among these cells.
fn is_array_in(arg: &ArgKind, cells: &CharCells<'_>) -> bool
    ensures { IsTrue result ↔ IsArrayIn cells.now arg.now }
{
    match arg {
        ArgKind::Chars { base, len } => cells.has_array(*base as usize, *len as usize),
        ArgKind::Number(_) => true,
        ArgKind::Str(_) => true,
    }
}

/// Whether a text reads into fewer pieces than a list of code has at most, if it reads into pieces.
fn has_few_pieces(text: &[u8]) -> bool
    ensures { (pieces : List declared.Piece) → AreSpelled text.now pieces →
        (IsTrue result ↔ length pieces < 2 ^ 32) }
{
    // Most texts have as few bytes.
    text.len() < LIMIT || count_pieces(text) < LIMIT
}

/// Whether what is shown of each text among the arguments is short.
fn are_shown_short(args: &[ArgKind]) -> bool
    ensures { IsTrue result ↔ All IsShownShort args.now }
{
    args.iter().all(|arg| is_shown_short(arg))
}

/// Whether an argument is no text, or one of which a short text is shown.
fn is_shown_short(arg: &ArgKind) -> bool
    ensures { IsTrue result ↔ IsShownShort arg.now }
{
    match arg {
        ArgKind::Str(text) => place_of(0, text.bytes()) < LIMIT,
        ArgKind::Number(_) => true,
        ArgKind::Chars { .. } => true,
    }
}
