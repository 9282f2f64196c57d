// Places in a text, with their lines and columns.

ghost use Rattle.std.specs.Prelude.{◌≡◌, ◌+◌, ◌<◌, ◌≤◌, length, take, drop};
ghost use Rattle.capl_lexer.specs.Reading.{first_place};
ghost use Rattle.capl_lexer.specs.Inside.Position.{IsPositionIn, IsInLine};

use memchr::memchr;

/// A place in a text, with its line and its column.
#[derive(Clone, Copy, Debug)]
pub(crate) struct Position {
    /// The bytes before it.
    pub place: usize,
    /// Its line, counted from 1.
    pub line: usize,
    /// Its column, counted in bytes from 1.
    pub column: usize,
}

impl Position {
    /// The place at which the first piece of the text begins, behind the bytes EF BB BF if they
    /// are there.
    pub(crate) fn start(text: &[u8]) -> Position
        ensures at { IsPositionIn text.now result }
        ensures place { result.place ≡ first_place text.now }
    {
        let first = Position {
            place: 0,
            line: 1,
            column: 1,
        };
        if text.starts_with(&[0xEF, 0xBB, 0xBF]) {
            first.after(text, 3)
        } else {
            first
        }
    }

    /// The position so many bytes on. Takes time linear in their number.
    pub(crate) fn after(self, text: &[u8], count: usize) -> Position
        requires at { IsPositionIn text.now self }
        requires within { self.place + count ≤ length text.now }
        ensures at { IsPositionIn text.now result }
        ensures place { result.place ≡ self.place + count }
    {
        let end = self.place + count;
        let mut position = self;
        while let Some(ahead) = memchr(b'\n', &text[position.place..end]) {
            position = position.along(text, ahead).next(text);
        }
        position.along(text, end - position.place)
    }

    /// The position so many bytes on, none of which ends a line. Takes constant time.
    pub(crate) fn along(self, _text: &[u8], count: usize) -> Position
        requires at { IsPositionIn _text.now self }
        requires within { self.place + count ≤ length _text.now }
        requires in_line { IsInLine (take count (drop self.place _text.now)) }
        ensures at { IsPositionIn _text.now result }
        ensures place { result.place ≡ self.place + count }
    {
        Position {
            place: self.place + count,
            line: self.line,
            column: self.column + count,
        }
    }

    /// The position one byte on.
    pub(crate) fn next(self, text: &[u8]) -> Position
        requires at { IsPositionIn text.now self }
        requires within { self.place < length text.now }
        ensures at { IsPositionIn text.now result }
        ensures place { result.place ≡ self.place + 1 }
    {
        let place = self.place + 1;
        if text[self.place] == b'\n' {
            Position {
                place,
                line: self.line + 1,
                column: 1,
            }
        } else {
            Position {
                place,
                line: self.line,
                column: self.column + 1,
            }
        }
    }
}
