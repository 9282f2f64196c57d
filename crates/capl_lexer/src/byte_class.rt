// The classes of bytes that tokens are made of.

ghost use Rattle.std.specs.Prelude.{◌↔◌, IsTrue};
ghost use Rattle.capl_lexer.specs.Inside.ByteClass.{IsInClass, IsFirstInClass, IsRun};

/// A class of bytes.
#[derive(Clone, Copy, Debug, PartialEq, Eq)]
pub(crate) enum ByteClass {
    /// Tabs, line ends and spaces.
    Blank,
    /// Blanks other than a line feed.
    BlankInLine,
    /// What a name begins with.
    NameStart,
    /// What a name goes on with.
    NamePart,
    /// A letter.
    Letter,
    /// A decimal digit.
    Digit,
    /// A hexadecimal digit.
    HexDigit,
    /// The `x` before hexadecimal digits and after an extended identifier.
    Mark,
    /// The `.` in a floating point number.
    Point,
    /// What stands for itself in a string.
    Plain,
    /// What stands for itself in a character.
    PlainInChar,
    /// What the name of an included file is made of.
    NameByte,
    /// What stands before and after a string.
    Quote,
    /// What stands before and after a character.
    Apostrophe,
}

impl ByteClass {
    /// Whether the byte is of this class.
    #[inline(always)]
    pub(crate) fn contains(self, byte: u8) -> bool
        ensures { IsTrue result ↔ IsInClass self byte }
    {
        match self {
            ByteClass::Blank => matches!(byte, 9..=13 | b' '),
            ByteClass::BlankInLine => matches!(byte, 9 | 11..=13 | b' '),
            ByteClass::NameStart => matches!(byte, b'A'..=b'Z' | b'a'..=b'z' | b'_'),
            // Most bytes of names are small letters, so that these are tested first.
            ByteClass::NamePart => {
                matches!(byte, b'a'..=b'z') || matches!(byte, b'A'..=b'Z' | b'_' | b'0'..=b'9')
            }
            ByteClass::Letter => matches!(byte, b'A'..=b'Z' | b'a'..=b'z'),
            ByteClass::Digit => matches!(byte, b'0'..=b'9'),
            ByteClass::HexDigit => matches!(byte, b'0'..=b'9' | b'A'..=b'F' | b'a'..=b'f'),
            ByteClass::Mark => matches!(byte, b'x' | b'X'),
            ByteClass::Point => byte == b'.',
            ByteClass::Plain => !matches!(byte, b'"' | b'\\' | b'\n'),
            ByteClass::PlainInChar => byte >= 32 && !matches!(byte, b'\'' | b'\\'),
            ByteClass::NameByte => !matches!(byte, b'"' | b'\n'),
            ByteClass::Quote => byte == b'"',
            ByteClass::Apostrophe => byte == b'\'',
        }
    }

    /// How many bytes of this class stand one after another at the front of the text.
    pub(crate) fn run(self, text: &[u8]) -> usize
        ensures { IsRun self text.now result }
    {
        for (place, byte) in text.iter().enumerate() {
            if !self.contains(*byte) {
                return place;
            }
        }
        text.len()
    }

    /// Whether the first byte of the text is of this class.
    pub(crate) fn begins(self, text: &[u8]) -> bool
        ensures { IsTrue result ↔ IsFirstInClass self text.now }
    {
        text.first().is_some_and(|byte| self.contains(*byte))
    }
}
