// The tokens of a source.

ghost use Rattle.std.specs.Prelude.{◌≡◌};
ghost use Rattle.capl_lexer.specs.Spelling.{word_spelling};

use texts::Text;

/// A token and where it stands in its file.
#[derive(Debug, Drop)]
pub struct Token {
    /// What stands there.
    pub tok: Tok,
    /// The place of its first byte, counted from 0.
    pub from: u32,
    /// The place after its last byte.
    pub to: u32,
    /// Its line, counted from 1.
    pub line: u32,
    /// The column of its first byte, counted in bytes from 1.
    pub column: u32,
}

/// What a token is (CAPL manual, lexical elements). The bytes of a character and of a text are those
/// that it stands for: its escapes are read.
#[derive(Debug, Drop)]
pub enum Tok {
    /// A letter or `_` and then letters, digits and `_`, other than a reserved word.
    Name(Text),
    /// A reserved word.
    Word(Word),
    /// A sign.
    Sign(Sign),
    /// A number, decimal or hexadecimal with `0x`; None where it is above 2^64 - 1. A trailing `x`
    /// marks an extended identifier, and `0x` alone is the extended identifier 0.
    Num { ext: bool, value: Option<u64> },
    /// Decimal digits, a `.` and decimal digits, of which those after it may be missing.
    Float,
    /// `'` and `'` with a byte between them, which an escape may stand for.
    Char(u8),
    /// The bytes between two double quotes, where escapes stand for some of them.
    Str(Text),
    /// `#include` and, after any blanks in its line, a file's name between two double quotes, which
    /// has no escapes.
    Include(Text),
    /// `#` and letters.
    Directive,
}

/// The reserved words.
#[derive(Clone, Copy, Debug, PartialEq, Eq)]
pub enum Word {
    Includes,
    Variables,
    On,
    This,
    If,
    Else,
    While,
    Do,
    For,
    Switch,
    Case,
    Default,
    Break,
    Continue,
    Return,
    Message,
    Timer,
    MsTimer,
    Byte,
    Word,
    Dword,
    Qword,
    Int,
    Long,
    Int64,
    Char,
    Void,
    Const,
    Float,
    Double,
    Struct,
    Enum,
    Stack,
    Testcase,
    Testfunction,
    DiagRequest,
    DiagResponse,
    LinFrame,
    FrFrame,
    EthernetPacket,
}

impl Word {
    /// All reserved words.
    pub const ALL: [Word; 40] = [
        Word::Includes,
        Word::Variables,
        Word::On,
        Word::This,
        Word::If,
        Word::Else,
        Word::While,
        Word::Do,
        Word::For,
        Word::Switch,
        Word::Case,
        Word::Default,
        Word::Break,
        Word::Continue,
        Word::Return,
        Word::Message,
        Word::Timer,
        Word::MsTimer,
        Word::Byte,
        Word::Word,
        Word::Dword,
        Word::Qword,
        Word::Int,
        Word::Long,
        Word::Int64,
        Word::Char,
        Word::Void,
        Word::Const,
        Word::Float,
        Word::Double,
        Word::Struct,
        Word::Enum,
        Word::Stack,
        Word::Testcase,
        Word::Testfunction,
        Word::DiagRequest,
        Word::DiagResponse,
        Word::LinFrame,
        Word::FrFrame,
        Word::EthernetPacket,
    ];

    /// The bytes that spell it.
    pub fn spelling(self) -> &'static [u8]
        ensures { result.now ≡ word_spelling self }
    {
        match self {
            Word::Includes => b"includes",
            Word::Variables => b"variables",
            Word::On => b"on",
            Word::This => b"this",
            Word::If => b"if",
            Word::Else => b"else",
            Word::While => b"while",
            Word::Do => b"do",
            Word::For => b"for",
            Word::Switch => b"switch",
            Word::Case => b"case",
            Word::Default => b"default",
            Word::Break => b"break",
            Word::Continue => b"continue",
            Word::Return => b"return",
            Word::Message => b"message",
            Word::Timer => b"timer",
            Word::MsTimer => b"msTimer",
            Word::Byte => b"byte",
            Word::Word => b"word",
            Word::Dword => b"dword",
            Word::Qword => b"qword",
            Word::Int => b"int",
            Word::Long => b"long",
            Word::Int64 => b"int64",
            Word::Char => b"char",
            Word::Void => b"void",
            Word::Const => b"const",
            Word::Float => b"float",
            Word::Double => b"double",
            Word::Struct => b"struct",
            Word::Enum => b"enum",
            Word::Stack => b"stack",
            Word::Testcase => b"testcase",
            Word::Testfunction => b"testfunction",
            Word::DiagRequest => b"diagRequest",
            Word::DiagResponse => b"diagResponse",
            Word::LinFrame => b"linFrame",
            Word::FrFrame => b"frFrame",
            Word::EthernetPacket => b"ethernetPacket",
        }
    }
}

/// The signs.
#[derive(Clone, Copy, Debug, PartialEq, Eq)]
pub enum Sign {
    /// `{`
    OpenBrace,
    /// `}`
    CloseBrace,
    /// `(`
    OpenParen,
    /// `)`
    CloseParen,
    /// `[`
    OpenBracket,
    /// `]`
    CloseBracket,
    /// `;`
    Semi,
    /// `,`
    Comma,
    /// `:`
    Colon,
    /// `::`
    Scope,
    /// `?`
    Question,
    /// `.`
    Dot,
    /// `$`
    Dollar,
    /// `@`
    At,
    /// `~`
    Tilde,
    /// `!`
    Bang,
    /// `=`
    Assign,
    /// `==`
    Equal,
    /// `!=`
    NotEqual,
    /// `<`
    Less,
    /// `<=`
    LessEqual,
    /// `>`
    Greater,
    /// `>=`
    GreaterEqual,
    /// `<<`
    ShiftLeft,
    /// `>>`
    ShiftRight,
    /// `+`
    Plus,
    /// `-`
    Minus,
    /// `*`
    Star,
    /// `/`
    Slash,
    /// `%`
    Percent,
    /// `&`
    Amp,
    /// `|`
    Bar,
    /// `^`
    Caret,
    /// `&&`
    AndAnd,
    /// `||`
    OrOr,
    /// `++`
    PlusPlus,
    /// `--`
    MinusMinus,
    /// `+=`
    PlusAssign,
    /// `-=`
    MinusAssign,
    /// `*=`
    StarAssign,
    /// `/=`
    SlashAssign,
    /// `%=`
    PercentAssign,
    /// `&=`
    AmpAssign,
    /// `|=`
    BarAssign,
    /// `^=`
    CaretAssign,
    /// `<<=`
    ShiftLeftAssign,
    /// `>>=`
    ShiftRightAssign,
}
