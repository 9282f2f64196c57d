// The signs of operators and the words of kinds.

ghost use Rattle.std.specs.Prelude.{◌≡◌, ◌≤◌};
ghost use Rattle.expr_parser.specs.Operators.{operator_of, binding_of, prefix_operator, kind_of};
ghost use Rattle.capl_tree.specs.Binding.{operator_level};

use capl_lexer::{Sign, Word};
use int_kinds::{BinOp, Kind, UnOp};

/// What a sign behind an operand makes of it.
#[derive(Clone, Copy, Debug, PartialEq, Eq)]
pub enum Operator {
    /// An assignment to it, with the operator of a compound sign.
    Assign(Option<BinOp>),
    /// The test of a `?:`.
    Choice,
    /// The left operand of a binary operator.
    Binary(BinOp),
    /// The base of an index.
    Index,
    /// The base of a member.
    Member,
    /// The operand of `++` where the flag is true, else of `--`.
    Post(bool),
    /// The name of a call, where it is a name.
    Call,
}

/// What the sign makes of an operand before it; None for a sign that does not go on with an operand.
pub fn operator_of(sign: Sign) -> Option<Operator>
    ensures { result ≡ operator_of sign }
{
    match sign {
        Sign::Assign => Some(Operator::Assign(None)),
        Sign::BarAssign => Some(Operator::Assign(Some(BinOp::Or))),
        Sign::CaretAssign => Some(Operator::Assign(Some(BinOp::Xor))),
        Sign::AmpAssign => Some(Operator::Assign(Some(BinOp::And))),
        Sign::ShiftLeftAssign => Some(Operator::Assign(Some(BinOp::Shl))),
        Sign::ShiftRightAssign => Some(Operator::Assign(Some(BinOp::Shr))),
        Sign::PlusAssign => Some(Operator::Assign(Some(BinOp::Add))),
        Sign::MinusAssign => Some(Operator::Assign(Some(BinOp::Sub))),
        Sign::StarAssign => Some(Operator::Assign(Some(BinOp::Mul))),
        Sign::SlashAssign => Some(Operator::Assign(Some(BinOp::Div))),
        Sign::PercentAssign => Some(Operator::Assign(Some(BinOp::Rem))),
        Sign::Question => Some(Operator::Choice),
        Sign::OrOr => Some(Operator::Binary(BinOp::OrElse)),
        Sign::AndAnd => Some(Operator::Binary(BinOp::AndAlso)),
        Sign::Bar => Some(Operator::Binary(BinOp::Or)),
        Sign::Caret => Some(Operator::Binary(BinOp::Xor)),
        Sign::Amp => Some(Operator::Binary(BinOp::And)),
        Sign::Equal => Some(Operator::Binary(BinOp::Equal)),
        Sign::NotEqual => Some(Operator::Binary(BinOp::NotEqual)),
        Sign::Less => Some(Operator::Binary(BinOp::Less)),
        Sign::LessEqual => Some(Operator::Binary(BinOp::LessEqual)),
        Sign::Greater => Some(Operator::Binary(BinOp::Greater)),
        Sign::GreaterEqual => Some(Operator::Binary(BinOp::GreaterEqual)),
        Sign::ShiftLeft => Some(Operator::Binary(BinOp::Shl)),
        Sign::ShiftRight => Some(Operator::Binary(BinOp::Shr)),
        Sign::Plus => Some(Operator::Binary(BinOp::Add)),
        Sign::Minus => Some(Operator::Binary(BinOp::Sub)),
        Sign::Star => Some(Operator::Binary(BinOp::Mul)),
        Sign::Slash => Some(Operator::Binary(BinOp::Div)),
        Sign::Percent => Some(Operator::Binary(BinOp::Rem)),
        Sign::OpenBracket => Some(Operator::Index),
        Sign::Dot => Some(Operator::Member),
        Sign::PlusPlus => Some(Operator::Post(true)),
        Sign::MinusMinus => Some(Operator::Post(false)),
        Sign::OpenParen => Some(Operator::Call),
        _ => None,
    }
}

/// How strongly a binary operator binds: from 3, `||`, to 12, `*`.
pub fn operator_level(op: BinOp) -> u8
    ensures value { result ≡ operator_level op }
    ensures most { result ≤ 12 }
{
    match op {
        BinOp::OrElse => 3,
        BinOp::AndAlso => 4,
        BinOp::Or => 5,
        BinOp::Xor => 6,
        BinOp::And => 7,
        BinOp::Equal | BinOp::NotEqual => 8,
        BinOp::Less | BinOp::LessEqual | BinOp::Greater | BinOp::GreaterEqual => 9,
        BinOp::Shl | BinOp::Shr => 10,
        BinOp::Add | BinOp::Sub => 11,
        BinOp::Mul | BinOp::Div | BinOp::Rem => 12,
    }
}

/// How strongly an operator binds, and 0 for none.
pub fn binding(operator: Option<Operator>) -> u8
    ensures { result ≡ binding_of operator }
{
    match operator {
        None => 0,
        Some(Operator::Assign(_)) => 1,
        Some(Operator::Choice) => 2,
        Some(Operator::Binary(op)) => operator_level(op),
        Some(Operator::Index | Operator::Member | Operator::Post(_)) => 14,
        Some(Operator::Call) => 15,
    }
}

/// The prefix operator of a sign, if it is one.
pub fn prefix_operator(sign: Sign) -> Option<UnOp>
    ensures { result ≡ prefix_operator sign }
{
    match sign {
        Sign::Minus => Some(UnOp::Minus),
        Sign::Plus => Some(UnOp::Plus),
        Sign::Bang => Some(UnOp::Not),
        Sign::Tilde => Some(UnOp::Inv),
        Sign::PlusPlus => Some(UnOp::Up),
        Sign::MinusMinus => Some(UnOp::Down),
        _ => None,
    }
}

/// The kind of a word, if it is one's.
pub fn kind_of(word: Word) -> Option<Kind>
    ensures { result ≡ kind_of word }
{
    match word {
        Word::Byte => Some(Kind::Byte),
        Word::Word => Some(Kind::Word),
        Word::Dword => Some(Kind::Dword),
        Word::Qword => Some(Kind::Qword),
        Word::Int => Some(Kind::Int),
        Word::Long => Some(Kind::Long),
        Word::Int64 => Some(Kind::Int64),
        Word::Char => Some(Kind::Char),
        _ => None,
    }
}
