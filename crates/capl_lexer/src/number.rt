// The number at the front of a text.

ghost use Rattle.capl_lexer.specs.Inside.ByteClass.{IsFirstInClass};
ghost use Rattle.capl_lexer.specs.Inside.Front.{IsTokenFront, HasNoFloat};

use crate::base::Base;
use crate::byte_class::ByteClass;
use crate::front::Front;
use crate::token::Tok;

/// The number, with a point or without, at the front of a text that begins with a digit.
pub(crate) fn number(text: &[u8]) -> Front
    requires { IsFirstInClass ByteClass.Digit text.now }
    ensures { IsTokenFront text.now result }
{
    let whole = ByteClass::Digit.run(text);
    if !ByteClass::Point.begins(&text[whole..]) {
        return integer(text);
    }
    let fraction = ByteClass::Digit.run(&text[whole + 1..]);
    Front {
        tok: Tok::Float,
        length: whole + 1 + fraction,
    }
}

/// The number at the front of a text that begins with a digit and with no floating point number.
fn integer(text: &[u8]) -> Front
    requires digit { IsFirstInClass ByteClass.Digit text.now }
    requires no_point { HasNoFloat text.now }
    ensures { IsTokenFront text.now result }
{
    let base = Base::at_front(text);
    let prefix = base.prefix();
    let rest = &text[prefix..];
    let count = base.digits().run(rest);
    let value = base.number(&rest[..count]);
    let ext = ByteClass::Mark.begins(&rest[count..]);
    Front {
        tok: Tok::Num { ext, value },
        length: prefix + count + usize::from(ext),
    }
}
