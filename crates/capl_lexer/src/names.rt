// Names.

ghost use Rattle.std.specs.Prelude.{◌≡◌, ◌↔◌, IsTrue};
ghost use Rattle.capl_lexer.specs.Name.{is_name};
ghost use Rattle.capl_lexer.specs.Spelling.{IsName};

use crate::byte_class::ByteClass;
use crate::words::reserved_word;

/// Whether the bytes spell a name: a letter or `_`, then letters, digits and `_`, and no reserved
/// word. Takes time linear in the bytes.
pub fn is_name(bytes: &[u8]) -> bool
    ensures name { IsTrue result ↔ IsName bytes.now }
    ensures value { result ≡ is_name bytes.now }
{
    if !ByteClass::NameStart.begins(bytes) {
        return false;
    }
    if ByteClass::NamePart.run(bytes) < bytes.len() {
        return false;
    }
    reserved_word(bytes).is_none()
}
