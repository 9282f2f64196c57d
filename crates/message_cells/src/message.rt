// The cells of a message.

ghost use Rattle.std.specs.Prelude.{◌↔◌, IsTrue};
ghost use Rattle.message_cells.specs.Message.{IsMessage};

use int_kinds::Kind;

/// The kinds of a message's cells, in order: the identifier, the length, the remote bit, the channel,
/// the direction, the time and 8 bytes.
pub const MESSAGE_KINDS: [Kind; 14] = [
    Kind::Dword,
    Kind::Byte,
    Kind::Byte,
    Kind::Word,
    Kind::Byte,
    Kind::Dword,
    Kind::Byte,
    Kind::Byte,
    Kind::Byte,
    Kind::Byte,
    Kind::Byte,
    Kind::Byte,
    Kind::Byte,
    Kind::Byte,
];

/// Whether the cells from one on have a message's kinds, where all have these.
pub fn is_message(kinds: &[Kind], at: u32) -> bool
    ensures { IsTrue result ↔ IsMessage kinds.now at }
{
    let from = at as usize;
    let end = from + MESSAGE_KINDS.len();
    end <= kinds.len() && &kinds[from..end] == MESSAGE_KINDS.as_slice()
}
