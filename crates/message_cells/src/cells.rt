// The first cells of a program.

ghost use Rattle.std.specs.Prelude.{◌↔◌, IsTrue};
ghost use Rattle.message_cells.specs.Cells.{BeginWithEvent};

use crate::message::{MESSAGE_KINDS, is_message};
use int_kinds::Kind;

/// The cell of the event's key, which comes after its message.
const KEY_CELL: usize = MESSAGE_KINDS.len();

/// Whether the first cells are those of the event, where all have these kinds: a message and then its
/// key.
pub fn begin_with_event(kinds: &[Kind]) -> bool
    ensures { IsTrue result ↔ BeginWithEvent kinds.now }
{
    is_message(kinds, 0) && matches!(kinds.get(KEY_CELL), Some(Kind::Char))
}
