//! Laws of the cells of a message. Each call does nothing: its contract is the law.

ghost use Rattle.std.specs.Prelude.{◌≡◌, pos};
ghost use Rattle.can_frame.specs.declared.Ident.{Ident};
ghost use Rattle.can_frame.specs.Frame.{IsIdent};
ghost use Rattle.message_cells.specs.Message.{id_of, ident_of, message_kinds, written_id};

use crate::MESSAGE_KINDS;

/// The kinds of a message's cells are those of the definition.
pub fn kinds_are_those_of_the_definition()
    ensures { MESSAGE_KINDS ≡ message_kinds }
{}

/// The number of a frame's identifier, stored in a message as a program stores it, names that
/// identifier again.
pub fn a_message_names_the_identifier_of_its_frame()
    ensures { (ident : Ident) → IsIdent ident → ident_of (written_id (pos (id_of ident))) ≡ ident }
{}
