// Messages, and the rules by which their members are written.

ghost use Rattle.std.specs.Prelude.{◌≡◌};
ghost use Rattle.int_kinds.specs.Kind.{IsNumber};
ghost use Rattle.signal_codec.specs.Signal.{IsUsable};
ghost use Rattle.signal_codec.specs.declared.layout.Layout as declared;
ghost use Rattle.message_cells.specs.Message.{written_id};
ghost use Rattle.capl_meaning.specs.Initial.{with_bytes_at, with_member};
ghost use Rattle.capl_meaning.specs.Message.{IsSignal};
ghost use Rattle.capl_meaning.specs.Store.{MessageRecord, with_field, with_signal};
ghost use Rattle.check_sorts.specs.Message.{member_in};
ghost use Rattle.type_starts.specs.Message.{IsMessage};

use crate::payload::{are_bytes, has_eight_bytes, put_bytes, size};
use capl_meaning::MessageField;
use check_sorts::Member;
use int_kinds::{Kind, residue};
use signal_codec::{Layout, put};

/// A message whose direction and time are 0.
#[derive(Clone, Copy)]
pub(crate) struct Message {
    /// The identifier, with bit 31 for an extended one.
    pub(crate) id: u64,
    /// The length.
    pub(crate) dlc: u64,
    /// The remote bit.
    pub(crate) rtr: u64,
    /// The channel.
    pub(crate) can: u64,
    /// The payload.
    pub(crate) payload: [u8; 8],
}

/// What is written to the identifier: the low 29 bits with bit 31, and the low 11 without it.
fn written_id(n: i128) -> u64
    ensures { result ≡ written_id n }
{
    let id = residue(Kind::Dword, n);
    if id >= 0x8000_0000 {
        0x8000_0000 + id % 0x2000_0000
    } else {
        id % 0x800
    }
}

/// A message once a number is stored in a field by its rule.
pub(crate) fn with_field(field: MessageField, n: i128, message: Message) -> Message
    ensures { (m : MessageRecord) → IsMessage message m → IsMessage result (with_field field n m) }
{
    let mut message = message;
    match field {
        MessageField::Id => message.id = written_id(n),
        MessageField::Dlc => message.dlc = residue(Kind::Byte, n).min(8),
        MessageField::Rtr => message.rtr = residue(Kind::Byte, n).min(1),
        MessageField::Can => message.can = residue(Kind::Word, n),
        MessageField::Dir | MessageField::Time => {}
    }
    message
}

/// A message once a number is stored in its payload bytes from one on, wrapped to a kind; none where there
/// is no such byte.
pub(crate) fn with_bytes(kind: Kind, from: i128, n: i128, message: Message) -> Message
    ensures { (m : MessageRecord) → IsMessage message m → IsMessage result (with_bytes_at kind from n m) }
{
    has_eight_bytes(&message.payload);
    let mut message = message;
    if 0 <= from && from < 8 {
        put_bytes(
            size(kind),
            from as u32,
            residue(kind, n),
            &mut message.payload,
        );
        has_eight_bytes(&message.payload);
    }
    message
}

/// A message once a number is stored in a signal: its low bits.
pub(crate) fn with_signal(layout: &Layout, n: i128, message: Message) -> Message
    requires usable { IsUsable layout.now }
    requires number { IsNumber n }
    ensures { (m : MessageRecord) → IsMessage message m → IsMessage result (with_signal layout.now n m) }
{
    are_bytes(message.payload.as_slice());
    let mut message = message;
    put(layout, &mut message.payload, n);
    has_eight_bytes(&message.payload);
    message
}

/// A message once a number is stored in a member.
pub(crate) fn with_member(member: Member, n: i128, message: Message) -> Message
    requires usable { (layout : declared.Layout) → member_in member ≡ IsSignal layout → IsUsable layout }
    requires number { IsNumber n }
    ensures { (m : MessageRecord) → IsMessage message m →
        IsMessage result (with_member (member_in member) n m) }
{
    match member {
        Member::Field(field) => with_field(field, n, message),
        Member::Signal(layout) => with_signal(&layout, n, message),
        Member::Unusable | Member::Unknown { .. } => message,
    }
}
