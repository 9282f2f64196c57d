// The message that a frame is, and the frame of a message.

ghost use Rattle.std.specs.Prelude.{◌≡◌, ◌+◌, ◌≤◌, drop, length, take};
ghost use Rattle.message_cells.specs.Message.{frame_of, id_of, ident_of, message_kinds, written_id};
ghost use Rattle.bytecode.specs.Runs.{HoldKinds};
ghost use Rattle.can_frame.specs.Frame.{IsIdent};
ghost use Rattle.stack_vm.specs.Frame.{message_of};

use crate::messages::{cells_of, payload, written, written_id};
use crate::state::State;
use can_frame::{Frame, Ident};

/// The bit of an identifier's cell that marks an extended one.
const EXTENDED: u32 = 0x8000_0000;

/// The cells of the message that a frame is, which was on the bus at this moment in microseconds.
pub(crate) fn message(f: &Frame, sent: bool, now: u64) -> [i128; 14]
    ensures cells { result ≡ message_of f.now sent now }
    ensures held { HoldKinds message_kinds result }
{
    let bytes = cells_of(f.payload());
    [
        i128::from(id(f.ident())),
        i128::from(f.dlc()),
        i128::from(f.rtr()),
        i128::from(f.can()),
        i128::from(sent),
        i128::from(now / 10 % 0x1_0000_0000),
        bytes[0],
        bytes[1],
        bytes[2],
        bytes[3],
        bytes[4],
        bytes[5],
        bytes[6],
        bytes[7],
    ]
}

/// The number of an identifier in its cell.
fn id(ident: Ident) -> u32
    requires { IsIdent ident }
    ensures { result ≡ id_of ident }
{
    match ident {
        Ident::Std(id) => u32::from(id),
        Ident::Ext(id) => EXTENDED + id,
    }
}

/// The frame of the message that begins at a cell, on channel 1. Each field is brought to its range
/// by its write rule.
#[inline]
pub(crate) fn frame(state: &State, at: u32) -> Frame
    requires { at + 14 ≤ length state.now.cells }
    ensures { result ≡ frame_of (take 14 (drop at state.now.cells)) }
{
    let first = at as usize;
    let ident = ident(state.cell(first));
    let length = written(1, state.cell(first + 1)) as u8;
    let remote = written(2, state.cell(first + 2)) != 0;
    match Frame::make(ident, remote, length, payload(state, at), 1) {
        Some(frame) => frame,
        None => unreachable!(),
    }
}

/// The identifier that a message's first cell names by its write rule.
#[inline]
fn ident(n: i128) -> Ident
    ensures is { result ≡ ident_of (written_id n) }
    ensures in_range { IsIdent result }
{
    let id = written_id(n);
    if id >= u64::from(EXTENDED) {
        Ident::Ext((id - u64::from(EXTENDED)) as u32)
    } else {
        Ident::Std(id as u16)
    }
}
