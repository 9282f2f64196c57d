// The rows of instructions on messages.

ghost use Rattle.std.specs.Prelude.{◌≡◌, ◌+◌, ◌<◌, ◌≤◌, drop, length, map, None, pos, slice_index_or, take};
ghost use Rattle.std.specs.Result.{result_err};
ghost use Rattle.bytecode.specs.declared.code.Code.{Code};
ghost use Rattle.bytecode.specs.declared.instr.Instr.TheVariants.{Bytes, SetBytes, Sig, SetSig, SetField, Copy};
ghost use Rattle.message_cells.specs.Message.{number_at, payload_of, size, write_rules, written_can, written_id};
ghost use Rattle.stack_vm.specs.Inside.Step.{Does, IsReady};

use crate::cells::index;
use crate::state::State;
use int_kinds::{Kind, bits, residue, wrap};
use run_effects::Outcome;
use signal_codec::{Layout, get, put};

/// Gives the number of a kind that begins at a byte of a message's payload.
#[inline]
pub(crate) fn bytes(state: &mut State, kind: Kind, at: u32) -> Result<(), Outcome>
    requires { (code : Code) × IsReady code (Bytes kind at) state.old }
    ensures { Does (Bytes kind at) state.old (result_err result) state.new }
{
    let first = index(state.top(), 9 - size(kind))?;
    let n = number_at(kind, first, payload(state, at));
    state.replace(n);
    Ok(())
}

/// Puts the bytes of a number of a kind in a message's payload, from one of its bytes on, and gives
/// what is put.
#[inline]
pub(crate) fn set_bytes(state: &mut State, kind: Kind, at: u32) -> Result<(), Outcome>
    requires { (code : Code) × IsReady code (SetBytes kind at) state.old }
    ensures { Does (SetBytes kind at) state.old (result_err result) state.new }
{
    let first = index(state.under(), 9 - size(kind))?;
    let n = state.top();
    let cells = cells_of(residue(Kind::Qword, n).to_le_bytes());
    state.put(at as usize + 6 + first, &cells[..size(kind)]);
    state.replace_two(wrap(kind, n));
    Ok(())
}

/// Gives the number of a signal in a message's payload.
#[inline]
pub(crate) fn signal(state: &mut State, layout: Layout, at: u32)
    requires { (code : Code) × IsReady code (Sig layout at) state.old }
    ensures { Does (Sig layout at) state.old None state.new }
{
    let n = get(&layout, &payload(state, at));
    state.give(n);
}

/// Puts a number in a signal of a message's payload and gives the number that the signal then has.
#[inline]
pub(crate) fn set_signal(state: &mut State, layout: Layout, at: u32)
    requires { (code : Code) × IsReady code (SetSig layout at) state.old }
    ensures { Does (SetSig layout at) state.old None state.new }
{
    let mut bytes = payload(state, at);
    put(&layout, &mut bytes, state.top());
    let n = get(&layout, &bytes);
    state.put(at as usize + 6, &cells_of(bytes));
    state.replace(n);
}

/// Writes a field of a message by its rule and gives what is written.
#[inline]
pub(crate) fn set_field(state: &mut State, field: u8, at: u32)
    requires { (code : Code) × IsReady code (SetField field at) state.old }
    ensures { Does (SetField field at) state.old None state.new }
{
    let n = i128::from(written(field, state.top()));
    state.set_cell(at as usize + usize::from(field), n);
    state.replace(n);
}

/// Copies a message to another.
#[inline]
pub(crate) fn copy(state: &mut State, to: u32, from: u32)
    requires { (code : Code) × IsReady code (Copy to from) state.old }
    ensures { Does (Copy to from) state.old None state.new }
{
    let message = message(state, from);
    state.put(to as usize, &message);
    state.go_on();
}

/// The cells of the message that begins at a cell.
#[inline]
fn message(state: &State, at: u32) -> [i128; 14]
    requires { at + 14 ≤ length state.now.cells }
    ensures { result ≡ take 14 (drop at state.now.cells) }
{
    let at = at as usize;
    let mut message = [0; 14];
    message.copy_from_slice(&state.cells()[at..at + 14]);
    message
}

/// The payload of the message that begins at a cell.
#[inline]
pub(crate) fn payload(state: &State, at: u32) -> [u8; 8]
    requires { at + 14 ≤ length state.now.cells }
    ensures { result ≡ payload_of (take 14 (drop at state.now.cells)) }
{
    let first = at as usize + 6;
    let mut payload = [0u8; 8];
    for (i, cell) in state.cells()[first..first + 8].iter().enumerate() {
        payload[i] = residue(Kind::Byte, *cell) as u8;
    }
    payload
}

/// Cells of these bytes.
#[inline]
pub(crate) fn cells_of(bytes: [u8; 8]) -> [i128; 8]
    ensures { result ≡ map pos bytes }
{
    [
        i128::from(bytes[0]),
        i128::from(bytes[1]),
        i128::from(bytes[2]),
        i128::from(bytes[3]),
        i128::from(bytes[4]),
        i128::from(bytes[5]),
        i128::from(bytes[6]),
        i128::from(bytes[7]),
    ]
}

/// The number of a kind that begins at a byte of a payload, its least significant byte.
#[inline]
fn number_at(kind: Kind, first: usize, payload: [u8; 8]) -> i128
    requires { first < 8 }
    ensures { result ≡ number_at kind first payload }
{
    let word = u64::from_le_bytes(payload) >> (8 * first);
    wrap(kind, i128::from(word))
}

/// How many bytes a kind has.
#[inline]
fn size(kind: Kind) -> usize
    ensures { result ≡ size kind }
{
    bits(kind) as usize / 8
}

/// What is written to the field of a number, where it is given `n`.
#[inline]
pub(crate) fn written(field: u8, n: i128) -> u64
    ensures { result ≡ slice_index_or write_rules field written_can n }
{
    match field {
        0 => written_id(n),
        1 => residue(Kind::Byte, n).min(8),
        2 => residue(Kind::Byte, n).min(1),
        _ => residue(Kind::Word, n),
    }
}

/// What is written to the identifier: the low 29 bits with bit 31, and the low 11 without it.
#[inline]
pub(crate) fn written_id(n: i128) -> u64
    ensures { result ≡ written_id n }
{
    let id = residue(Kind::Dword, n);
    if id >= 0x8000_0000 {
        0x8000_0000 + id % 0x2000_0000
    } else {
        id % 0x800
    }
}
