// Writing a line.

ghost use Rattle.std.specs.Prelude.{◌≡◌, ◌<◌, ◌++◌, OnOk, IfOk};
ghost use Rattle.std.specs.List.{flat_map};
ghost use Rattle.can_frame.specs.Frame.{IsIdent};
ghost use Rattle.log_line.specs.Written.{stamp_text, byte_text, ident_text, data_text, log_line};

use crate::numerals::{append_byte, append_decimal, append_eight, append_three};
use can_frame::{Frame, Ident};
use std::alloc::Global;
use texts::{NoMemory, Text};

/// How many bytes a line has at most beside the name of its interface.
const ROOM: usize = 57;

/// The line of a frame that ended at this second and microsecond on this interface, with its LF. The
/// seconds have ten digits, or more where they need them. Takes time and memory linear in the name of
/// the interface.
pub fn write_line(
    alloc: Global,
    seconds: u64,
    micros: u32,
    interface: &[u8],
    f: &Frame,
) -> Result<Text, NoMemory>
    requires { micros < 1000000 }
    ensures { IfOk result (λ line. line ≡ log_line seconds micros interface.now f.now) }
{
    let mut line = Vec::with_capacity(alloc, interface.len().saturating_add(ROOM))?;
    append_line(&mut line, seconds, micros, interface, f)?;
    Text::from_list(alloc, line)
}

/// Appends the line that [`write_line`] gives to a list, so that many lines can take the memory of one.
pub fn append_line(
    line: &mut Vec<u8>,
    seconds: u64,
    micros: u32,
    interface: &[u8],
    f: &Frame,
) -> Result<(), NoMemory>
    requires { micros < 1000000 }
    ensures { OnOk result (
        line.new.items ≡ line.old.items ++ log_line seconds micros interface.now f.now) }
{
    line.push(b'(')?;
    append_stamp(line, seconds, micros)?;
    line.extend_from_slice(b") ")?;
    line.extend_from_slice(interface)?;
    line.push(b' ')?;
    append_ident(line, f.ident())?;
    append_data(line, f)?;
    line.push(b'\n')?;
    Ok(())
}

/// Appends the seconds in at least ten digits and the microseconds in six.
fn append_stamp(line: &mut Vec<u8>, seconds: u64, micros: u32) -> Result<(), NoMemory>
    ensures { OnOk result (line.new.items ≡ line.old.items ++ stamp_text seconds micros) }
{
    append_decimal(line, 10, seconds)?;
    line.push(b'.')?;
    append_decimal(line, 6, u64::from(micros))
}

/// Appends an identifier: three hexadecimal digits of a standard one, eight of an extended one.
fn append_ident(line: &mut Vec<u8>, ident: Ident) -> Result<(), NoMemory>
    requires { IsIdent ident }
    ensures { OnOk result (line.new.items ≡ line.old.items ++ ident_text ident) }
{
    match ident {
        Ident::Std(number) => append_three(line, number),
        Ident::Ext(number) => append_eight(line, number),
    }
}

/// Appends `#` and the data bytes of a data frame, or `#R` and the length code of a remote frame
/// where that is not 0.
fn append_data(line: &mut Vec<u8>, frame: &Frame) -> Result<(), NoMemory>
    ensures { OnOk result (line.new.items ≡ line.old.items ++ data_text frame.now) }
{
    let dlc = frame.dlc();
    if frame.rtr() {
        line.extend_from_slice(b"#R")?;
        if dlc != 0 {
            line.push(b'0' + dlc)?;
        }
        return Ok(());
    }
    line.push(b'#')?;
    append_bytes(line, &frame.payload()[..usize::from(dlc)])
}

/// Appends each byte as two hexadecimal digits.
fn append_bytes(line: &mut Vec<u8>, bytes: &[u8]) -> Result<(), NoMemory>
    ensures { OnOk result (line.new.items ≡ line.old.items ++ flat_map byte_text bytes.now) }
{
    for byte in bytes {
        append_byte(line, *byte)?;
    }
    Ok(())
}
