// The line of a text that a node writes.

ghost use Rattle.std.specs.Prelude.{◌≡◌, ◌<◌, ◌++◌, IfOk, OnOk, codes, decimal};
ghost use Rattle.text_parts.specs.Number.{zero_filled};
ghost use Rattle.sim_text.specs.Lines.{moment_text, window_line};

use crate::number::append_number;
use crate::shown::append_shown;
use itoa::write_digits;
use std::alloc::Global;
use texts::{NoMemory, Text};

const MICROS_PER_SECOND: u64 = 1_000_000;

/// How many bytes a line has at most beside the name of the node and its text, where no byte is shown as two.
const ROOM: usize = 26;

/// The line of a text that a node writes at a moment, in microseconds from the start of the
/// measurement: `w S.UUUUUU NODE TEXT` and its line end. A line feed of the text is shown as `\n` and a
/// carriage return as `\r`; all else is as it is. Takes time and memory linear in both texts.
pub fn window_line(alloc: Global, now: u64, node: &[u8], text: &[u8]) -> Result<Text, NoMemory>
    ensures { IfOk result (λ line. line ≡ window_line now node.now text.now) }
{
    let room = node.len().saturating_add(text.len()).saturating_add(ROOM);
    let mut line = Vec::with_capacity(alloc, room)?;
    append_window_line(&mut line, now, node, text)?;
    Text::from_list(alloc, line)
}

/// Appends the line that [`window_line`] gives to a list, so that many lines can take the memory of one.
pub fn append_window_line(
    line: &mut Vec<u8>,
    now: u64,
    node: &[u8],
    text: &[u8],
) -> Result<(), NoMemory>
    ensures { OnOk result (line.new.items ≡ line.old.items ++ window_line now node.now text.now) }
{
    line.extend_from_slice(b"w ")?;
    append_moment(line, now)?;
    line.push(b' ')?;
    line.extend_from_slice(node)?;
    line.push(b' ')?;
    append_shown(line, text)?;
    line.push(b'\n')?;
    Ok(())
}

/// Appends a moment: its seconds, and six digits of microseconds.
fn append_moment(line: &mut Vec<u8>, now: u64) -> Result<(), NoMemory>
    ensures { OnOk result (line.new.items ≡ line.old.items ++ moment_text now) }
{
    append_number(line, now / MICROS_PER_SECOND)?;
    append_micros(line, now % MICROS_PER_SECOND)
}

/// Appends a point and six digits of microseconds.
fn append_micros(line: &mut Vec<u8>, micros: u64) -> Result<(), NoMemory>
    requires { micros < 1000000 }
    ensures { OnOk result (
        line.new.items ≡ line.old.items ++ codes "." ++ zero_filled 6 (decimal micros)) }
{
    let mut digits = *b".000000";
    write_digits(micros, &mut digits, 7);
    line.extend_from_slice(&digits)?;
    Ok(())
}
