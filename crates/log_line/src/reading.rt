// Reading a line.

ghost use Rattle.std.specs.Prelude.{◌≡◌, ◌↔◌, IsTrue, IfOk, Err};
ghost use Rattle.std.specs.Option.{option_map};
ghost use Rattle.items.specs.Search.{Finds};
ghost use Rattle.log_line.specs.Reading.{log_fields, IsInterface, IsDirection, Reads};
ghost use Rattle.log_line.specs.View.{line_of};
ghost use Rattle.log_line.specs.declared.line.Line.{Line};

use crate::fields::{next_field, without_return};
use crate::frame_text::{FrameField, frame_field};
use crate::line::{Entry, EntryView, Line, LineRefusal, LineView};
use crate::stamp::stamp_of;
use std::alloc::Global;
use texts::Text;

/// What the line says; it is given without its LF. Answers NotALine exactly where the line has no
/// reading. Takes time linear in the line, and memory for the name of the interface.
pub fn read_line(alloc: Global, line: &[u8]) -> Result<Line, LineRefusal>
    ensures reading { IfOk result (Reads line.now) }
    ensures not_a_line { (result ≡ Err LineRefusal.NotALine) ↔
        ((reading : Line) → Reads line.now reading → ⊥) }
{
    let Some(view) = view_line(line) else {
        return Err(LineRefusal::NotALine);
    };
    match view {
        LineView::Entry(entry) => Ok(Line::Entry(Entry {
            seconds: entry.seconds,
            micros: entry.micros,
            interface: Text::make(alloc, entry.interface)?,
            frame: entry.frame,
        })),
        LineView::Skip => Ok(Line::Skip),
        LineView::Empty => Ok(Line::Empty),
    }
}

/// What the line says, read in place; it is given without its LF. None exactly where the line has no
/// reading. Takes time linear in the line, and no memory.
pub fn view_line(line: &[u8]) -> Option<LineView<'_>>
    ensures { Finds (Reads line.now) (option_map line_of result) }
{
    let Some((stamp, rest)) = next_field(without_return(line)) else {
        return Some(LineView::Empty);
    };
    let (interface, rest) = next_field(rest)?;
    let (field, rest) = next_field(rest)?;
    let stamp = stamp_of(stamp)?;
    if !is_interface(interface) {
        return None;
    }
    match frame_field(field)? {
        FrameField::Unread => Some(LineView::Skip),
        FrameField::LongCode if is_direction(rest) => Some(LineView::Skip),
        FrameField::Read(frame) if is_direction(rest) => Some(LineView::Entry(EntryView {
            seconds: stamp.seconds,
            micros: stamp.micros,
            interface,
            frame,
        })),
        _ => None,
    }
}

/// Whether an interface may have this name.
fn is_interface(name: &[u8]) -> bool
    ensures { IsTrue result ↔ IsInterface name.now }
{
    !name.is_empty() && name.len() <= 15 && name.iter().all(|byte| (33..=126).contains(byte))
}

/// Whether the fields of the text may stand behind a frame.
fn is_direction(text: &[u8]) -> bool
    ensures { IsTrue result ↔ IsDirection (log_fields text.now) }
{
    let Some((field, rest)) = next_field(text) else {
        return true;
    };
    matches!(field, b"R" | b"T") && next_field(rest).is_none()
}
