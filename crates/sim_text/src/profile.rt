// The line of an event procedure in a profile.

ghost use Rattle.std.specs.Prelude.{◌≡◌, ◌++◌, IfOk, OnOk, decimal, codes};
ghost use Rattle.sim_text.specs.Lines.{event_word, profile_line};

use crate::number::append_number;
use crate::shown::append_shown;
use run_effects::Event;
use stack_vm::MeterRow;
use std::alloc::Global;
use texts::{NoMemory, Text};

/// The line of an event procedure: `p NODE FILE:LINE EVENT RUNS TURNS` and its line end. LINE is that of
/// the word `on`, counted from 1. A line feed in FILE is shown as `\n` and a carriage return as `\r`.
/// Takes time and memory linear in both names.
pub fn profile_line(
    alloc: Global,
    node: &[u8],
    file: &[u8],
    line: u32,
    event: &Event,
    row: MeterRow,
) -> Result<Text, NoMemory>
    ensures { IfOk result (λ text. text ≡ profile_line node.now file.now line event.now row) }
{
    let mut text = Vec::from_slice(alloc, b"p ")?;
    text.extend_from_slice(node)?;
    text.push(b' ')?;
    append_shown(&mut text, file)?;
    text.push(b':')?;
    append_number(&mut text, u64::from(line))?;
    text.push(b' ')?;
    text.extend_from_slice(event_word(event))?;
    append_row(&mut text, row)?;
    text.push(b'\n')?;
    Text::from_list(alloc, text)
}

/// The word of an event.
fn event_word(event: &Event) -> &'static [u8]
    ensures { result.now ≡ event_word event.now }
{
    match event {
        Event::PreStart => b"preStart",
        Event::Start => b"start",
        Event::Stop => b"stopMeasurement",
        Event::Message(_) => b"message",
        Event::Timer(_) => b"timer",
        Event::Key(_) => b"key",
    }
}

/// Appends the runs and the turns of a row, with a blank before each.
fn append_row(text: &mut Vec<u8>, row: MeterRow) -> Result<(), NoMemory>
    ensures { OnOk result (text.new.items ≡
        text.old.items ++ codes " " ++ decimal row.runs ++ codes " " ++ decimal row.turns) }
{
    text.push(b' ')?;
    append_number(text, row.runs)?;
    text.push(b' ')?;
    append_number(text, row.turns)
}
