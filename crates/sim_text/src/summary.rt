// The line of the run of a generated scenario.

ghost use Rattle.std.specs.Prelude.{◌≡◌, IfOk};
ghost use Rattle.sim_text.specs.Lines.{summary_line};

use crate::number::append_number;
use std::alloc::Global;
use texts::{NoMemory, Text};

/// The line of the run of a generated scenario of so many nodes: `gen N frames F lines L turns T` and
/// its line end, with the number of the log's lines, of the window's lines, and of the turns that all
/// event procedures took.
pub fn summary_line(
    alloc: Global,
    count: u32,
    frames: u64,
    lines: u64,
    turns: u64,
) -> Result<Text, NoMemory>
    ensures { IfOk result (λ text. text ≡ summary_line count frames lines turns) }
{
    let mut text = Vec::from_slice(alloc, b"gen ")?;
    append_number(&mut text, u64::from(count))?;
    text.extend_from_slice(b" frames ")?;
    append_number(&mut text, frames)?;
    text.extend_from_slice(b" lines ")?;
    append_number(&mut text, lines)?;
    text.extend_from_slice(b" turns ")?;
    append_number(&mut text, turns)?;
    text.push(b'\n')?;
    Text::from_list(alloc, text)
}
