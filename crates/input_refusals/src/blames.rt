// Refusals that blame a file, a line of it or a place in it.

ghost use Rattle.capl_include.specs.Blame.{file_blame, place_blame};
ghost use Rattle.input_refusals.specs.Agreement.{IsBlamedOrNoMemory};
ghost use Rattle.input_refusals.specs.Blame.{line_blame};

use crate::refusal::InputRefusal;
use std::alloc::Global;
use texts::{Blame, NoMemory, Rule, Text};

/// The refusal that blames a whole file, or that of want of memory.
pub fn blamed_file(alloc: Global, name: &Text, rule: Rule) -> InputRefusal
    ensures { IsBlamedOrNoMemory (file_blame name.now rule) result }
{
    blamed(alloc, name.bytes(), None, None, rule)
}

/// The refusal that blames a line of a file, or that of want of memory.
pub fn blamed_line(alloc: Global, name: &[u8], line: u32, rule: Rule) -> InputRefusal
    ensures { IsBlamedOrNoMemory (line_blame name.now line rule) result }
{
    blamed(alloc, name, Some(line), None, rule)
}

/// The refusal that blames a place in a file, its line and its column, or that of want of memory.
pub fn blamed_place(alloc: Global, name: &[u8], line: u32, column: u32, rule: Rule) -> InputRefusal
    ensures { IsBlamedOrNoMemory (place_blame name.now line column rule) result }
{
    blamed(alloc, name, Some(line), Some(column), rule)
}

/// The refusal that blames a file, and of it what is told, or that of want of memory.
fn blamed(
    alloc: Global,
    name: &[u8],
    line: Option<u32>,
    column: Option<u32>,
    rule: Rule,
) -> InputRefusal
    ensures { IsBlamedOrNoMemory
        (record { file = name.now; line = line; column = column; rule = rule }) result }
{
    match Text::make(alloc, name) {
        Ok(file) => InputRefusal::Blamed(Blame {
            file,
            line,
            column,
            rule,
        }),
        Err(NoMemory) => InputRefusal::NoMemory,
    }
}
