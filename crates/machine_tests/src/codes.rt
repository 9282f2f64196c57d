// Code that the tests of the verifier and of the machine are about.

ghost use Rattle.std.specs.Prelude.{◌<◌, ◌^◌, IsTrue, length};
ghost use Rattle.run_effects.specs.Effect.{selectors_of};
ghost use Rattle.bytecode.specs.Verified.{IsShortCode};

use bytecode::{Code, Fun, Handler, Instr};
use int_kinds::Kind;
use items::Items;
use message_cells::MESSAGE_KINDS;
use run_effects::Event;
use std::alloc::{AllocError, Global};
use write_format::Format;

/// The kinds of the event's cells, of a long cell 15, and of the cells of a message from cell 16 on.
fn kinds(alloc: Global) -> Result<Items<Kind>, AllocError> {
    let mut kinds = MESSAGE_KINDS.to_vec(alloc)?;
    kinds.extend_from_slice(&[Kind::Char, Kind::Long])?;
    kinds.extend_from_slice(&MESSAGE_KINDS)?;
    Ok(Items::from_list(kinds))
}

/// A procedure for each of these events, each by function 0.
fn handlers(alloc: Global, events: Vec<Event>) -> Result<Items<Handler>, AllocError> {
    let mut handlers = Vec::new(alloc);
    for event in events {
        handlers.push(Handler {
            event,
            function: 0,
            file: 0,
            line: 1,
        })?;
    }
    Ok(Items::from_list(handlers))
}

/// A function of all of so many instructions, which gives nothing.
fn functions(alloc: Global, count: usize) -> Result<Items<Fun>, AllocError> {
    let function = Fun {
        start: 0,
        end: u32::try_from(count).unwrap_or(u32::MAX),
        gives: false,
    };
    Ok(Items::from_list(vec![in alloc; function]?))
}

/// The line `go`.
fn formats(alloc: Global) -> Result<Items<Format>, AllocError> {
    let format = Format::read(alloc, b"go", &[]).map_err(|_| AllocError)?;
    Ok(Items::from_list(vec![in alloc; format]?))
}

/// Code without anything.
fn empty(alloc: Global) -> Code {
    Code {
        instrs: Items::new(alloc),
        depths: Items::new(alloc),
        functions: Items::new(alloc),
        handlers: Items::new(alloc),
        cells: Items::new(alloc),
        starts: Items::new(alloc),
        timers: Items::new(alloc),
        formats: Items::new(alloc),
    }
}

/// Gives code its cells, timers and formats.
fn fill(alloc: Global, code: &mut Code) -> Result<(), AllocError> {
    code.cells = kinds(alloc)?;
    code.starts = Items::from_list(vec![in alloc; (15, 7)]?);
    code.timers = Items::from_list(vec![in alloc; 1000, 1_000_000]?);
    code.formats = formats(alloc)?;
    Ok(())
}

/// Code of one function, which gives nothing and which each of these events runs. After the event's cells
/// there are a long, which begins with 7, and a message from cell 16 on. Format 0 is the line `go`.
pub(crate) fn code(
    alloc: Global,
    instrs: &[Instr],
    depths: &[u32],
    events: Vec<Event>,
) -> Result<Code, AllocError> {
    let mut code = empty(alloc);
    code.handlers = handlers(alloc, events)?;
    code.instrs = Items::from_list(instrs.to_vec(alloc)?);
    code.depths = Items::from_list(depths.to_vec(alloc)?);
    code.functions = functions(alloc, instrs.len())?;
    fill(alloc, &mut code)?;
    Ok(code)
}

/// No list is as long as this.
const LIMIT: usize = 0x1_0000_0000;

/// Whether the event has fewer selectors than the limit.
fn has_few_selectors(event: &Event) -> bool
    ensures { IsTrue result → length (selectors_of event.now) < 2 ^ 32 }
{
    match event {
        Event::Message(selectors) => selectors.len() < LIMIT,
        _ => true,
    }
}

/// Whether no list of the code is too long for the verifier.
pub(crate) fn is_short(code: &Code) -> bool
    ensures { IsTrue result → IsShortCode code.now }
{
    code.instrs.len() < LIMIT
        && code.depths.len() < LIMIT
        && code.functions.len() < LIMIT
        && code.handlers.len() < LIMIT
        && code
            .handlers
            .as_slice()
            .iter()
            .all(|handler| has_few_selectors(&handler.event))
        && code.cells.len() < LIMIT
        && code.starts.len() < LIMIT
        && code.timers.len() < LIMIT
        && code.formats.len() < LIMIT
        && code
            .formats
            .as_slice()
            .iter()
            .all(|format| format.is_short())
}
