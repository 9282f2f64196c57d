// Whether the tables of programs keep their rules, which are those that the verifier has for code.

ghost use Rattle.std.specs.Prelude.{◌≡◌, ◌↔◌, IfOk, IsTrue, map};
ghost use Rattle.typed_tree.specs.Sound.{IsShortProgram};
ghost use Rattle.sound_check.specs.Tables.{HaveFewSelectors, KeepsTables, idle, idle_code_of};

use bytecode::{Code, Fun, Handler, Instr, VerifyRefusal, verify};
use items::Items;
use std::alloc::Global;
use texts::NoMemory;
use typed_tree::{THandler, Typed};
use write_format::Format;

/// Event procedures that react to the same and do nothing.
fn idle_handlers(alloc: Global, handlers: &[THandler]) -> Result<Items<Handler>, NoMemory>
    ensures { IfOk result (λ entries. entries ≡ map idle handlers.now) }
{
    let mut entries = Vec::new(alloc);
    for handler in handlers {
        entries.push(Handler {
            event: handler.event.copy()?,
            function: 0,
            file: handler.file,
            line: handler.line,
        })?;
    }
    Ok(Items::from_list(entries))
}

/// The formats once more.
fn copy_formats(alloc: Global, formats: &[Format]) -> Result<Items<Format>, NoMemory>
    ensures { IfOk result (λ copies. copies ≡ formats.now) }
{
    let mut copies = Vec::new(alloc);
    for format in formats {
        copies.push(format.copy(alloc)?)?;
    }
    Ok(Items::from_list(copies))
}

/// Code that has the tables of a program, and whose event procedures do nothing.
fn idle_code(alloc: Global, typed: &Typed) -> Result<Code, NoMemory>
    ensures { IfOk result (λ code. code ≡ idle_code_of typed.now) }
{
    let nothing = Fun {
        start: 0,
        end: 1,
        gives: false,
    };
    let handlers = idle_handlers(alloc, typed.handlers.as_slice())?;
    let formats = copy_formats(alloc, typed.formats.as_slice())?;
    Ok(Code {
        instrs: Items::from_list(vec![in alloc; Instr::Ret]?),
        depths: Items::from_list(vec![in alloc; 0u32]?),
        functions: Items::from_list(vec![in alloc; nothing]?),
        handlers,
        cells: typed.cells.copy()?,
        starts: typed.starts.copy()?,
        timers: typed.timers.copy()?,
        formats,
    })
}

/// Whether the tables of a program keep their rules. Takes memory linear in them.
pub(crate) fn keeps_tables(alloc: Global, typed: &Typed) -> Result<bool, NoMemory>
    requires short { IsShortProgram typed.now }
    requires selectors { HaveFewSelectors typed.now.handlers }
    ensures { IfOk result (λ keeps. IsTrue keeps ↔ KeepsTables typed.now) }
{
    let code = idle_code(alloc, typed)?;
    match verify(alloc, code) {
        Ok(_) => Ok(true),
        Err(VerifyRefusal::Unverified { .. }) => Ok(false),
        Err(VerifyRefusal::NoMemory) => Err(NoMemory),
    }
}
