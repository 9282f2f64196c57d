// The code of procedures and of whole programs.

ghost use Rattle.std.specs.Prelude.{◌≡◌, ◌+◌, ◌<◌, ◌≤◌, ◌^◌, [], ◌∷◌, ◌++◌, length, map, All, IfOk, OnOk};
ghost use Rattle.typed_tree.specs.Size.{procedure_size, size, tail_size};
ghost use Rattle.typed_tree.specs.Sound.{IsSound};
ghost use Rattle.code_listing.specs.Program.{IsCodeOf, function_table, handler_table, procedure_code, procedures_code, tail_code};
ghost use Rattle.gen_stmt.specs.Inside.Fields.{BodyHasFieldCells};
ghost use Rattle.gen_stmt.specs.Inside.Procedures.{entry_of, of_function, of_handler};
ghost use Rattle.code_size.specs.Rows.{functions_size, handlers_size};

use crate::exits::Exits;
use crate::statement::emit_stmts;
use bytecode::{Code, Fun, Handler, Instr};
use code_size::{Extent, note_statements};
use gen_expr::Emitter;
use items::Items;
use std::alloc::Global;
use texts::NoMemory;
use typed_tree::{TFun, THandler, TStmt, Typed};
use write_format::Format;

/// Appends the end of a procedure, where control may come to it: it returns, with 0 where it gives a
/// number.
fn add_tail(gives: bool, goes: bool, into: &mut Emitter) -> Result<(), NoMemory>
    ensures grows { OnOk result (length into.new ≡ length into.old + tail_size gives goes) }
    ensures code { OnOk result (into.new ≡ into.old ++ tail_code gives goes) }
{
    if goes {
        if gives {
            into.add(Instr::Push(0), 0)?;
        }
        into.add(Instr::Ret, u32::from(gives))?;
    }
    Ok(())
}

/// Appends the code of a procedure that gives a number or not. Its statements are noted first, and the notes
/// taken again.
fn emit_procedure(
    gives: bool,
    body: &[TStmt],
    typed: &Typed,
    notes: &mut Vec<Extent>,
    into: &mut Emitter,
) -> Result<(), NoMemory>
    requires fields { BodyHasFieldCells body.now }
    requires room { length into.old + procedure_size typed.now gives body.now < 2 ^ 32 }
    ensures grows { OnOk result
        (length into.new ≡ length into.old + procedure_size typed.now gives body.now) }
    ensures taken { OnOk result (notes.new.items ≡ notes.old.items) }
    ensures code { OnOk result (into.new ≡ into.old
        ++ procedure_code typed.now (record { gives = gives; body = body.now }) (length into.old)) }
{
    let extent = note_statements(body, typed, notes)?;
    // The end of the procedure may take two more.
    into.reserve((extent.size as usize).saturating_add(2))?;
    let end = into.place() + extent.size as u32;
    let exits = Exits {
        break_at: end,
        continue_at: end,
    };
    emit_stmts(body, typed, exits, notes, into)?;
    add_tail(gives, extent.goes_on, into)?;
    Ok(())
}

/// Appends the code of a procedure, and its entry in the table of functions.
fn add_procedure(
    gives: bool,
    body: &[TStmt],
    typed: &Typed,
    notes: &mut Vec<Extent>,
    code: &mut Emitter,
    table: &mut Vec<Fun>,
) -> Result<(), NoMemory>
    requires fields { BodyHasFieldCells body.now }
    requires room { length code.old + procedure_size typed.now gives body.now < 2 ^ 32 }
    ensures grows { OnOk result
        (length code.new ≡ length code.old + procedure_size typed.now gives body.now) }
    ensures some { OnOk result (length code.old < length code.new) }
    ensures code { OnOk result (code.new ≡ code.old
        ++ procedure_code typed.now (record { gives = gives; body = body.now }) (length code.old)) }
    ensures counted { OnOk result (length table.new.items ≡ length table.old.items + 1) }
    ensures table { OnOk result (table.new.items ≡ table.old.items
        ++ entry_of typed.now (record { gives = gives; body = body.now }) (length code.old) ∷ []) }
{
    let start = code.place();
    emit_procedure(gives, body, typed, notes, code)?;
    let end = code.place();
    table.push(Fun { start, end, gives })?;
    Ok(())
}

/// Appends the code of the functions, and their entries.
fn add_functions(
    functions: &[TFun],
    typed: &Typed,
    notes: &mut Vec<Extent>,
    code: &mut Emitter,
    table: &mut Vec<Fun>,
) -> Result<(), NoMemory>
    requires fields { All (λ function. BodyHasFieldCells function.body) functions.now }
    requires room { length code.old + functions_size typed.now functions.now < 2 ^ 32 }
    ensures grows { OnOk result (length code.new ≡ length code.old + functions_size typed.now functions.now) }
    ensures code { OnOk result (code.new ≡ code.old
        ++ procedures_code typed.now (map of_function functions.now) (length code.old)) }
    ensures table { OnOk result (table.new.items ≡ table.old.items
        ++ function_table typed.now (map of_function functions.now) (length code.old)) }
{
    for function in functions {
        let body = function.body.as_slice();
        add_procedure(function.gives.is_some(), body, typed, notes, code, table)?;
    }
    Ok(())
}

/// Appends the code of the event procedures, and their entries, and gives their table.
fn add_handlers(
    alloc: Global,
    handlers: &[THandler],
    typed: &Typed,
    notes: &mut Vec<Extent>,
    code: &mut Emitter,
    table: &mut Vec<Fun>,
) -> Result<Vec<Handler>, NoMemory>
    requires fields { All (λ handler. BodyHasFieldCells handler.body) handlers.now }
    requires room { length code.old + handlers_size typed.now handlers.now < 2 ^ 32 }
    requires few { length table.old.items ≤ length code.old }
    ensures code { OnOk result (code.new ≡ code.old
        ++ procedures_code typed.now (map of_handler handlers.now) (length code.old)) }
    ensures table { OnOk result (table.new.items ≡ table.old.items
        ++ function_table typed.now (map of_handler handlers.now) (length code.old)) }
    ensures handlers { IfOk result
        (λ entries. entries.items ≡ handler_table handlers.now (length table.old.items)) }
{
    let mut entries = Vec::new(alloc);
    for handler in handlers {
        let number = table.len() as u32;
        add_procedure(false, handler.body.as_slice(), typed, notes, code, table)?;
        entries.push(Handler {
            event: handler.event.copy()?,
            function: number,
            file: handler.file,
            line: handler.line,
        })?;
    }
    Ok(entries)
}

/// The formats once more.
fn copy_formats(alloc: Global, formats: &[Format]) -> Result<Items<Format>, NoMemory>
    ensures { IfOk result (λ copies. copies ≡ formats.now) }
{
    let mut copies = Vec::new(alloc);
    for format in formats {
        copies.push(format.copy(alloc)?)?;
    }
    Ok(Items::from_list(copies))
}

/// The code of a typed program, with its tables. Takes time linear in the code and in the tables, but for
/// expressions, whose code counts once for each level of `&&`, `||` and `?:`.
pub fn make_code(alloc: Global, typed: &Typed) -> Result<Code, NoMemory>
    requires sound { IsSound typed.now }
    requires room { size typed.now < 2 ^ 32 }
    ensures { IfOk result (IsCodeOf typed.now) }
{
    let mut code = Emitter::new(alloc);
    let mut functions = Vec::new(alloc);
    let mut notes = Vec::new(alloc);
    add_functions(
        typed.functions.as_slice(),
        typed,
        &mut notes,
        &mut code,
        &mut functions,
    )?;
    let events = typed.handlers.as_slice();
    let handlers = add_handlers(alloc, events, typed, &mut notes, &mut code, &mut functions)?;
    let (instrs, depths) = code.take();
    Ok(Code {
        instrs: Items::from_list(instrs),
        depths: Items::from_list(depths),
        functions: Items::from_list(functions),
        handlers: Items::from_list(handlers),
        cells: typed.cells.copy()?,
        starts: typed.starts.copy()?,
        timers: typed.timers.copy()?,
        formats: copy_formats(alloc, typed.formats.as_slice())?,
    })
}
