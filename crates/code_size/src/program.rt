// How many instructions the code of a whole program has.

ghost use Rattle.std.specs.Prelude.{◌≡◌, ◌-◌, ◌^◌, is_some, min, IfOk};
ghost use Rattle.typed_tree.specs.Size.{procedure_size, size, tail_size};
ghost use Rattle.code_size.specs.Rows.{functions_size, handlers_size};

use crate::extent::Extent;
use crate::statement::note_statements;
use std::alloc::Global;
use texts::NoMemory;
use typed_tree::{TFun, THandler, TStmt, Typed};

/// The size of the end of a procedure, where control may come to it: it returns, with 0 where it gives a
/// number.
fn tail_size(gives: bool, goes: bool) -> u64
    ensures { result ≡ tail_size gives goes }
{
    if goes { 1 + u64::from(gives) } else { 0 }
}

/// The size of a procedure that gives a number or not. The list for its notes is empty again afterwards.
fn procedure_size(
    gives: bool,
    body: &[TStmt],
    typed: &Typed,
    notes: &mut Vec<Extent>,
) -> Result<u64, NoMemory>
    ensures { IfOk result (λ size. size ≡ min (procedure_size typed.now gives body.now) (2 ^ 64 - 1)) }
{
    let extent = note_statements(body, typed, notes)?;
    notes.clear();
    let size = extent.size.saturating_add(tail_size(gives, extent.goes_on));
    Ok(size)
}

/// The size of functions.
fn functions_size(
    functions: &[TFun],
    typed: &Typed,
    notes: &mut Vec<Extent>,
) -> Result<u64, NoMemory>
    ensures { IfOk result (λ size. size ≡ min (functions_size typed.now functions.now) (2 ^ 64 - 1)) }
{
    let mut size = 0u64;
    for function in functions {
        let body = function.body.as_slice();
        let procedure = procedure_size(function.gives.is_some(), body, typed, notes)?;
        size = size.saturating_add(procedure);
    }
    Ok(size)
}

/// The size of event procedures.
fn handlers_size(
    handlers: &[THandler],
    typed: &Typed,
    notes: &mut Vec<Extent>,
) -> Result<u64, NoMemory>
    ensures { IfOk result (λ size. size ≡ min (handlers_size typed.now handlers.now) (2 ^ 64 - 1)) }
{
    let mut size = 0u64;
    for handler in handlers {
        let procedure = procedure_size(false, handler.body.as_slice(), typed, notes)?;
        size = size.saturating_add(procedure);
    }
    Ok(size)
}

/// How many instructions the code of a typed program has, or 2^64 - 1 where it has more. Takes time linear
/// in the program, and memory linear in its largest procedure.
pub fn size_of(alloc: Global, typed: &Typed) -> Result<u64, NoMemory>
    ensures { IfOk result (λ count. count ≡ min (size typed.now) (2 ^ 64 - 1)) }
{
    let mut notes = Vec::new(alloc);
    let functions = functions_size(typed.functions.as_slice(), typed, &mut notes)?;
    let handlers = handlers_size(typed.handlers.as_slice(), typed, &mut notes)?;
    Ok(functions.saturating_add(handlers))
}
