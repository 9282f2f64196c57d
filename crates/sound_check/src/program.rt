// Whether whole programs are sound.

ghost use Rattle.std.specs.Prelude.{◌≡◌, ◌≢◌, ◌↔◌, ◌<◌, ◌^◌, ℕ, All, AllPairs, IfOk, IsTrue, Some, length, slice_get};
ghost use Rattle.write_format.specs.Line.{IsShort};
ghost use Rattle.run_effects.specs.Effect.{selectors_of};
ghost use Rattle.typed_tree.specs.declared.program.TFun.{TFun};
ghost use Rattle.typed_tree.specs.Sound.{IsShortProgram, IsSound, IsSoundFunction, IsSoundHandler};
ghost use Rattle.sound_check.specs.Tables.{HaveFewSelectors};

use crate::around::Around;
use crate::statement::are_sound_stmts;
use crate::tables::keeps_tables;
use run_effects::Event;
use std::alloc::Global;
use texts::NoMemory;
use typed_tree::{TFun, THandler, Typed};
use write_format::Format;

/// How many items a list may have.
const MOST: usize = u32::MAX as usize;

/// Whether no two parameters are the same. Takes time that grows with the square of their number.
fn params_differ(params: &[u32]) -> bool
    ensures { IsTrue result ↔ AllPairs (λ a b. a ≢ b) params.now }
{
    for (i, param) in params.iter().enumerate() {
        if params[..i].contains(param) {
            return false;
        }
    }
    true
}

/// Whether each parameter is among so many cells.
fn params_exist(params: &[u32], cells: usize) -> bool
    ensures { IsTrue result ↔ All (λ param. param < cells) params.now }
{
    params.iter().all(|param| (*param as usize) < cells)
}

/// Whether a function of a number is sound.
fn is_sound_function(
    alloc: Global,
    function: &TFun,
    number: usize,
    typed: &Typed,
) -> Result<bool, NoMemory>
    ensures { IfOk result (λ sound. IsTrue sound ↔ IsSoundFunction typed.now number function.now) }
{
    let around = Around {
        number,
        gives: function.gives.is_some(),
        breakable: false,
        continuable: false,
    };
    let params = function.params.as_slice();
    let body = function.body.as_slice();
    let body_sound = are_sound_stmts(alloc, body, typed, around)?;
    let params_kept = params_exist(params, typed.cells.len()) && params_differ(params);
    Ok(params_kept && params.len() <= MOST && body.len() <= MOST && body_sound)
}

/// Whether all functions are sound.
fn are_sound_functions(alloc: Global, typed: &Typed) -> Result<bool, NoMemory>
    ensures { IfOk result (λ sound. IsTrue sound ↔ ((number : ℕ) (function : TFun) →
        slice_get typed.now.functions number ≡ Some function →
        IsSoundFunction typed.now number function)) }
{
    for (number, function) in typed.functions.as_slice().iter().enumerate() {
        if !is_sound_function(alloc, function, number, typed)? {
            return Ok(false);
        }
    }
    Ok(true)
}

/// Whether an event has fewer than 2^32 selectors.
fn has_few_selectors(event: &Event) -> bool
    ensures { IsTrue result ↔ (length (selectors_of event.now) < 2 ^ 32) }
{
    match event {
        Event::Message(selectors) => selectors.len() <= MOST,
        Event::PreStart | Event::Start | Event::Stop | Event::Timer(_) | Event::Key(_) => true,
    }
}

/// Whether an event procedure is sound.
fn is_sound_handler(alloc: Global, handler: &THandler, typed: &Typed) -> Result<bool, NoMemory>
    ensures { IfOk result (λ sound. IsTrue sound ↔ IsSoundHandler typed.now handler.now) }
{
    let around = Around {
        number: typed.functions.len(),
        gives: false,
        breakable: false,
        continuable: false,
    };
    let body = handler.body.as_slice();
    let body_sound = are_sound_stmts(alloc, body, typed, around)?;
    Ok(has_few_selectors(&handler.event) && body.len() <= MOST && body_sound)
}

/// Whether all event procedures are sound.
fn are_sound_handlers(alloc: Global, typed: &Typed) -> Result<bool, NoMemory>
    ensures { IfOk result (λ sound. IsTrue sound ↔ All (IsSoundHandler typed.now) typed.now.handlers) }
{
    for handler in typed.handlers.as_slice() {
        if !is_sound_handler(alloc, handler, typed)? {
            return Ok(false);
        }
    }
    Ok(true)
}

/// Whether no event procedure has 2^32 selectors or more.
fn have_few_selectors(handlers: &[THandler]) -> bool
    ensures { IsTrue result ↔ HaveFewSelectors handlers.now }
{
    handlers
        .iter()
        .all(|handler| has_few_selectors(&handler.event))
}

/// Whether the texts of all formats are short.
fn are_short_formats(formats: &[Format]) -> bool
    ensures { IsTrue result ↔ All IsShort formats.now }
{
    formats.iter().all(|format| format.is_short())
}

/// Whether no list of a program itself has 2^32 items or more, and no text of its formats.
fn is_short_program(typed: &Typed) -> bool
    ensures { IsTrue result ↔ IsShortProgram typed.now }
{
    are_short_formats(typed.formats.as_slice())
        && typed.functions.len() <= MOST
        && typed.handlers.len() <= MOST
        && typed.cells.len() <= MOST
        && typed.starts.len() <= MOST
        && typed.timers.len() <= MOST
        && typed.formats.len() <= MOST
}

/// Whether a typed program is sound: all that the compiler asks of it.
///
/// Takes time linear in the program, but for sorting the selectors and the timers of its event
/// procedures and the labels of each `switch`, and for the parameters of one function, with the square of
/// whose number it grows. Takes memory linear in the tables of the program and in the labels of one
/// `switch`.
pub fn is_sound(alloc: Global, typed: &Typed) -> Result<bool, NoMemory>
    ensures { IfOk result (λ sound. IsTrue sound ↔ IsSound typed.now) }
{
    if !is_short_program(typed) || !have_few_selectors(typed.handlers.as_slice()) {
        return Ok(false);
    }
    let functions_sound = are_sound_functions(alloc, typed)?;
    let handlers_sound = are_sound_handlers(alloc, typed)?;
    let tables_kept = keeps_tables(alloc, typed)?;
    Ok(functions_sound && handlers_sound && tables_kept)
}
