// The rules of the tables.

ghost use Rattle.std.specs.Prelude.{◌≡◌, ◌≢◌, ◌⊎◌, ◌↔◌, ◌<◌, ◌≤◌, All, AllPairs, IfOk, IsSomeAnd, IsTrue, length, slice_get, take, false};
ghost use Rattle.int_kinds.specs.Kind.{Holds};
ghost use Rattle.write_format.specs.Line.{IsCharArray, char_arrays};
ghost use Rattle.message_cells.specs.Cells.{IsHeldStart};
ghost use Rattle.run_effects.specs.Effect.{IsUnit, KeepsSelectors, KeepsTimers, key_of, selectors_of, timer_of};
ghost use Rattle.bytecode.specs.Tables.{GivesNothing, KeepsHandlers, KeepsTables, all_keys, all_selectors, all_timers};

use crate::code::{Code, Fun, Handler};
use crate::distinct::{keys_differ, selectors_are_apart, timers_differ};
use int_kinds::{Kind, holds, is_number};
use message_cells::begin_with_event;
use run_effects::Event;
use std::alloc::Global;
use texts::NoMemory;
use write_format::{CharCells, Format};

/// Whether the tables keep their rules.
pub(crate) fn keeps_tables(alloc: Global, code: &Code) -> Result<bool, NoMemory>
    ensures { IfOk result (λ keeps. IsTrue keeps ↔ KeepsTables code.now) }
{
    let kinds = code.cells.as_slice();
    if !keeps_handlers(alloc, code)? {
        return Ok(false);
    }
    let keeps_lists = begin_with_event(kinds)
        && starts_are_held(kinds, code.starts.as_slice())
        && units_are_known(code.timers.as_slice());
    if !keeps_lists {
        return Ok(false);
    }
    arrays_exist(alloc, kinds, code.formats.as_slice())
}

/// Whether each initial value is held by its cell's kind.
fn starts_are_held(kinds: &[Kind], starts: &[(u32, i128)]) -> bool
    ensures { IsTrue result ↔ All (IsHeldStart kinds.now) starts.now }
{
    for &(cell, n) in starts {
        if !is_held(kinds, cell, n) {
            return false;
        }
    }
    true
}

/// Whether the kind of a cell has a number.
fn is_held(kinds: &[Kind], cell: u32, n: i128) -> bool
    ensures { IsTrue result ↔ IsHeldStart kinds.now (cell, n) }
{
    match kinds.get(cell as usize) {
        Some(k) => is_number(n) && holds(*k, n),
        None => false,
    }
}

/// Whether each handler runs a function that gives nothing.
fn handlers_give_nothing(functions: &[Fun], handlers: &[Handler]) -> bool
    ensures { IsTrue result ↔ All (λ handler. GivesNothing functions.now handler.function) handlers.now }
{
    handlers
        .iter()
        .all(|handler| gives_nothing(functions, handler.function))
}

/// Whether there is such a function, and it gives nothing.
fn gives_nothing(functions: &[Fun], number: u32) -> bool
    ensures { IsTrue result ↔ GivesNothing functions.now number }
{
    match functions.get(number as usize) {
        Some(function) => !function.gives,
        None => false,
    }
}

/// Whether each unit is a millisecond or a second.
fn units_are_known(units: &[u64]) -> bool
    ensures { IsTrue result ↔ All IsUnit units.now }
{
    units.iter().all(|unit| *unit == 1000 || *unit == 1_000_000)
}

/// Whether the arrays of characters of each format are among cells of these kinds.
fn arrays_exist(alloc: Global, kinds: &[Kind], formats: &[Format]) -> Result<bool, NoMemory>
    ensures { IfOk result (λ exist. IsTrue exist ↔
        All (λ format. All (IsCharArray kinds.now) (char_arrays format)) formats.now) }
{
    if formats.is_empty() {
        return Ok(true);
    }
    let cells = CharCells::of(alloc, kinds)?;
    Ok(have_arrays_in(&cells, formats))
}

/// Whether the arrays of characters of each format are among these cells.
fn have_arrays_in(cells: &CharCells<'_>, formats: &[Format]) -> bool
    ensures { IsTrue result ↔ All (λ format. All (IsCharArray cells.now) (char_arrays format)) formats.now }
{
    formats.iter().all(|format| format.has_arrays_in(cells))
}

/// Whether the handlers keep their rules.
fn keeps_handlers(alloc: Global, code: &Code) -> Result<bool, NoMemory>
    ensures { IfOk result (λ keeps. IsTrue keeps ↔ KeepsHandlers code.now) }
{
    let handlers = code.handlers.as_slice();
    let keeps_selectors = keeps_selectors(alloc, handlers)?;
    let keeps_timers = keeps_timers(timers_of(alloc, handlers)?, code.timers.len());
    let keys = keys_of(alloc, handlers)?;
    let give_nothing = handlers_give_nothing(code.functions.as_slice(), handlers);
    Ok(give_nothing && keeps_selectors && keeps_timers && keys_differ(&keys))
}

/// Whether the selectors have known ranks, and no two of one rank a key in common.
fn keeps_selectors(alloc: Global, handlers: &[Handler]) -> Result<bool, NoMemory>
    ensures { IfOk result (λ keeps. IsTrue keeps ↔ KeepsSelectors (all_selectors handlers.now)) }
{
    if !ranks_are_known(handlers) {
        return Ok(false);
    }
    selectors_are_apart(alloc, handlers)
}

/// Whether the timers are among so many, and no two are the same.
fn keeps_timers(timers: Vec<u32>, count: usize) -> bool
    ensures { IsTrue result ↔ KeepsTimers timers.items count }
{
    if !timers_exist(&timers, count) {
        return false;
    }
    timers_differ(timers)
}

/// All timers of the handlers.
#[tactic(auto, using(crate::proofs::HandlerLists::one_more_handler))]
fn timers_of(alloc: Global, handlers: &[Handler]) -> Result<Vec<u32>, NoMemory>
    ensures { IfOk result (λ timers. timers.items ≡ all_timers handlers.now) }
{
    let mut timers = Vec::new(alloc);
    for handler in handlers {
        if let Event::Timer(timer) = handler.event {
            timers.push(timer)?;
        }
    }
    Ok(timers)
}

/// All keys of the handlers.
#[tactic(auto, using(crate::proofs::HandlerLists::one_more_handler))]
fn keys_of(alloc: Global, handlers: &[Handler]) -> Result<Vec<Option<u8>>, NoMemory>
    ensures { IfOk result (λ keys. keys.items ≡ all_keys handlers.now) }
{
    let mut keys = Vec::new(alloc);
    for handler in handlers {
        if let Event::Key(key) = handler.event {
            keys.push(key)?;
        }
    }
    Ok(keys)
}

/// Whether the rank of each selector is 0 to 2.
fn ranks_are_known(handlers: &[Handler]) -> bool
    ensures { IsTrue result ↔
        All (λ handler. All (λ selector. selector.rank ≤ 2) (selectors_of handler.event)) handlers.now }
{
    handlers
        .iter()
        .all(|handler| has_known_ranks(&handler.event))
}

/// Whether the rank of each selector that an event has is 0 to 2.
fn has_known_ranks(event: &Event) -> bool
    ensures { IsTrue result ↔ All (λ selector. selector.rank ≤ 2) (selectors_of event.now) }
{
    match event {
        Event::Message(selectors) => selectors
            .as_slice()
            .iter()
            .all(|selector| selector.rank <= 2),
        Event::PreStart | Event::Start | Event::Stop | Event::Timer(_) | Event::Key(_) => true,
    }
}

/// Whether each timer is below the number of timers.
fn timers_exist(timers: &[u32], count: usize) -> bool
    ensures { IsTrue result ↔ All (λ timer. timer < count) timers.now }
{
    timers.iter().all(|timer| (*timer as usize) < count)
}
