// Tables of the handlers of code, made once.

ghost use Rattle.std.specs.Prelude.{◌≡◌, ◌≢◌, ◌++◌, ◌<◌, ◌^◌, ℕ, Some, None, IfOk, OnOk, length, map, slice_index_or};
ghost use Rattle.std.specs.List.Sorted.{IsPermutation};
ghost use Rattle.std.specs.Option.{option_or};
ghost use Rattle.node_run.specs.Code.{events_of};
ghost use Rattle.node_run.specs.Inside.Tables.{IsTable, message_selectors, place_of, selector_for};

use bytecode::Handler;
use msg_select::{MessageSelector, Selectors};
use run_effects::{Event, Selector};
use std::alloc::Global;
use texts::NoMemory;

/// What the places of a table stand for.
#[derive(Clone, Copy)]
pub(crate) enum Subject {
    /// The timers.
    Timers,
    /// The keys, without `*`.
    Keys,
}

/// The place of an event in a table of a subject, if it has one.
fn place_of(subject: Subject, event: &Event) -> Option<usize>
    ensures { result ≡ place_of subject event.now }
{
    match event {
        Event::Timer(timer) => match subject {
            Subject::Timers => Some(*timer as usize),
            Subject::Keys => None,
        },
        Event::Key(Some(key)) => match subject {
            Subject::Timers => None,
            Subject::Keys => Some(*key as usize),
        },
        Event::PreStart | Event::Start | Event::Stop | Event::Message(_) | Event::Key(None) => None,
    }
}

/// For each of so many places of a subject the first handler, if there is one. Takes time and memory
/// linear in the places and the handlers.
pub(crate) fn table_of(
    alloc: Global,
    handlers: &[Handler],
    subject: Subject,
    count: usize,
) -> Result<Vec<Option<u32>>, NoMemory>
    requires { length handlers.now < 2 ^ 32 }
    ensures { IfOk result (λ table. IsTable subject (events_of handlers.now) count table.items) }
{
    let mut table = vec![in alloc; None; count]?;
    let mut number = 0;
    for handler in handlers {
        if let Some(place) = place_of(subject, &handler.event) {
            enter(&mut table, place, number);
        }
        number += 1;
    }
    Ok(table)
}

/// Enters a handler at a place of a table that has none there.
fn enter(table: &mut Vec<Option<u32>>, place: usize, handler: u32)
    ensures own { place < length table.old.items → slice_index_or table.new.items place None
        ≡ option_or (slice_index_or table.old.items place None) (Some handler) }
    ensures others { (other : ℕ) → other ≢ place →
        slice_index_or table.new.items other None ≡ slice_index_or table.old.items other None }
    ensures as_many { length table.new.items ≡ length table.old.items }
{
    if place < table.len() && table[place].is_none() {
        table[place] = Some(handler);
    }
}

/// The selectors of the message handlers. Takes memory linear in their number, and time as a sort of
/// them.
pub(crate) fn messages_of(alloc: Global, handlers: &[Handler]) -> Result<Selectors, NoMemory>
    requires { length handlers.now < 2 ^ 32 }
    ensures { IfOk result (IsPermutation (message_selectors 0 (events_of handlers.now))) }
{
    let list = list_of(alloc, handlers)?;
    Selectors::build(alloc, &list)
}

/// The selectors of the message handlers, in order.
fn list_of(alloc: Global, handlers: &[Handler]) -> Result<Vec<MessageSelector>, NoMemory>
    requires { length handlers.now < 2 ^ 32 }
    ensures { IfOk result (λ list. list.items ≡ message_selectors 0 (events_of handlers.now)) }
{
    let mut list = Vec::new(alloc);
    let mut number = 0;
    for handler in handlers {
        if let Event::Message(selectors) = &handler.event {
            add_selectors(&mut list, selectors.as_slice(), number)?;
        }
        number += 1;
    }
    Ok(list)
}

/// Adds the selectors of a handler.
fn add_selectors(
    list: &mut Vec<MessageSelector>,
    selectors: &[Selector],
    handler: u32,
) -> Result<(), NoMemory>
    ensures { OnOk result (list.new.items ≡ list.old.items ++ map (selector_for handler) selectors.now) }
{
    for selector in selectors {
        list.push(MessageSelector {
            rank: selector.rank,
            low: selector.low,
            high: selector.high,
            handler,
        })?;
    }
    Ok(())
}
