// Whether handlers have nothing in common.

ghost use Rattle.std.specs.Prelude.{◌≡◌, ◌≢◌, ◌↔◌, ◌≤◌, ◌++◌, AllPairs, All, IfOk, IsTrue, OnOk};
ghost use Rattle.std.specs.List.{filter_map};
ghost use Rattle.std.specs.List.Sorted.{IsNonDecreasing, IsNonDecreasingBy};
ghost use Rattle.bytecode.specs.Tables.{all_selectors};
ghost use Rattle.bytecode.specs.Inside.Distinct.{AreSpansApart, span_in};
ghost use Rattle.run_effects.specs.Effect.{AreApart, selectors_of};

use crate::code::Handler;
use run_effects::{Event, Selector};
use std::alloc::Global;
use texts::NoMemory;

/// How many ranks there are.
const RANKS: u8 = 3;

/// The keys of a selector that has any.
#[derive(Clone, Copy)]
pub(crate) struct Span {
    /// The least one.
    pub(crate) low: u32,
    /// The greatest one.
    pub(crate) high: u32,
}

/// Whether no two selectors of one rank have a key in common. Takes time n log n in the selectors, and
/// memory linear in those of one rank.
pub(crate) fn selectors_are_apart(alloc: Global, handlers: &[Handler]) -> Result<bool, NoMemory>
    requires { All (λ handler.
        All (λ selector. selector.rank ≤ 2) (selectors_of handler.event)) handlers.now }
    ensures { IfOk result (λ apart. IsTrue apart ↔ AllPairs AreApart (all_selectors handlers.now)) }
{
    for rank in 0..RANKS {
        if !spans_are_apart(spans_of(alloc, handlers, rank)?) {
            return Ok(false);
        }
    }
    Ok(true)
}

/// The keys of each selector of a rank that has any.
#[tactic(auto, using(crate::proofs::HandlerLists::one_more_handler))]
fn spans_of(alloc: Global, handlers: &[Handler], rank: u8) -> Result<Vec<Span>, NoMemory>
    ensures { IfOk result (λ spans. spans.items ≡ filter_map (span_in rank) (all_selectors handlers.now)) }
{
    let mut spans = Vec::new(alloc);
    for handler in handlers {
        if let Event::Message(own) = &handler.event {
            add_spans(own.as_slice(), rank, &mut spans)?;
        }
    }
    Ok(spans)
}

/// Appends the keys of each of these selectors that is of a rank and has any.
#[tactic(auto, using(crate::proofs::HandlerLists::one_more_handler))]
fn add_spans(selectors: &[Selector], rank: u8, into: &mut Vec<Span>) -> Result<(), NoMemory>
    ensures { OnOk result (into.new.items ≡ into.old.items ++ filter_map (span_in rank) selectors.now) }
{
    for selector in selectors {
        if let Some(span) = span_in(rank, *selector) {
            into.push(span)?;
        }
    }
    Ok(())
}

/// The keys of a selector that is of this rank and has any.
fn span_in(rank: u8, selector: Selector) -> Option<Span>
    ensures { result ≡ span_in rank selector }
{
    let Selector { low, high, .. } = selector;
    if selector.rank == rank && low <= high {
        Some(Span { low, high })
    } else {
        None
    }
}

/// Whether no two spans have a key in common.
fn spans_are_apart(mut spans: Vec<Span>) -> bool
    requires { All (λ span. span.low ≤ span.high) spans.items }
    ensures { IsTrue result ↔ AllPairs AreSpansApart spans.items }
{
    spans.sort_unstable_by_key(|span| span.low);
    each_begins_behind(&spans)
}

/// Whether each span begins behind the one before it, where the spans stand by their least keys.
fn each_begins_behind(spans: &[Span]) -> bool
    requires some { All (λ span. span.low ≤ span.high) spans.now }
    requires rises { IsNonDecreasingBy (λ span. span.low) spans.now }
    ensures { IsTrue result ↔ AllPairs AreSpansApart spans.now }
{
    for i in 1..spans.len() {
        if spans[i].low <= spans[i - 1].high {
            return false;
        }
    }
    true
}

/// Whether no two timers are the same.
pub(crate) fn timers_differ(mut timers: Vec<u32>) -> bool
    ensures { IsTrue result ↔ AllPairs (λ a b. a ≢ b) timers.items }
{
    timers.sort_unstable();
    rises(&timers)
}

/// Whether each number is above the one before it, where none is below it.
fn rises(numbers: &[u32]) -> bool
    requires { IsNonDecreasing numbers.now }
    ensures { IsTrue result ↔ AllPairs (λ a b. a ≢ b) numbers.now }
{
    for i in 1..numbers.len() {
        if numbers[i - 1] == numbers[i] {
            return false;
        }
    }
    true
}

/// Whether no two keys are the same. Takes time linear in the keys, since there are 257.
pub(crate) fn keys_differ(keys: &[Option<u8>]) -> bool
    ensures { IsTrue result ↔ AllPairs (λ a b. a ≢ b) keys.now }
{
    for (i, key) in keys.iter().enumerate() {
        if keys[..i].contains(key) {
            return false;
        }
    }
    true
}
