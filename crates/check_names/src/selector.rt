// What selectors select, and the identifiers of messages.

ghost use Rattle.std.specs.Prelude.{◌≡◌, ◌≤◌, ◌<◌, ◌++◌, IfSome, None, OnOk, if◌then◌else◌};
ghost use Rattle.std.specs.Bool.{OnTrue, then_some};
ghost use Rattle.std.specs.Option.{option_map};
ghost use Rattle.capl_meaning.specs.DeclarationRules.{is_identifier, is_in_range};
ghost use Rattle.capl_meaning.specs.ProcedureRules.{all_on, channels_of, hold_first, hold_second, identifiers_on, is_range, keys_between, selected_key, on_second, ranges_of, selection_place, selector_of, selector_of_numbers, selector_place};
ghost use Rattle.capl_meaning.specs.Variable.{identifier};
ghost use Rattle.check_names.specs.Selector.{IsProper};

use crate::names::Names;
use capl_tree::{Expr, Sel, SelWhat};
use dbc_reader::DbcMessage;
use run_effects::Selector;
use texts::NoMemory;

/// The greatest identifier of a standard frame.
const LAST_STANDARD: u32 = 0x7FF;

/// The greatest identifier of an extended frame.
const LAST_EXTENDED: u32 = 0x1FFF_FFFF;

/// The bit that marks an extended frame in a key.
const EXTENDED: u32 = 0x8000_0000;

/// The bit that marks a frame of the second channel in a key.
const SECOND_CHANNEL: u32 = 0x4000_0000;

/// Whether a number is an identifier.
pub(crate) fn is_identifier(value: Option<u64>, extended: bool) -> bool
    ensures { result ≡ is_identifier value extended }
{
    match value {
        None => false,
        Some(id) if extended => id <= LAST_EXTENDED as u64,
        Some(id) => id <= LAST_STANDARD as u64,
    }
}

/// Whether the identifier of a message of the database, in which bit 31 marks an extended one, is in
/// range.
pub(crate) fn is_in_range(id: u32) -> bool
    ensures value { result ≡ is_in_range id }
    ensures room { OnTrue result (id < 0xA0000000) }
{
    if id >= EXTENDED {
        return id - EXTENDED <= LAST_EXTENDED;
    }
    id <= LAST_STANDARD
}

/// The selection key of an identifier.
fn key_of_number(value: Option<u64>, extended: bool) -> Option<u32>
    ensures value { result ≡
        if is_identifier value extended then option_map (λ n. identifier n extended) value else None }
    ensures room { IfSome result (λ key. key < 0xA0000000) }
{
    if !is_identifier(value, extended) {
        return None;
    }
    let id = u32::try_from(value?).ok()?;
    Some(if extended { EXTENDED + id } else { id })
}

/// The selection key of a number, or None where it is no identifier. A selector has no other expressions.
fn key_of(e: &Expr) -> Option<u32>
    ensures value { result ≡ selected_key e.now }
    ensures room { IfSome result (λ key. key < 0xA0000000) }
{
    match e {
        Expr::Num { value, ext, .. } => key_of_number(*value, *ext),
        _ => None,
    }
}

/// Whether two keys are of one form, and the second is not below the first.
fn is_range(low: u32, high: u32) -> bool
    ensures value { result ≡ is_range low high }
    ensures ordered { OnTrue result (low ≤ high) }
{
    (low >= EXTENDED) == (high >= EXTENDED) && low <= high
}

/// What a range of keys selects, or None where it is none.
fn range_of(low: u32, high: u32) -> Option<Selector>
    requires room { high < 0xA0000000 }
    ensures value { result ≡ then_some (is_range low high) (keys_between 1 low high) }
    ensures proper { IfSome result IsProper }
{
    if !is_range(low, high) {
        return None;
    }
    Some(Selector { rank: 1, low, high })
}

/// What a single identifier or a range selects, or None where it breaks a rule.
pub(crate) fn selector_of_numbers(low: &Expr, high: &Option<Expr>) -> Option<Selector>
    ensures value { result ≡ selector_of_numbers low.now high.now }
    ensures proper { IfSome result IsProper }
{
    let least = key_of(low)?;
    match high {
        None => Some(Selector {
            rank: 0,
            low: least,
            high: least,
        }),
        Some(high) => range_of(least, key_of(high)?),
    }
}

/// What a message of the database selects, or None where its identifier is out of range.
fn selector_of_message(message: &DbcMessage) -> Option<Selector>
    ensures value { result ≡
        then_some (is_in_range message.now.id) (keys_between 0 message.now.id message.now.id) }
    ensures proper { IfSome result IsProper }
{
    is_in_range(message.id).then_some(Selector {
        rank: 0,
        low: message.id,
        high: message.id,
    })
}

/// What is selected, whichever the channel, or None where it breaks a rule.
pub(crate) fn selector_of(names: &Names, what: &SelWhat) -> Option<Selector>
    ensures value { result ≡ selector_of names.now.base what.now }
    ensures proper { IfSome result IsProper }
{
    match what {
        SelWhat::Any { .. } => Some(Selector {
            rank: 2,
            low: 0,
            high: u32::MAX,
        }),
        SelWhat::Name { name, .. } => selector_of_message(names.message(name.bytes())?),
        SelWhat::Ids { low, high, .. } => selector_of_numbers(low, high),
    }
}

/// The token of what is selected.
fn selection_place(what: &SelWhat) -> u32
    ensures { result ≡ selection_place what.now }
{
    match what {
        SelWhat::Any { at } | SelWhat::Name { at, .. } | SelWhat::Ids { at, .. } => *at,
    }
}

/// The first token of a selector.
pub(crate) fn selector_place(selector: &Sel) -> u32
    ensures { result ≡ selector_place selector.now }
{
    let at = selection_place(&selector.what);
    if selector.chan == 1 || selector.chan == 2 {
        return at.saturating_sub(2);
    }
    at
}

/// Whether a selector of this channel, 0 being none, is for the first channel.
pub(crate) fn holds_first(chan: u8) -> bool
    ensures { result ≡ hold_first (channels_of chan) }
{
    chan != 2
}

/// Whether a selector of this channel, 0 being none, is for the second channel.
pub(crate) fn holds_second(chan: u8) -> bool
    ensures { result ≡ hold_second (channels_of chan) }
{
    chan != 1
}

/// The same identifiers on the second channel.
fn on_second(keys: Selector) -> Selector
    requires some { keys.low ≤ keys.high }
    requires room { keys.high < 0xA0000000 }
    ensures { result ≡ on_second keys }
{
    Selector {
        rank: keys.rank,
        low: keys.low + SECOND_CHANNEL,
        high: keys.high + SECOND_CHANNEL,
    }
}

/// Appends the selection keys of identifiers on a channel, 0 being both.
fn push_identifiers(chan: u8, keys: Selector, into: &mut Vec<Selector>) -> Result<(), NoMemory>
    requires some { keys.low ≤ keys.high }
    requires room { keys.high < 0xA0000000 }
    ensures { OnOk result (into.new.items ≡ into.old.items ++ identifiers_on (channels_of chan) keys) }
{
    if holds_first(chan) {
        into.push(keys)?;
    }
    if holds_second(chan) {
        into.push(on_second(keys))?;
    }
    Ok(())
}

/// Selection keys of `*`.
fn every(low: u32, high: u32) -> Selector
    ensures { result ≡ record { rank = 2; low = low; high = high } }
{
    Selector { rank: 2, low, high }
}

/// Appends the selection keys of `*` on a channel, 0 being both.
fn push_all(chan: u8, into: &mut Vec<Selector>) -> Result<(), NoMemory>
    ensures { OnOk result (into.new.items ≡ into.old.items ++ all_on (channels_of chan)) }
{
    if chan == 1 {
        into.push(every(0, 0x3FFF_FFFF))?;
        into.push(every(0x8000_0000, 0xBFFF_FFFF))?;
    } else if chan == 2 {
        into.push(every(0x4000_0000, 0x7FFF_FFFF))?;
        into.push(every(0xC000_0000, u32::MAX))?;
    } else {
        into.push(every(0, u32::MAX))?;
    }
    Ok(())
}

/// Appends the selection keys of a selector; none where it breaks a rule.
pub fn push_ranges(names: &Names, selector: &Sel, into: &mut Vec<Selector>) -> Result<(), NoMemory>
    ensures { OnOk result (into.new.items ≡ into.old.items ++ ranges_of names.now.base selector.now) }
{
    let Some(keys) = selector_of(names, &selector.what) else {
        return Ok(());
    };
    if keys.rank == 2 {
        return push_all(selector.chan, into);
    }
    push_identifiers(selector.chan, keys, into)
}
