// Items.

ghost use Rattle.std.specs.Prelude.{◌≡◌, IfOk, map};
ghost use Rattle.scenario.specs.Item.{item_of_one, item_of_two, item_of_picks, item_of_values, item_of};

use crate::scenario::{Epoch, KeyItem, NodeItem};
use crate::value::{bit_of, epoch_of, key_of, moment_of, picks_of, turns_of};
use items::Items;
use std::alloc::Global;
use texts::{NoMemory, Text};

/// What a line says. A value is None where it is none that its item may have.
#[derive(Drop)]
pub(crate) enum Item {
    /// `scenario VERSION`, and whether the version is 1.
    Scenario(bool),
    /// `database FILE`.
    Database(Text),
    /// `node NAME FILE`.
    Node(NodeItem),
    /// `bitrate N`, as the length of a bit in microseconds.
    Bitrate(Option<u32>),
    /// `until MS`, in microseconds.
    Until(Option<u64>),
    /// `turns N`.
    Turns(Option<u64>),
    /// `epoch SECONDS` or `epoch first`.
    Epoch(Option<Epoch>),
    /// `interface NAME`.
    Interface(Text),
    /// `picks N N ..`.
    Picks(Option<Items<u32>>),
    /// `key MS C`.
    Key(Option<KeyItem>),
    /// `replay FILE`.
    Replay(Text),
    /// No item.
    Unknown,
}

/// The item of these fields. Takes time and memory linear in them.
pub(crate) fn item_of(alloc: Global, fields: &[&[u8]]) -> Result<Item, NoMemory>
    ensures { IfOk result (λ item. item ≡ item_of (map (λ field. field.now) fields.now)) }
{
    let [word, values @ ..] = fields else {
        return Ok(Item::Unknown);
    };
    if *word == b"picks".as_slice() {
        item_of_picks(alloc, values)
    } else {
        item_of_values(alloc, word, values)
    }
}

/// The item of picks.
fn item_of_picks(alloc: Global, values: &[&[u8]]) -> Result<Item, NoMemory>
    ensures { IfOk result (λ item. item ≡ item_of_picks (map (λ value. value.now) values.now)) }
{
    if values.is_empty() {
        return Ok(Item::Unknown);
    }
    Ok(Item::Picks(picks_of(alloc, values)?))
}

/// The item of a word and its values.
fn item_of_values(alloc: Global, word: &[u8], values: &[&[u8]]) -> Result<Item, NoMemory>
    ensures { IfOk result (λ item. item ≡ item_of_values word.now (map (λ value. value.now) values.now)) }
{
    match values {
        [value] => item_of_one(alloc, word, value),
        [first, second] => item_of_two(alloc, word, first, second),
        _ => Ok(Item::Unknown),
    }
}

/// The item of a word and one value.
fn item_of_one(alloc: Global, word: &[u8], value: &[u8]) -> Result<Item, NoMemory>
    ensures { IfOk result (λ item. item ≡ item_of_one word.now value.now) }
{
    if word == b"scenario".as_slice() {
        Ok(Item::Scenario(value == b"1".as_slice()))
    } else if word == b"database".as_slice() {
        Ok(Item::Database(Text::make(alloc, value)?))
    } else if word == b"bitrate".as_slice() {
        Ok(Item::Bitrate(bit_of(value)))
    } else if word == b"until".as_slice() {
        Ok(Item::Until(moment_of(value)))
    } else if word == b"turns".as_slice() {
        Ok(Item::Turns(turns_of(value)))
    } else if word == b"epoch".as_slice() {
        Ok(Item::Epoch(epoch_of(value)))
    } else if word == b"interface".as_slice() {
        Ok(Item::Interface(Text::make(alloc, value)?))
    } else if word == b"replay".as_slice() {
        Ok(Item::Replay(Text::make(alloc, value)?))
    } else {
        Ok(Item::Unknown)
    }
}

/// The item of a word and two values.
fn item_of_two(alloc: Global, word: &[u8], first: &[u8], second: &[u8]) -> Result<Item, NoMemory>
    ensures { IfOk result (λ item. item ≡ item_of_two word.now first.now second.now) }
{
    match word {
        b"node" => Ok(Item::Node(NodeItem {
            name: Text::make(alloc, first)?,
            file: Text::make(alloc, second)?,
        })),
        b"key" => Ok(Item::Key(key_of(first, second))),
        _ => Ok(Item::Unknown),
    }
}
