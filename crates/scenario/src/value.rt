// The values of items.

ghost use Rattle.std.specs.Prelude.{◌≡◌, ◌≤◌, ◌<◌, IfOk, IfSome, map};
ghost use Rattle.std.specs.List.{list_all};
ghost use Rattle.scenario.specs.Item.{number_of, bit_of, moment_of, turns_of, epoch_of, picks_of, key_byte_of, key_of, is_interface_byte, is_interface, is_printable, is_file_name, is_node_name};

use crate::scenario::{Epoch, KeyItem};
use capl_lexer::is_name;
use items::Items;
use std::alloc::Global;
use text_parts::decimal_number;
use texts::NoMemory;

/// The bit rates, in bits a second.
const BIT_RATES: [u64; 15] = [
    10_000, 12_500, 15_625, 20_000, 25_000, 31_250, 40_000, 50_000, 62_500, 100_000, 125_000,
    200_000, 250_000, 500_000, 1_000_000,
];

/// A day, in milliseconds.
const DAY: u64 = 86_400_000;

/// How many digits a number has at most.
const DIGITS: usize = 20;

/// The number of at most 20 decimal digits, or None where it is none or is above the limit.
fn number_of(value: &[u8], limit: u64) -> Option<u64>
    ensures value { result ≡ number_of limit value.now }
    ensures within { IfSome result (λ number. number ≤ limit) }
{
    if value.len() > DIGITS {
        return None;
    }
    decimal_number(value, limit)
}

/// How long a bit is in microseconds at this bit rate, or None where it is no bit rate.
pub(crate) fn bit_of(value: &[u8]) -> Option<u32>
    ensures { result ≡ bit_of value.now }
{
    let rate = number_of(value, 1_000_000)?;
    if !BIT_RATES.contains(&rate) {
        return None;
    }
    Some((1_000_000 / rate) as u32)
}

/// The moment in microseconds that these milliseconds are, or None where they are none of a day.
pub(crate) fn moment_of(value: &[u8]) -> Option<u64>
    ensures { result ≡ moment_of value.now }
{
    let millis = number_of(value, DAY)?;
    Some(millis * 1_000)
}

/// The turn limit, or None where it is none of 1 to 10,000,000.
pub(crate) fn turns_of(value: &[u8]) -> Option<u64>
    ensures { result ≡ turns_of value.now }
{
    let turns = number_of(value, 10_000_000)?;
    if turns == 0 { None } else { Some(turns) }
}

/// The epoch: `first`, or seconds up to 2^32 - 1.
pub(crate) fn epoch_of(value: &[u8]) -> Option<Epoch>
    ensures { result ≡ epoch_of value.now }
{
    if value == b"first".as_slice() {
        return Some(Epoch::First);
    }
    let seconds = number_of(value, 4_294_967_295)?;
    Some(Epoch::At(seconds))
}

/// The picks, or None where one is no number up to 2^32 - 1. Takes memory linear in them.
pub(crate) fn picks_of(alloc: Global, values: &[&[u8]]) -> Result<Option<Items<u32>>, NoMemory>
    ensures { IfOk result (λ picks. picks ≡ picks_of (map (λ value. value.now) values.now)) }
{
    let mut picks = Vec::with_capacity(alloc, values.len())?;
    for value in values {
        let Some(pick) = number_of(value, 4_294_967_295) else {
            return Ok(None);
        };
        picks.push(pick as u32)?;
    }
    Ok(Some(Items::from_list(picks)))
}

/// The key: one byte from 33 to 126.
fn key_byte_of(value: &[u8]) -> Option<u8>
    ensures { result ≡ key_byte_of value.now }
{
    match value {
        [byte @ 33..=126] => Some(*byte),
        _ => None,
    }
}

/// The key at its moment, or None where one of them is none.
pub(crate) fn key_of(moment: &[u8], key: &[u8]) -> Option<KeyItem>
    ensures { result ≡ key_of moment.now key.now }
{
    let at = moment_of(moment)?;
    let key = key_byte_of(key)?;
    Some(KeyItem { at, key })
}

/// Whether the byte may stand in an interface.
fn is_interface_byte(byte: u8) -> bool
    ensures { result ≡ is_interface_byte byte }
{
    matches!(byte, b'A'..=b'Z' | b'a'..=b'z' | b'0'..=b'9' | b'_' | b'-' | b'.')
}

/// Whether each byte may stand in an interface.
fn are_interface_bytes(name: &[u8]) -> bool
    ensures { result ≡ list_all is_interface_byte name.now }
{
    name.iter().all(|byte| is_interface_byte(*byte))
}

/// Whether the bytes are an interface.
pub(crate) fn is_interface(name: &[u8]) -> bool
    ensures { result ≡ is_interface name.now }
{
    !name.is_empty() && name.len() <= 15 && are_interface_bytes(name)
}

/// Whether each byte is one of 33 to 126.
fn are_printable(name: &[u8]) -> bool
    ensures { result ≡ list_all is_printable name.now }
{
    name.iter().all(|byte| (33..=126).contains(byte))
}

/// Whether a file may have this name.
pub(crate) fn is_file_name(name: &[u8]) -> bool
    ensures { result ≡ is_file_name name.now }
{
    name.len() <= 255 && are_printable(name)
}

/// Whether a node may have this name.
pub(crate) fn is_node_name(name: &[u8]) -> bool
    ensures { result ≡ is_node_name name.now }
{
    name.len() <= 32 && name != b"replay".as_slice() && is_name(name)
}
