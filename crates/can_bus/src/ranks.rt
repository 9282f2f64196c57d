// Numbers of a node's requests from 0 in their order.

ghost use Rattle.std.specs.Prelude.{◌≡◌, ◌^◌, ◌+◌, ◌<◌};
ghost use Rattle.std.specs.Option.{option_map};
ghost use Rattle.can_bus.specs.Bus.{carries_earlier};
ghost use Rattle.can_bus.specs.Ranks.{rank_in, transmission_with_rank_in, CarriesInRange};

use crate::{Transmission, Waiting};

/// Whether the wire carries a request of the node with a lesser number.
pub fn carries_earlier(wire: &Option<Transmission>, node: u32, number: u64) -> bool
    ensures { result ≡ carries_earlier wire.now node number }
{
    match wire {
        Some(carried) => carried.request.node == node && carried.request.number < number,
        None => false,
    }
}

/// How many requests of the node, waiting or on the wire, have a lesser number.
pub fn rank(waiting: &[Waiting], wire: &Option<Transmission>, node: u32, number: u64) -> u64
    ensures value { result ≡ rank_in waiting.now wire.now node number }
    ensures bounded { result < 2 ^ 63 + 1 }
{
    let count = waiting
        .iter()
        .filter(|request| request.node == node && request.number < number)
        .count();
    count as u64 + u64::from(carries_earlier(wire, node, number))
}

/// What is on the wire, a request of the node with its rank for its number.
pub fn transmission_with_rank(
    waiting: &[Waiting],
    wire: &Option<Transmission>,
    node: u32,
) -> Option<Transmission>
    ensures value { result ≡ option_map (transmission_with_rank_in waiting.now wire.now node) wire.now }
    ensures in_range { CarriesInRange wire.now node }
{
    match wire {
        Some(carried) if carried.request.node == node => Some(Transmission {
            request: Waiting {
                node,
                number: rank(waiting, wire, node, carried.request.number),
                frame: carried.request.frame,
            },
            end: carried.end,
        }),
        Some(carried) => Some(*carried),
        None => None,
    }
}
