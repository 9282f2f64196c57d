// The requests of a list, those of one node with numbers from 0 in their order.

ghost use Rattle.std.specs.Prelude.{◌≡◌, map, IfOk};
ghost use Rattle.can_bus.specs.Ranks.{with_rank_in};

use can_bus::{Transmission, Waiting, rank};
use std::alloc::Global;
use texts::NoMemory;

/// A request, where it is the node's with its rank for its number.
fn with_rank(
    waiting: &[Waiting],
    wire: &Option<Transmission>,
    node: u32,
    request: &Waiting,
) -> Waiting
    ensures { result ≡ with_rank_in waiting.now wire.now node request.now }
{
    if request.node != node {
        return *request;
    }
    Waiting {
        node,
        number: rank(waiting, wire, node, request.number),
        frame: request.frame,
    }
}

/// A list with the waiting requests, each of the node's with its rank for its number. Takes time that
/// grows with the square of the number of requests.
pub(crate) fn with_ranks(
    alloc: Global,
    waiting: &[Waiting],
    wire: &Option<Transmission>,
    node: u32,
) -> Result<Vec<Waiting>, NoMemory>
    ensures { IfOk result (λ ranked. ranked.items
        ≡ map (with_rank_in waiting.now wire.now node) waiting.now) }
{
    Ok(
        waiting
            .iter()
            .map(|request| with_rank(waiting, wire, node, request))
            .collect(alloc)?,
    )
}
