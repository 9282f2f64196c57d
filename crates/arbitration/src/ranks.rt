// Numbers of a node's requests: the one behind the last, and numbers from 0 in their order.

ghost use Rattle.std.specs.Prelude.{◌≡◌, map};
ghost use Rattle.can_bus.specs.Ranks.{with_rank_in};
ghost use Rattle.arbitration.specs.Inside.Places.{InOrder};
ghost use Rattle.arbitration.specs.Inside.Ranks.{following_number};

use can_bus::{Transmission, Waiting, carries_earlier, rank};

/// The number of the node's next request behind one with this number. Behind the last number, that
/// is how many the node has, with this one.
pub(crate) fn following_number(
    waiting: &[Waiting],
    wire: &Option<Transmission>,
    node: u32,
    number: u64,
) -> u64
    ensures { result ≡ following_number waiting.now wire.now node number }
{
    if number == u64::MAX {
        rank(waiting, wire, node, number) + 1
    } else {
        number + 1
    }
}

/// Gives each waiting request of the node its rank for its number.
#[tactic(auto, using(crate::proofs::RankLemmas::counts))]
pub(crate) fn set_ranks(waiting: &mut [Waiting], wire: &Option<Transmission>, node: u32)
    requires { InOrder waiting.old }
    ensures { waiting.new ≡ map (with_rank_in waiting.old wire.now node) waiting.old }
{
    let mut count = 0;
    for request in waiting.iter_mut() {
        if request.node == node {
            request.number = count + u64::from(carries_earlier(wire, node, request.number));
            count += 1;
        }
    }
}
