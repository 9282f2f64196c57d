// The keys of a moment, and the requests of a replay.

ghost use Rattle.std.specs.Prelude.{◌≡◌, ◌<◌, IfOk, OnOk, drop};
ghost use Rattle.can_bus.specs.Meaning.{BusMeaning};
ghost use Rattle.node_rounds.specs.Effects.{after_requests};
ghost use Rattle.run_meaning.specs.Live.{next_key, next_request};
ghost use Rattle.run_meaning.specs.Moments.{keys_after, keys_at, requests_after, requests_at};

use crate::upcoming::Upcoming;
use can_bus::Bus;
use replay_node::Request;
use scenario::KeyItem;
use std::alloc::Global;
use texts::NoMemory;

/// The keys up to a moment, in order. Takes time and memory linear in them.
pub(crate) fn keys_at(alloc: Global, keys: &[KeyItem], now: u64) -> Result<Vec<u8>, NoMemory>
    ensures { IfOk result (λ list. list.items ≡ keys_at now keys.now) }
{
    let mut list = Vec::new(alloc);
    for key in keys {
        if key.at > now {
            return Ok(list);
        }
        list.push(key.key)?;
    }
    Ok(list)
}

/// Passes the keys up to a moment. Takes time linear in them.
pub(crate) fn pass_keys(keys: &mut Upcoming<KeyItem>, now: u64)
    ensures { keys.new ≡ keys_after now keys.old }
{
    while let Some(key) = keys.as_slice().first() {
        if key.at > now {
            return;
        }
        keys.pass();
    }
}

/// The moment of the next key.
pub(crate) fn next_key(keys: &[KeyItem]) -> Option<u64>
    ensures { result ≡ next_key keys.now }
{
    let key = keys.first()?;
    Some(key.at)
}

/// The moment of the next request of the replay.
pub(crate) fn next_request(requests: &[Request]) -> Option<u64>
    ensures { result ≡ next_request requests.now }
{
    let request = requests.first()?;
    Some(request.at)
}

/// Makes the requests of the replay up to a moment, as the node of a number, and passes them. Takes time as
/// so many requests do.
pub(crate) fn make_requests<B: Bus>(
    requests: &mut Upcoming<Request>,
    node: u32,
    bus: &mut B,
    now: u64,
) -> Result<(), NoMemory>
    requires serves { node < B.meaning.nodes bus.old }
    ensures bus { OnOk result (bus.new ≡
        after_requests B.meaning.after_request bus.old node (requests_at now requests.old)) }
    ensures left { OnOk result (requests.new ≡ requests_after now requests.old) }
    ensures nodes { B.meaning.nodes bus.new ≡ B.meaning.nodes bus.old }
{
    while let Some(request) = requests.as_slice().first() {
        if request.at > now {
            return Ok(());
        }
        let frame = request.frame;
        bus.request(node, &frame)?;
        requests.pass();
    }
    Ok(())
}
