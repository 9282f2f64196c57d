// Places in the list of waiting requests.

ghost use Rattle.std.specs.Prelude.{◌≡◌, [], IfSome, IfNone};
ghost use Rattle.arbitration.specs.Inside.Places.{place_behind, IsWinnerPlace};

use can_bus::{Waiting, goes_before};

/// How many requests stand before the first of a greater node.
pub(crate) fn place_behind(waiting: &[Waiting], node: u32) -> usize
    ensures { result ≡ place_behind waiting.now node }
{
    let mut place = 0;
    while place < waiting.len() && waiting[place].node <= node {
        place += 1;
    }
    place
}

/// The place of the request that goes before each other one, or `None` where nothing waits.
pub(crate) fn winner_place(waiting: &[Waiting]) -> Option<usize>
    ensures some { IfSome result (IsWinnerPlace waiting.now) }
    ensures none { IfNone result (waiting.now ≡ []) }
{
    if waiting.is_empty() {
        return None;
    }
    let mut best = 0;
    for (place, request) in waiting.iter().enumerate() {
        if goes_before(request, &waiting[best]) {
            best = place;
        }
    }
    Some(best)
}
