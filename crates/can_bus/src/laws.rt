//! Laws of the order of requests. Each call does nothing: its contract is the law.

ghost use Rattle.std.specs.Prelude.{◌≡◌, MatchOption};
ghost use Rattle.std.specs.FinMap.{empty};
ghost use Rattle.can_bus.specs.Waiting.{Requests, winner, IsWinner};

/// The winner of a set of requests is a member and goes before each other one. Only an empty set
/// has none.
#[tactic(auto, using(crate::proofs::Winner::winner_law))]
pub fn winner_goes_first()
    ensures { (requests : Requests) → MatchOption (winner requests) (requests ≡ empty) (IsWinner requests) }
{}
