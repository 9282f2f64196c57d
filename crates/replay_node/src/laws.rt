//! Laws of the logs that are replayed. Each call does nothing: its contract is the law.

ghost use Rattle.std.specs.Prelude.{◌≡◌, ℕ, List};
ghost use Rattle.replay_node.specs.Replay.{IsBadLine, IsReplay};
ghost use Rattle.replay_node.specs.declared.replay.Replay.{Replay};
ghost use Rattle.scenario.specs.declared.scenario.Epoch.{Epoch};

use log_line::laws::one_reading;

/// A log has at most one replay on an interface, or at most one bad line, and not both.
pub fn one_replay()
    ensures replay { (log interface : List ℕ) (bit : ℕ) (epoch : Epoch) (replay other : Replay) →
        IsReplay log interface bit epoch replay → IsReplay log interface bit epoch other → replay ≡ other }
    ensures bad_line { (log : List ℕ) (number other : ℕ) →
        IsBadLine log number → IsBadLine log other → number ≡ other }
    ensures not_both { (log interface : List ℕ) (bit : ℕ) (epoch : Epoch) (replay : Replay) (number : ℕ) →
        IsReplay log interface bit epoch replay → IsBadLine log number → ⊥ }
{
    one_reading();
}
