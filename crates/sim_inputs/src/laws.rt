//! Laws of the inputs of a name. Each call does nothing: its contract is the law.

ghost use Rattle.std.specs.Prelude.{◌≡◌, ℕ, List};
ghost use Rattle.texts.specs.declared.blame.Blame.{Blame as Blamed};
ghost use Rattle.scenario.specs.declared.scenario.Scenario.{Scenario};
ghost use Rattle.dbc_reader.specs.declared.message.DbcMessage.{DbcMessage};
ghost use Rattle.capl_include.specs.Expansion.{Contents};
ghost use Rattle.sim_inputs.specs.Accepted.{AreAccepted, IsFirstBlame, NodeSource};
ghost use Rattle.sim_inputs.specs.Law.{SayTheSame};
ghost use Rattle.replay_node.specs.declared.replay.Replay.{Replay};

use replay_node::laws::one_replay;

/// Over what the files hold, a name leads to at most one scenario with one program for each node and one
/// replay, or has at most one first blame, and not both.
pub fn one_reading()
    // Two accepted scenarios say the same, and their messages are equal, the files and programs of their
    // nodes, and their replays.
    ensures accepted { (contents : Contents) (name : List ℕ) (scenario other : Scenario)
        (base more : List DbcMessage) (sources others : List NodeSource) (replay third : Replay) →
        AreAccepted contents name scenario base sources replay →
        AreAccepted contents name other more others third →
        SayTheSame scenario other × (base ≡ more) × (sources ≡ others) × (replay ≡ third) }
    ensures blame { (contents : Contents) (name : List ℕ) (one other : Blamed) →
        IsFirstBlame contents name one → IsFirstBlame contents name other → one ≡ other }
    ensures not_both { (contents : Contents) (name : List ℕ) (scenario : Scenario)
        (base : List DbcMessage) (sources : List NodeSource) (replay : Replay) (one : Blamed) →
        AreAccepted contents name scenario base sources replay → IsFirstBlame contents name one → ⊥ }
{
    one_replay();
}
