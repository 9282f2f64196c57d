//! Laws of runs. Each call does nothing: its contract is the law.

ghost use Rattle.std.specs.Prelude.{◌≡◌, ℕ, List, None, All};
ghost use Rattle.std.specs.List.{AllByRecursion, AllZip};
ghost use Rattle.can_frame.specs.Frame.{FrameFields};
ghost use Rattle.scenario.specs.declared.scenario.KeyItem.{KeyItem};
ghost use Rattle.replay_node.specs.declared.replay.Request.{Request};
ghost use Rattle.node_rounds.specs.declared.occurrence.Occurrence.{Occurrence};
ghost use Rattle.node_rounds.specs.declared.occurrence.Occurrence.TheVariants.{Key};
ghost use Rattle.node_rounds.specs.Follows.{NodesAlike};
ghost use Rattle.node_rounds.specs.Reaction.{NodeState, Runner, reaction_of};
ghost use Rattle.run_meaning.specs.Counts.{row_then};
ghost use Rattle.run_meaning.specs.Live.{CanBeSeen, IsLater, IsLive, IsReady};
ghost use Rattle.run_meaning.specs.Run.{IsRun, Passed, RunState, new_run, with_nodes};
ghost use Rattle.run_meaning.specs.Steps.{steps};

use can_bus::Bus;
use node_rounds::laws::RunnerPair;

/// A way to run procedures by which nodes do each task that they have. A type without a value has the
/// meanings.
pub trait LiveRunner {
    /// The memories.
    ghost Memory: { Type 0 };

    /// How procedures run.
    ghost runner: { Runner Memory };

    /// What holds of nodes that do each task.
    ghost sound: { NodeState Memory → Type 0 };

    /// Which occurrences there can be.
    ghost can: { Occurrence → Type 0 };

    /// Those of which it holds do each task for such an occurrence, in one way, and it holds of them still.
    ghost lives: { IsLive runner sound can };
}

/// Nodes that are alike, one by one, have equal rounds on a bus, and are alike after them.
pub fn equal_runs<P: RunnerPair, B: Bus>()
    ensures { (until : ℕ) (before after : RunState (NodeState P.First) B) (others : List (NodeState P.Second))
        (rounds : List Passed) → AllZip (NodesAlike P.related) before.nodes others →
        IsRun (reaction_of P.first) B.meaning until before rounds after →
        (end : List (NodeState P.Second))
        × IsRun (reaction_of P.second) B.meaning until (with_nodes before others) rounds
        (with_nodes after end)
        × AllZip (NodesAlike P.related) after.nodes end }
{}

/// Nodes that do each task have a run from a new bus, whichever keys are pressed and whatever a replay
/// requests, where there can be these keys, and where these frames and those that the bus carries can be
/// seen: it comes to the end moment, or to the instant in which a node asks to stop.
pub fn each_run<P: LiveRunner, B: Bus>()
    ensures { (until : ℕ) (nodes : List (NodeState P.Memory)) (b : B) (keys : List KeyItem)
        (requests : List Request) → AllByRecursion (IsReady P.sound 0) nodes →
        AllByRecursion (IsLater 0) nodes → B.meaning.sound b → B.meaning.next_moment b ≡ None →
        All (λ key. P.can (Key key.key)) keys → All (λ request. CanBeSeen P.can request.frame) requests →
        ((frame : FrameFields) → B.meaning.carries b frame → CanBeSeen P.can frame) →
        (rounds : List Passed) × (after : RunState (NodeState P.Memory) B)
        × IsRun (reaction_of P.runner) B.meaning until (new_run nodes b keys requests) rounds after }
{}

/// Such nodes have one run at most: where two runs begin alike, their rounds are equal, and so is how they
/// stand at their ends.
pub fn one_run<P: LiveRunner, B: Bus>()
    ensures { (until : ℕ) (before after end : RunState (NodeState P.Memory) B) (rounds others : List Passed) →
        IsRun (reaction_of P.runner) B.meaning until before rounds after →
        IsRun (reaction_of P.runner) B.meaning until before others end →
        (rounds ≡ others) × (after ≡ end) }
{}

/// In whichever order picks put the tasks of rounds, each row of a meter counts as many runs and turns.
pub fn picks_change_no_row()
    ensures { (first_rows : List ℕ) (rounds : List Passed) (picks others : List ℕ) (number : ℕ) →
        row_then first_rows (steps rounds picks) number ≡ row_then first_rows (steps rounds others) number }
{}
