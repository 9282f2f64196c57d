//! Laws of the order of tasks. Each call does nothing: its contract is the law.

ghost use Rattle.std.specs.Prelude.{◌≡◌, ◌≢◌, ◌<◌, ◌⊎◌, ℕ, List, All, length};
ghost use Rattle.scenario.specs.declared.scenario.KeyItem.{KeyItem};
ghost use Rattle.replay_node.specs.declared.replay.Request.{Request};
ghost use Rattle.node_rounds.specs.Reaction.{NodeState, reaction_of};
ghost use Rattle.stack_vm.specs.declared.meter.MeterRow.{MeterRow};
ghost use Rattle.run_meaning.specs.Counts.{AddsSteps};
ghost use Rattle.run_meaning.specs.Run.{IsRun, Passed, RunState, new_run};
ghost use Rattle.run_meaning.specs.Steps.{steps};
ghost use Rattle.task_orders.specs.Moves.{DoesTask, IsInterleaving, Move};
ghost use Rattle.task_orders.specs.Values.{DifferInOrder, EndsWith, MayChangePlaces};
ghost use Rattle.task_orders.specs.World.{World, run_in};

use can_bus::Bus;
use run_meaning::laws::LiveRunner;

/// Two neighbouring tasks of different nodes may change places: nothing is different then but the order of
/// the two.
pub fn neighbours_change_places<P: LiveRunner, B: Bus>()
    ensures { (first second : ℕ) (before between after : World (NodeState P.Memory) B) → first ≢ second →
        DoesTask (reaction_of P.runner) B.meaning first before between →
        DoesTask (reaction_of P.runner) B.meaning second between after →
        MayChangePlaces (reaction_of P.runner) B.meaning first second before after }
{}

/// Each list of picks gives an interleaving of a run: its steps are those of the run in the order of the
/// picks, and it ends as the run does.
pub fn picks_give_an_interleaving<P: LiveRunner, B: Bus>()
    ensures { (until : ℕ) (before after : RunState (NodeState P.Memory) B) (rounds : List Passed)
        (picks : List ℕ) → IsRun (reaction_of P.runner) B.meaning until before rounds after →
        (moves : List Move) × (end : World (NodeState P.Memory) B)
        × IsInterleaving (reaction_of P.runner) B.meaning until before moves end
        × (end.happened ≡ steps rounds picks) × (run_in end ≡ after) }
{}

/// Each interleaving is that of a list of picks in a run. Each pick is a place among the nodes.
pub fn picks_are_found<P: LiveRunner, B: Bus>()
    ensures { (until : ℕ) (nodes : List (NodeState P.Memory)) (b : B) (keys : List KeyItem)
        (requests : List Request) (moves : List Move) (end : World (NodeState P.Memory) B) →
        IsInterleaving (reaction_of P.runner) B.meaning until (new_run nodes b keys requests) moves end →
        (rounds : List Passed) × (picks : List ℕ)
        × IsRun (reaction_of P.runner) B.meaning until (new_run nodes b keys requests) rounds (run_in end)
        × (end.happened ≡ steps rounds picks) × All (λ pick. pick < length nodes) picks }
{}

/// Each interleaving of a run ends with the values of the run, so all end with the same.
pub fn interleavings_end_alike<P: LiveRunner, B: Bus>()
    ensures { (until : ℕ) (nodes : List (NodeState P.Memory)) (b : B) (keys : List KeyItem)
        (requests : List Request) (rounds : List Passed) (after : RunState (NodeState P.Memory) B)
        (moves : List Move) (end : World (NodeState P.Memory) B) →
        IsRun (reaction_of P.runner) B.meaning until (new_run nodes b keys requests) rounds after →
        IsInterleaving (reaction_of P.runner) B.meaning until (new_run nodes b keys requests) moves end →
        EndsWith rounds after end }
{}

/// Whichever picks are given, the steps of rounds have the same frames, and the same steps of each node.
pub fn picks_change_order_alone()
    ensures { (rounds : List Passed) (picks others : List ℕ) →
        DifferInOrder (steps rounds picks) (steps rounds others) }
{}

/// Whichever picks are given, the steps of rounds leave the rows of a meter the same.
pub fn picks_change_no_meter()
    ensures { (first_rows : List ℕ) (rounds : List Passed) (picks others : List ℕ)
        (before after end : List MeterRow) → AddsSteps first_rows (steps rounds picks) before after →
        AddsSteps first_rows (steps rounds others) before end → after ≡ end }
{}
