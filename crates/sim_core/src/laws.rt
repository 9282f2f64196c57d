//! Laws of simulations that were run. Each call does nothing: its contract is the law.

ghost use Rattle.std.specs.Prelude.{◌≢◌, List, ℕ};
ghost use Rattle.stack_vm.specs.declared.meter.MeterRow.{MeterRow};
ghost use Rattle.node_rounds.specs.Reaction.{NodeState};
ghost use Rattle.node_run.specs.Code.{CodeMemory, code_reaction};
ghost use Rattle.task_orders.specs.Moves.{DoesTask, IsInterleaving, Move};
ghost use Rattle.task_orders.specs.Values.{EndsWith, MayChangePlaces};
ghost use Rattle.task_orders.specs.World.{World};
ghost use Rattle.sim_core.specs.Core.{CoreState, HasRun, run_of};
ghost use Rattle.sim_core.specs.Orders.{AreRunAlike, HasPicks, IsInterleaved};
ghost use Rattle.sim_core.specs.Result.{IsSameResult};

use can_bus::Bus;
use run_records::Record;

/// Two neighbouring tasks of different nodes may change places: nothing is different then but the order of
/// the two.
pub fn neighbours_change_places<B: Bus>()
    ensures { (first second : ℕ) (before between after : World (NodeState CodeMemory) B) → first ≢ second →
        DoesTask code_reaction B.meaning first before between →
        DoesTask code_reaction B.meaning second between after →
        MayChangePlaces code_reaction B.meaning first second before after }
{}

/// Each interleaving of a simulation that was run comes to the same: its nodes and its bus stand at the end
/// as those of the run, the same frames ended, and each node did what it did in the run, in order. And it is
/// that of some picks, each of which is a place among the nodes.
pub fn interleavings_end_alike<B: Bus, R: Record>()
    ensures ends { (before after : CoreState B) (into into_after : R) (meter meter_after : List MeterRow)
        (moves : List Move) (end : World (NodeState CodeMemory) B) →
        (run : HasRun B.meaning R.meaning before into meter after into_after meter_after) →
        IsInterleaving code_reaction B.meaning before.until (run_of before) moves end →
        EndsWith run.rounds run.end end }
    ensures picks { (before after : CoreState B) (into into_after : R) (meter meter_after : List MeterRow)
        (moves : List Move) (end : World (NodeState CodeMemory) B) →
        (run : HasRun B.meaning R.meaning before into meter after into_after meter_after) →
        IsInterleaving code_reaction B.meaning before.until (run_of before) moves end →
        HasPicks before.nodes run.rounds end }
{}

/// The picks of a simulation choose an interleaving of its run.
pub fn picks_choose_an_interleaving<B: Bus, R: Record>()
    ensures { (before after : CoreState B) (into into_after : R) (meter meter_after : List MeterRow) →
        HasRun B.meaning R.meaning before into meter after into_after meter_after →
        IsInterleaved B.meaning R.meaning before into meter after into_after meter_after }
{}

/// Under other picks a simulation comes to the same, but for the order of the lines of different nodes. What
/// its records had taken before may be different.
pub fn picks_change_order_alone<B: Bus, R: Record>()
    ensures { (before after end : CoreState B) (picks : List ℕ) (into into_after others others_after : R)
        (meter meter_after meter_end : List MeterRow) →
        HasRun B.meaning R.meaning before into meter after into_after meter_after →
        HasRun B.meaning R.meaning (record before { picks = picks }) others meter end others_after meter_end →
        AreRunAlike R.meaning after end into into_after others others_after meter_after meter_end }
{}

/// A simulation has one result, whichever of the buses that mean the same it runs on: where two of equal
/// nodes, keys, requests, picks and end moments were run, they left the same entries and rows, and their
/// nodes stand alike. The bus over a list and the one over a heap mean the same: a bus of one channel.
pub fn one_result<B: Bus, R: Record>()
    ensures { (before after other : CoreState B) (into into_after into_other : R)
        (meter meter_after meter_other : List MeterRow) →
        HasRun B.meaning R.meaning before into meter after into_after meter_after →
        HasRun B.meaning R.meaning before into meter other into_other meter_other →
        IsSameResult R.meaning into after other into_after into_other meter_after meter_other }
{}
