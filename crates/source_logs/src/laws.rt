//! The laws of the logs of sources. Each call does nothing: its contract is the law.

ghost use Rattle.std.specs.Prelude.{◌≡◌, ℕ, ◌^◌, ◌<◌, ◌≤◌, List, All};
ghost use Rattle.can_bus.specs.Bus.{BusState, new_bus, one_channel};
ghost use Rattle.scenario.specs.declared.scenario.Epoch.{Epoch};
ghost use Rattle.scenario.specs.declared.scenario.KeyItem.{KeyItem};
ghost use Rattle.log_line.specs.Reading.{IsInterface};
ghost use Rattle.log_line.specs.Written.{IsLoggable};
ghost use Rattle.replay_node.specs.Replay.{IsReplay};
ghost use Rattle.replay_node.specs.Spaced.{IsSpacedLog};
ghost use Rattle.replay_node.specs.declared.replay.Replay.{Replay};
ghost use Rattle.replay_node.specs.declared.replay.Request.{Request};
ghost use Rattle.node_rounds.specs.Reaction.{NodeState};
ghost use Rattle.run_meaning.specs.Run.{IsRun, Passed, RunState, new_run};
ghost use Rattle.run_meaning.specs.Steps.{entries, steps};
ghost use Rattle.source_laws.specs.Reaction.{SourceMemory, by_source_reaction};
ghost use Rattle.replay_laws.specs.Log.{log_of};
ghost use Rattle.replay_laws.specs.Tasks.{AllTasks, AsksLoggable, AsksNothing};
ghost use Rattle.source_logs.specs.Silent.{IsSilent};

use crate::SourceReaction;
use replay_laws::laws::{recorded, reproduced};

/// A log line can carry each frame that sources ask for.
pub fn sources_ask_for_what_a_log_can_carry()
    ensures { (until : ℕ) (before after : RunState (NodeState SourceMemory) BusState)
        (rounds : List Passed) →
        IsRun by_source_reaction one_channel until before rounds after → AllTasks AsksLoggable rounds }
{}

/// Sources with no call of `output` and none of `stop` ask for no frame and not to stop.
pub fn silent_sources_ask_for_nothing()
    ensures { (until : ℕ) (before after : RunState (NodeState SourceMemory) BusState)
        (rounds : List Passed) → All (λ node. IsSilent node.memory.program) before.nodes →
        IsRun by_source_reaction one_channel until before rounds after → AllTasks AsksNothing rounds }
{}

/// The log of a run of sources is well spaced, on the interface of channel 1, for the time of a bit, the
/// seconds at the start and the end moment of the run: whichever keys are pressed and whatever a replay
/// requests that a log line can carry.
pub fn sources_log_well_spaced_frames()
    ensures { (names : ℕ → List ℕ) (bit epoch until : ℕ) (nodes : List (NodeState SourceMemory))
        (keys : List KeyItem) (requests : List Request) (rounds : List Passed)
        (after : RunState (NodeState SourceMemory) BusState) (picks : List ℕ) →
        All (λ request. IsLoggable request.frame) requests →
        IsRun by_source_reaction one_channel until (new_run nodes (new_bus bit) keys requests) rounds after →
        IsSpacedLog (names 1) bit epoch until (log_of names epoch (entries (steps rounds picks))) }
{
    sources_ask_for_what_a_log_can_carry();
    recorded::<SourceReaction>();
}

/// Silent sources reproduce a log: where a well spaced log is replayed to nodes whose programs have no call
/// of `output` and none of `stop`, the log of the run is this log, byte for byte.
pub fn silent_sources_reproduce_a_log()
    ensures { (names : ℕ → List ℕ) (bit epoch until : ℕ) (log : List ℕ) (item : Epoch) (replay : Replay)
        (nodes : List (NodeState SourceMemory)) (keys : List KeyItem) (rounds : List Passed)
        (after : RunState (NodeState SourceMemory) BusState) (picks : List ℕ) →
        1 ≤ bit → until < 2 ^ 64 → epoch < 2 ^ 32 → IsInterface (names 1) →
        All (λ node. IsSilent node.memory.program) nodes →
        IsSpacedLog (names 1) bit epoch until log →
        IsReplay log (names 1) bit item replay → replay.epoch ≡ epoch →
        IsRun by_source_reaction one_channel until (new_run nodes (new_bus bit) keys replay.list) rounds
        after →
        log_of names epoch (entries (steps rounds picks)) ≡ log }
{
    silent_sources_ask_for_nothing();
    reproduced::<SourceReaction>();
}
