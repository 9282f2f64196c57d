//! The laws of logs and of their replay. Each call does nothing: its contract is the law.

ghost use Rattle.std.specs.Prelude.{◌≡◌, ℕ, ◌^◌, ◌<◌, ◌≤◌, List, All};
ghost use Rattle.can_bus.specs.Bus.{BusState, new_bus, one_channel};
ghost use Rattle.scenario.specs.declared.scenario.Epoch.{Epoch};
ghost use Rattle.scenario.specs.Within.{IsWithin};
ghost use Rattle.scenario.specs.declared.scenario.KeyItem.{KeyItem};
ghost use Rattle.scenario.specs.declared.scenario.Scenario.{Scenario};
ghost use Rattle.log_line.specs.Reading.{IsInterface};
ghost use Rattle.log_line.specs.Written.{IsLoggable};
ghost use Rattle.replay_node.specs.Replay.{IsReplay};
ghost use Rattle.replay_node.specs.Spaced.{IsSpacedLog};
ghost use Rattle.replay_node.specs.declared.replay.Replay.{Replay};
ghost use Rattle.replay_node.specs.declared.replay.Request.{Request};
ghost use Rattle.node_rounds.specs.Reaction.{Reacts};
ghost use Rattle.run_meaning.specs.Run.{IsRun, Passed, RunState, new_run};
ghost use Rattle.run_meaning.specs.Steps.{entries, steps};
ghost use Rattle.replay_laws.specs.Log.{log_of};
ghost use Rattle.replay_laws.specs.Tasks.{AllTasks, AsksLoggable, AsksNothing};

use log_line::laws::{one_reading, read_frames_are_loggable, written_lines_read};

/// How nodes react. A type without a value has the meanings.
pub trait Reaction {
    /// How a node stands.
    ghost Node: { Type 0 };

    /// What nodes do.
    ghost reacts: { Reacts Node };
}

/// The log of a run is well spaced, on the interface of channel 1, for the time of a bit, the seconds at the
/// start and the end moment of the run: whatever the nodes do, whichever keys are pressed and whatever a
/// replay requests, where a log line can carry each frame that is asked for.
pub fn recorded<R: Reaction>()
    ensures { (names : ℕ → List ℕ) (bit epoch until : ℕ) (nodes : List R.Node) (keys : List KeyItem)
        (requests : List Request) (rounds : List Passed) (after : RunState R.Node BusState)
        (picks : List ℕ) →
        IsRun R.reacts one_channel until (new_run nodes (new_bus bit) keys requests) rounds after →
        AllTasks AsksLoggable rounds → All (λ request. IsLoggable request.frame) requests →
        IsSpacedLog (names 1) bit epoch until (log_of names epoch (entries (steps rounds picks))) }
{}

/// A well spaced log is replayed as it is: the run that makes the requests of its replay, and whose nodes ask
/// for no frame and not to stop, has this log, byte for byte.
pub fn reproduced<R: Reaction>()
    ensures { (names : ℕ → List ℕ) (bit epoch until : ℕ) (log : List ℕ) (item : Epoch) (replay : Replay)
        (nodes : List R.Node) (keys : List KeyItem) (rounds : List Passed)
        (after : RunState R.Node BusState) (picks : List ℕ) →
        1 ≤ bit → until < 2 ^ 64 → epoch < 2 ^ 32 → IsInterface (names 1) →
        IsSpacedLog (names 1) bit epoch until log →
        IsReplay log (names 1) bit item replay → replay.epoch ≡ epoch →
        IsRun R.reacts one_channel until (new_run nodes (new_bus bit) keys replay.list) rounds after →
        AllTasks AsksNothing rounds →
        log_of names epoch (entries (steps rounds picks)) ≡ log }
{
    one_reading();
    written_lines_read();
}

/// A log line can carry each frame that a replay asks for.
pub fn replays_can_be_logged()
    ensures { (log interface : List ℕ) (bit : ℕ) (item : Epoch) (replay : Replay) →
        IsReplay log interface bit item replay → All (λ request. IsLoggable request.frame) replay.list }
{
    read_frames_are_loggable();
}

/// What one run records, another reproduces: where the log of a run is replayed, on a bus with the same bits
/// and up to the same end moment, a run whose nodes ask for no frame and not to stop has the same log.
pub fn recorded_and_reproduced<R: Reaction, Q: Reaction>()
    ensures { (names : ℕ → List ℕ) (bit epoch until : ℕ) (item : Epoch) (replay : Replay)
        (nodes : List R.Node) (others : List Q.Node) (keys further : List KeyItem)
        (requests : List Request) (rounds again : List Passed) (after : RunState R.Node BusState)
        (end : RunState Q.Node BusState) (picks others_picks : List ℕ) →
        1 ≤ bit → until < 2 ^ 64 → epoch < 2 ^ 32 → IsInterface (names 1) →
        IsRun R.reacts one_channel until (new_run nodes (new_bus bit) keys requests) rounds after →
        AllTasks AsksLoggable rounds → All (λ request. IsLoggable request.frame) requests →
        IsReplay (log_of names epoch (entries (steps rounds picks))) (names 1) bit item replay →
        replay.epoch ≡ epoch →
        IsRun Q.reacts one_channel until (new_run others (new_bus bit) further replay.list) again end →
        AllTasks AsksNothing again →
        log_of names epoch (entries (steps again others_picks))
        ≡ log_of names epoch (entries (steps rounds picks)) }
{
    recorded::<R>();
    reproduced::<Q>();
}

/// A log line can name the interface of a scenario, and the second at which the replay of its log begins is a
/// number of 32 bits.
pub fn scenarios_can_be_replayed()
    ensures interface { (scenario : Scenario) → IsWithin scenario → IsInterface scenario.interface }
    ensures epoch { (scenario : Scenario) → IsWithin scenario →
        (log interface : List ℕ) (bit : ℕ) (replay : Replay) →
        IsReplay log interface bit scenario.epoch replay → replay.epoch < 2 ^ 32 }
{}
