//! Laws of the answer. Each call does nothing: its contract is the law.

ghost use Rattle.std.specs.Prelude.{◌≡◌, ◌<◌, ◌≤◌, ◌^◌, List, Option, ℕ, decimal};
ghost use Rattle.sim_run.specs.Answer.{IsAnswer};
ghost use Rattle.sim_run.specs.Command.{IsAsked, IsCommand};
ghost use Rattle.sim_run.specs.Logs.{IsRecorded, IsReplayedBySilent};
ghost use Rattle.sim_run.specs.Orders.{AreAnswered, AreReordered};
ghost use Rattle.sim_run.specs.declared.command.Command.{Command};
ghost use Rattle.sim_play.specs.declared.labels.Show.{Show};
ghost use Rattle.replay_node.specs.declared.replay.Replay.{Replay};
ghost use Rattle.sim_inputs.specs.Accepted.{AreAccepted, NodeSource};
ghost use Rattle.scenario.specs.declared.scenario.Scenario.{Scenario};
ghost use Rattle.dbc_reader.specs.declared.message.DbcMessage.{DbcMessage};
ghost use Rattle.text_parts.specs.Number.{IsNumeral, zero_filled};
ghost use Rattle.stack_vm.specs.declared.meter.MeterRow.{MeterRow};
ghost use Rattle.capl_include.specs.Expansion.{Contents};
ghost use Rattle.sim_run.specs.declared.status.Status.{Status};

use bus_heap::HeapBus;
use replay_laws::laws::{replays_can_be_logged, scenarios_can_be_replayed};
use run_laws::laws::{sources_have_a_run, sources_have_one_run};
use sim_inputs::laws::one_reading;
use source_logs::laws::{silent_sources_reproduce_a_log, sources_log_well_spaced_frames};

/// Words have at most one answer over what the files hold.
pub fn one_answer()
    ensures { (contents : Contents) (words : List (List ℕ)) (status other : Status)
        (bytes more : List ℕ) (rows others : List MeterRow) → IsAnswer contents words status bytes rows →
        IsAnswer contents words other more others → (status ≡ other) × (bytes ≡ more) × (rows ≡ others) }
{
    one_reading();
    sources_have_one_run::<HeapBus>();
}

/// Accepted inputs of which the words ask something have an answer: their sources have a run.
pub fn accepted_inputs_have_an_answer()
    ensures { (contents held : Contents) (words : List (List ℕ)) (what : Option Show) (name : List ℕ)
        (scenario : Scenario) (base : List DbcMessage) (sources : List NodeSource) (replay : Replay) →
        IsAsked contents words what held name → AreAccepted held name scenario base sources replay →
        (bytes : List ℕ) × (rows : List MeterRow) × IsAnswer contents words Status.Done bytes rows }
{
    sources_have_a_run::<HeapBus>();
}

/// What `log` writes of accepted inputs is a log that their bus can have had: the lines of frames of the
/// scenario's interface, none of which overlaps another or the intermission behind it, from the epoch to the
/// end moment.
pub fn logs_are_recorded()
    ensures { (contents : Contents) (words : List (List ℕ)) (name bytes : List ℕ) (rows : List MeterRow) →
        IsCommand words Command.Log name → IsAnswer contents words Status.Done bytes rows →
        IsRecorded contents name bytes }
{
    replays_can_be_logged();
    sources_log_well_spaced_frames();
}

/// A scenario whose nodes are silent reproduces a log that its bus can have had: `log` writes the bytes of
/// the file that it replays.
pub fn logs_are_reproduced()
    ensures { (contents : Contents) (words : List (List ℕ)) (name log bytes : List ℕ)
        (rows : List MeterRow) → IsCommand words Command.Log name → IsReplayedBySilent contents name log →
        IsAnswer contents words Status.Done bytes rows → bytes ≡ log }
{
    one_reading();
    scenarios_can_be_replayed();
    silent_sources_reproduce_a_log();
}

/// Of two scenarios that are the same but for their picks the log is the same, byte for byte, and the
/// profile; each event procedure runs as often and takes as many turns; and in the window, and in a run,
/// nothing but the order of lines of different nodes is different.
pub fn picks_change_order_alone()
    ensures log { (bytes more : List ℕ) (rows counts : List MeterRow) →
        AreAnswered Command.Log bytes more rows counts → more ≡ bytes }
    ensures profile { (bytes more : List ℕ) (rows counts : List MeterRow) →
        AreAnswered Command.Profile bytes more rows counts → more ≡ bytes }
    ensures counts { (command : Command) (bytes more : List ℕ) (rows counts : List MeterRow) →
        AreAnswered command bytes more rows counts → counts ≡ rows }
    ensures window { (bytes more : List ℕ) (rows counts : List MeterRow) →
        AreAnswered Command.Window bytes more rows counts → AreReordered Show.Window bytes more }
    ensures run { (bytes more : List ℕ) (rows counts : List MeterRow) →
        AreAnswered Command.Run bytes more rows counts → AreReordered Show.Both bytes more }
{
    one_reading();
    sources_have_one_run::<HeapBus>();
}

/// What the lines have of a number in decimal digits is a numeral that stands for it.
pub fn numbers_are_numerals()
    ensures { (least number : ℕ) → 1 ≤ least → number < 2 ^ 64 →
        IsNumeral least number (zero_filled least (decimal number)) }
{}
