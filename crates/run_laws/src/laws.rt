//! The laws of runs of sources. Each call does nothing: its contract is the law.

ghost use Rattle.std.specs.Prelude.{◌≡◌, ℕ, List, [], None, All};
ghost use Rattle.std.specs.List.{AllZip};
ghost use Rattle.dbc_reader.specs.declared.message.DbcMessage.{DbcMessage};
ghost use Rattle.capl_tree.specs.declared.file.Program.{Program};
ghost use Rattle.scenario.specs.declared.scenario.KeyItem.{KeyItem};
ghost use Rattle.replay_node.specs.declared.replay.Request.{Request};
ghost use Rattle.node_rounds.specs.Follows.{NodesAlike};
ghost use Rattle.node_rounds.specs.Reaction.{NodeState};
ghost use Rattle.node_run.specs.Code.{CodeMemory, code_reaction};
ghost use Rattle.node_run.specs.Node.{NodeInRound};
ghost use Rattle.capl_meaning.specs.Offences.{offences_of};
ghost use Rattle.run_meaning.specs.Run.{IsRun, Passed, RunState, new_run, with_nodes};
ghost use Rattle.source_laws.specs.Reaction.{SourceMemory, by_source_reaction};
ghost use Rattle.source_laws.specs.Stands.{StandsFor};
ghost use Rattle.run_laws.specs.Nodes.{AreLoadedFor, states_of};
ghost use Rattle.run_laws.specs.Sources.{first_source_nodes};

use crate::{CodeAndSource, Sources};
use can_bus::Bus;
use run_meaning::laws::{each_run, equal_runs, one_run};

/// The run of nodes that are loaded with the code of their sources is the run of the sources: on any bus,
/// with the same keys and the same requests of a replay, it has the rounds of a run of nodes with the
/// sources, and of no other, and so the same entries and counts. At its end each node stands for one of
/// these, with the store laid out in its cells, and all else is the same.
pub fn runs_of_code_are_runs_of_sources<B: Bus>()
    ensures is_a_run { (base : List DbcMessage) (turns : ℕ) (programs : List Program)
        (nodes : List NodeInRound) → AreLoadedFor base turns programs nodes →
        (until : ℕ) (b : B) (keys : List KeyItem) (requests : List Request)
        (rounds : List Passed) (after : RunState (NodeState CodeMemory) B) →
        IsRun code_reaction B.meaning until (new_run (states_of nodes) b keys requests) rounds after →
        (end : List (NodeState SourceMemory))
        × IsRun by_source_reaction B.meaning until
        (new_run (first_source_nodes base turns programs) b keys requests) rounds (with_nodes after end)
        × AllZip (NodesAlike StandsFor) after.nodes end }
    ensures is_each_run { (base : List DbcMessage) (turns : ℕ) (programs : List Program)
        (nodes : List NodeInRound) → AreLoadedFor base turns programs nodes →
        (until : ℕ) (b : B) (keys : List KeyItem) (requests : List Request)
        (rounds others : List Passed) (after : RunState (NodeState CodeMemory) B)
        (end : RunState (NodeState SourceMemory) B) →
        IsRun code_reaction B.meaning until (new_run (states_of nodes) b keys requests) rounds after →
        IsRun by_source_reaction B.meaning until
        (new_run (first_source_nodes base turns programs) b keys requests) others end →
        (rounds ≡ others) × (end ≡ with_nodes after end.nodes)
        × AllZip (NodesAlike StandsFor) after.nodes end.nodes }
{
    equal_runs::<CodeAndSource, B>();
    one_run::<Sources, B>();
}

/// Sources have one run at most: where two runs begin alike, their rounds are equal, and so is how they stand
/// at their ends.
pub fn sources_have_one_run<B: Bus>()
    ensures { (until : ℕ) (before after end : RunState (NodeState SourceMemory) B)
        (rounds others : List Passed) →
        IsRun by_source_reaction B.meaning until before rounds after →
        IsRun by_source_reaction B.meaning until before others end →
        (rounds ≡ others) × (after ≡ end) }
{
    one_run::<Sources, B>();
}

/// Sources have a run: whichever keys are pressed and whatever a replay requests, nodes with accepted sources
/// come from a new bus to the end moment, or to the instant in which one asks to stop.
pub fn sources_have_a_run<B: Bus>()
    ensures { (base : List DbcMessage) (turns : ℕ) (programs : List Program) →
        All (λ program. offences_of base program ≡ []) programs →
        (until : ℕ) (b : B) (keys : List KeyItem) (requests : List Request) →
        B.meaning.sound b → B.meaning.next_moment b ≡ None →
        (rounds : List Passed) × (after : RunState (NodeState SourceMemory) B)
        × IsRun by_source_reaction B.meaning until
        (new_run (first_source_nodes base turns programs) b keys requests) rounds after }
{
    each_run::<Sources, B>();
}
