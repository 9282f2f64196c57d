//! The laws of the code of sources. Each call does nothing: its contract is the law.

ghost use Rattle.std.specs.Prelude.{◌≡◌, ℕ, Bool, List, [], Some, slice_get};
ghost use Rattle.dbc_reader.specs.declared.message.DbcMessage.{DbcMessage};
ghost use Rattle.capl_tree.specs.declared.file.Program.{Program};
ghost use Rattle.bytecode.specs.declared.code.Code.{Code};
ghost use Rattle.node_rounds.specs.declared.occurrence.Trigger.{Trigger};
ghost use Rattle.node_rounds.specs.Follows.{IsFor, NodesAlike, RunsFollow};
ghost use Rattle.node_rounds.specs.Reaction.{Done, NodeState};
ghost use Rattle.node_run.specs.Code.{by_code};
ghost use Rattle.node_run.specs.Node.{loaded};
ghost use Rattle.capl_meaning.specs.Names.{names_of};
ghost use Rattle.capl_meaning.specs.Store.{This};
ghost use Rattle.capl_meaning.specs.Expression.{Memory};
ghost use Rattle.capl_meaning.specs.Offences.{offences_of};
ghost use Rattle.capl_meaning.specs.Statement.{Handler, handlers_in};
ghost use Rattle.source_laws.specs.Code.{HasSourceTables, IsSourceCode};
ghost use Rattle.source_laws.specs.Ends.{IsHeld, RunsAsSource};
ghost use Rattle.source_laws.specs.Reaction.{HasItsTimers, SourceMemory, by_source, by_source_reaction, first_source_node};
ghost use Rattle.source_laws.specs.Stands.{StandsFor};

/// The code of an accepted source has the source's tables. The machine runs each event procedure as the
/// source means it: from the cells of any event and of any store that their kinds hold, with any active
/// timers and any number of turns, after the measurement has ended or not and at any moment, it ends as the
/// source does, and in no other way.
pub fn compiled_procedures_end_as_in_the_source()
    ensures tables { (base : List DbcMessage) (program : Program) (lines : List (List ℕ)) (code : Code) →
        IsSourceCode base program lines code → HasSourceTables base program lines code }
    ensures runs { (base : List DbcMessage) (program : Program) (lines : List (List ℕ)) (code : Code) →
        IsSourceCode base program lines code →
        (number : ℕ) (handler : Handler) → slice_get (handlers_in base program) number ≡ Some handler →
        (this : This) (closed : Bool) (moment turns : ℕ) (memory : Memory) →
        IsHeld (names_of base program) this memory →
        RunsAsSource code (names_of base program) number handler this closed moment turns memory }
{}

/// Runs of the code of sources follow those of the sources: their procedures react to the same, and where a
/// run of the code for what its procedure reacts to ends, the source's ends alike. So it is from the
/// beginning: a node that is loaded with the code of a source is alike to a node with the source.
pub fn code_follows_its_source()
    ensures follows { RunsFollow StandsFor by_code by_source }
    ensures begins { (base : List DbcMessage) (program : Program) (lines : List (List ℕ)) (code : Code)
        (first_row turns : ℕ) → IsSourceCode base program lines code →
        NodesAlike StandsFor (loaded code first_row turns).doing.node (first_source_node base program turns) }
{}

/// A node with an accepted source does each of its tasks, and in one way: what it does by a trigger for its
/// own procedures is determined, whatever the store holds, whichever frame or key comes and at any moment.
pub fn sources_do_each_task_in_one_way()
    ensures does { (node : NodeState SourceMemory) →
        offences_of node.memory.base node.memory.program ≡ [] → HasItsTimers node →
        (trigger : Trigger) (now : ℕ) → IsFor (by_source_reaction.procedures node) trigger →
        (done : Done (NodeState SourceMemory)) × by_source_reaction.does node trigger now done }
    ensures in_one_way { (node : NodeState SourceMemory) (trigger : Trigger) (now : ℕ)
        (done other : Done (NodeState SourceMemory)) →
        by_source_reaction.does node trigger now done → by_source_reaction.does node trigger now other →
        done ≡ other }
{}
