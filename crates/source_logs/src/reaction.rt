// How nodes react by their sources.

ghost use Rattle.node_rounds.specs.Reaction.{NodeState};
ghost use Rattle.source_laws.specs.Reaction.{SourceMemory, by_source_reaction};

use replay_laws::laws::Reaction;

/// Nodes with sources.
pub struct SourceReaction;

impl Reaction for SourceReaction {
    ghost Node = { NodeState SourceMemory };

    ghost reacts = { by_source_reaction };
}
