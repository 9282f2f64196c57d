// The code of sources beside the sources.

ghost use Rattle.node_run.specs.Code.{CodeMemory, by_code};
ghost use Rattle.source_laws.specs.Reaction.{SourceMemory, by_source};
ghost use Rattle.source_laws.specs.Stands.{StandsFor};
ghost use Rattle.source_laws.proofs.Following.{runs_follow};

use node_rounds::laws::RunnerPair;

/// Runs of the code of sources, and those of the sources, which they follow.
pub struct CodeAndSource;

impl RunnerPair for CodeAndSource {
    ghost First = { CodeMemory };

    ghost Second = { SourceMemory };

    ghost first = { by_code };

    ghost second = { by_source };

    ghost related = { StandsFor };

    ghost follows = { runs_follow };
}
