// Reading all that a simulation reads.

ghost use Rattle.std.specs.Prelude.{◌≡◌, ◌≤◌, ◌⊎◌, List, Some, IfOk, IfSome, IsErrOf, IsOk};
ghost use Rattle.capl_include.specs.Expansion.{Contents};
ghost use Rattle.dbc_reader.specs.declared.message.DbcMessage.{DbcMessage};
ghost use Rattle.replay_node.specs.declared.replay.Replay.{Replay};
ghost use Rattle.scenario.specs.declared.scenario.Scenario.{Scenario};
ghost use Rattle.texts.specs.Fault.{HasRisen};
ghost use Rattle.sim_inputs.specs.Accepted.{AreAccepted, NodeSource};
ghost use Rattle.sim_inputs.specs.Answer.{AreCoded, HaveCodeForEach, IsAnswer, IsPlayable, IsTaken};
ghost use Rattle.scenario.specs.Within.{IsWithin};

use crate::database::read_base;
use crate::nodes::read_nodes;
use crate::replay::read_replay;
use crate::scenario_file::read_scenario;
use bytecode::Verified;
use input_refusals::InputRefusal;
use items::Items;
use replay_node::Replay;
use replay_node::laws::one_replay;
use scenario::Scenario;
use sim_outside::Files;
use std::alloc::Global;
use texts::Text;

/// What a simulation runs on.
#[derive(Debug, Drop)]
pub struct Inputs {
    /// The scenario, which has 1 to 64 nodes.
    pub scenario: Scenario,
    /// The code of each node, in the order of the scenario.
    pub codes: Vec<Verified>,
    /// The names of the files of each node, in the order of the scenario and in program order.
    pub files: Items<Items<Text>>,
    /// The replay of its log, which asks for nothing where it replays none.
    pub replay: Replay,
}

/// Reads the scenario of this name, and then the database, the nodes' sources and the log that it names,
/// which are sought beside it: the sources one after another, in the order of the scenario. Takes time and
/// memory linear in the bytes of the files, a file once for each node that it belongs to, but for what
/// checking the programs takes.
///
/// # Errors
///
/// `Blamed` with the first rule that is broken: F01 and F02 of the scenario, S01 to S12; F01, F02, D01 and
/// D02 of the database; then, node by node, of its source what the expansion of its files breaks, E05 and E06
/// over all files in program order, for each file E03 and E02, E09 to E28, E29 where the cells or the weight
/// of the program exceed 1,000,000, and E29 of the source's own file where the cells or the weights of the
/// programs of all nodes up to this one exceed 4,000,000; then F01, F02 and L01 of the log that is replayed.
/// A blame of a token of a source, or of the place where none begins, has its line and its column. `Failed`
/// comes only where a read failed, and `NoMemory` only where the system gives no memory.
pub fn read_inputs<F: Files>(
    alloc: Global,
    name: &Text,
    files: &mut F,
) -> Result<Inputs, InputRefusal>
    // Where the contents are told, the answer is what they come to.
    ensures told { IfSome (F.held files.old) (λ contents. IsAnswer contents name.now result) }

    // With no broken rule and no fault there are inputs, where there is memory.
    ensures complete { (contents : Contents) → F.held files.old ≡ Some contents →
        (scenario : Scenario) → (base : List DbcMessage) → (sources : List NodeSource) →
        (replay : Replay) → AreAccepted contents name.now scenario base sources replay →
        ¬ HasRisen (F.faults files.old) (F.faults files.new) →
        IsOk result ⊎ (result ≡ Err InputRefusal.NoMemory) }

    // A scenario of 1 to 64 nodes whose numbers are within bounds, for each node a code and the files of a
    // program that it is of, and a replay that can be played, also where the contents are not told.
    ensures taken { IfOk result (λ inputs. IsTaken inputs.scenario) }
    ensures within { IfOk result (λ inputs. IsWithin inputs.scenario) }
    ensures code_for_each { IfOk result HaveCodeForEach }
    ensures coded { IfOk result AreCoded }
    ensures playable { IfOk result (λ inputs. IsPlayable inputs.replay) }
    ensures failed { IsErrOf result InputRefusal.Failed → HasRisen (F.faults files.old) (F.faults files.new) }
    ensures faults_stay { F.faults files.old ≤ F.faults files.new }
    ensures contents_stay { F.held files.new ≡ F.held files.old }
{
    // That this is complete follows from what the parts tell: accepted inputs have no blame.
    one_replay();
    read_in_order(alloc, name, files)
}

/// Reads the scenario of this name, then its database, the sources of its nodes, and the log that it replays.
fn read_in_order<F: Files>(
    alloc: Global,
    name: &Text,
    files: &mut F,
) -> Result<Inputs, InputRefusal>
    ensures told { IfSome (F.held files.old) (λ contents. IsAnswer contents name.now result) }
    ensures taken { IfOk result (λ inputs. IsTaken inputs.scenario) }
    ensures within { IfOk result (λ inputs. IsWithin inputs.scenario) }
    ensures code_for_each { IfOk result HaveCodeForEach }
    ensures coded { IfOk result AreCoded }
    ensures playable { IfOk result (λ inputs. IsPlayable inputs.replay) }
    ensures failed { IsErrOf result InputRefusal.Failed → HasRisen (F.faults files.old) (F.faults files.new) }
    ensures faults_stay { F.faults files.old ≤ F.faults files.new }
    ensures contents_stay { F.held files.new ≡ F.held files.old }
{
    let scenario = read_scenario(alloc, name, files)?;
    let base = read_base(alloc, name, &scenario.database, files)?;
    let nodes = read_nodes(alloc, name, &scenario.nodes, base.as_ref(), files)?;
    let replay = read_replay(alloc, name, &scenario, files)?;
    Ok(Inputs {
        scenario,
        codes: nodes.codes,
        files: nodes.files,
        replay,
    })
}
