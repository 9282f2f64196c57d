// The sources of the nodes of a scenario.

ghost use Rattle.std.specs.Prelude.{◌≡◌, ◌≤◌, length, IfOk, IfSome, IsErrOf};
ghost use Rattle.check_names.specs.Names.{messages_of};
ghost use Rattle.texts.specs.Fault.{HasRisen};
ghost use Rattle.input_refusals.specs.Agreement.{Agrees};
ghost use Rattle.sim_inputs.specs.Accepted.{IsNodesBlame};
ghost use Rattle.sim_inputs.specs.Inside.Codes.{AreNodeCodes, AreOfSources};

use crate::rules::TOO_LARGE;
use bytecode::Verified;
use dbc_reader::Database;
use input_refusals::{InputRefusal, blamed_file};
use items::Items;
use scenario::NodeItem;
use sim_outside::{Files, beside};
use source_compiler::read_source;
use std::alloc::Global;
use texts::Text;

/// The most cells, and the greatest weight, of the programs of all nodes together.
const MOST_TOGETHER: u64 = 4_000_000;

/// What is made of the sources of nodes.
#[derive(Drop)]
pub(crate) struct NodeCodes {
    /// The code of each node, in order.
    pub(crate) codes: Vec<Verified>,
    /// The names of the files of each node, in program order.
    pub(crate) files: Items<Items<Text>>,
}

/// The codes of the sources of these nodes and the names of their files, in order, for the scenario of this
/// name and with the messages of its database.
pub(crate) fn read_nodes<F: Files>(
    alloc: Global,
    name: &Text,
    nodes: &[NodeItem],
    base: Option<&Database>,
    files: &mut F,
) -> Result<NodeCodes, InputRefusal>
    ensures told { IfSome (F.held files.old) (λ contents.
        Agrees (λ made. AreNodeCodes contents name.now (messages_of base.entry) nodes.now
        made.codes.items made.files)
        (IsNodesBlame contents name.now (messages_of base.entry) 0 0 nodes.now) result) }
    ensures one_for_each { IfOk result (λ made. length made.codes.items ≡ length nodes.now) }
    ensures coded { IfOk result (λ made. AreOfSources (messages_of base.entry) made.codes.items made.files) }
    ensures failed { IsErrOf result InputRefusal.Failed → HasRisen (F.faults files.old) (F.faults files.new) }
    ensures faults_stay { F.faults files.old ≤ F.faults files.new }
    ensures contents_stay { F.held files.new ≡ F.held files.old }
{
    let mut codes = Vec::new(alloc);
    let mut names = Vec::new(alloc);
    let mut cells = 0u64;
    let mut weights = 0u64;
    for node in nodes {
        let source = beside(alloc, name.bytes(), node.file.bytes())?;
        let compiled = read_source(alloc, &source, base, files)?;
        cells += compiled.cells;
        weights += compiled.weight;
        if cells > MOST_TOGETHER || weights > MOST_TOGETHER {
            return Err(blamed_file(alloc, &source, TOO_LARGE));
        }
        codes.push(compiled.code)?;
        names.push(compiled.files)?;
    }
    Ok(NodeCodes {
        codes,
        files: Items::from_list(names),
    })
}
