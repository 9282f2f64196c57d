// The nodes of a scenario, and the simulation of them.

ghost use Rattle.std.specs.Prelude.{◌≡◌, ◌≤◌, ◌<◌, ◌++◌, [], All, IfOk, OnOk, length, map, replicate};
ghost use Rattle.can_bus.specs.Bus.{new_bus};
ghost use Rattle.can_frame.specs.Frame.{IsFrame};
ghost use Rattle.node_run.specs.Node.{loaded};
ghost use Rattle.node_run.specs.Sound.{IsSound};
ghost use Rattle.scenario.specs.Within.{IsWithin};
ghost use Rattle.sim_core.specs.Core.{IsLoaded, new_core};
ghost use Rattle.sim_run.specs.Inside.Loaded.{AreLoaded, no_run, rows_of_code};
ghost use Rattle.sim_run.specs.Inside.Played.{labels_with};

use bus_heap::HeapBus;
use bytecode::Verified;
use items::Items;
use node_run::Node;
use replay_node::{Replay, Request};
use scenario::{NodeItem, Scenario};
use sim_core::Core;
use sim_play::Labels;
use stack_vm::Meter;
use std::alloc::Global;
use texts::{NoMemory, Text};

/// The nodes that run these codes, in order, each with its rows in the meter behind those of the nodes before
/// it.
pub(crate) fn load_nodes(
    alloc: Global,
    codes: Vec<Verified>,
    turns: u64,
    meter: &mut Meter,
) -> Result<Vec<Node>, NoMemory>
    requires no_rows { meter.old ≡ [] }
    ensures { IfOk result (λ nodes. AreLoaded turns codes.items nodes.items meter.new) }
{
    let mut nodes = Vec::new(alloc);
    for code in codes {
        nodes.push(load_node(alloc, code, turns, meter)?)?;
    }
    Ok(nodes)
}

/// The node that runs this code, with its rows behind those that the meter has.
fn load_node(alloc: Global, code: Verified, turns: u64, meter: &mut Meter) -> Result<Node, NoMemory>
    ensures loaded { IfOk result (λ node. node ≡ loaded code (length meter.old) turns) }
    ensures sound { IfOk result (λ node. IsSound node.doing.node) }
    ensures rows { OnOk result (meter.new ≡ meter.old ++ replicate (rows_of_code code) no_run) }
{
    let handlers = code.code().handlers.len() as u32;
    let first_row = meter.open_rows(handlers)?;
    Node::load(alloc, code, first_row, turns)
}

/// Under which names the nodes of a scenario are shown, which have these files, from the epoch of its replay
/// on.
pub(crate) fn labels_of(
    alloc: Global,
    scenario: &Scenario,
    files: Items<Items<Text>>,
    replay: &Replay,
) -> Result<Labels, NoMemory>
    ensures { IfOk result (λ labels. labels ≡ labels_with scenario.now files replay.now) }
{
    let names = names_of(alloc, &scenario.nodes)?;
    let interface = Text::make(alloc, scenario.interface.bytes())?;
    let second = Text::make(alloc, scenario.interface.bytes())?;
    Ok(Labels {
        names,
        files,
        interface,
        second,
        epoch: replay.epoch,
        skipped: replay.skipped,
    })
}

/// The names of nodes.
fn names_of(alloc: Global, nodes: &[NodeItem]) -> Result<Items<Text>, NoMemory>
    ensures { IfOk result (λ names. names ≡ map (λ node. node.name) nodes.now) }
{
    let mut names = Vec::new(alloc);
    for node in nodes {
        names.push(Text::make(alloc, node.name.bytes())?)?;
    }
    Ok(Items::from_list(names))
}

/// The simulation of these nodes on the bus of a scenario, with its keys, its picks and the requests of its
/// replay.
pub(crate) fn core_of(
    alloc: Global,
    nodes: Vec<Node>,
    scenario: Scenario,
    requests: Items<Request>,
) -> Core<HeapBus>
    requires loaded { All IsLoaded nodes.items }
    requires few { length nodes.items ≤ 64 }
    requires within { IsWithin scenario }
    requires bytes { All (λ key. key.key < 256) scenario.keys.items }
    requires frames { All (λ request. IsFrame request.frame) requests }
    ensures { result ≡ new_core nodes.items (new_bus scenario.bit) scenario.keys.items requests
        scenario.picks.items scenario.until }
{
    let Scenario {
        bit,
        until,
        picks,
        keys,
        ..
    } = scenario;
    let bus = HeapBus::make(alloc, bit);
    Core::make(alloc, nodes, bus, keys, requests.into_list(), picks, until)
}
