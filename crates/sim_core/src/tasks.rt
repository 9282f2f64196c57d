// The tasks of the nodes in a round.

ghost use Rattle.std.specs.Prelude.{◌≡◌, ◌<◌, ◌≤◌, ◌^◌, ◌%◌, if◌then◌else◌, [], length, None, All, IfOk, IfSome, OnOk, OnErr, IsErrOf};
ghost use Rattle.std.specs.List.{AllByRecursion, remove};
ghost use Rattle.run_records.specs.Record.{RecordFaultsRise};
ghost use Rattle.run_meaning.specs.Steps.{next_pick};
ghost use Rattle.run_meaning.specs.Run.{seen_by};
ghost use Rattle.sim_core.specs.Core.{HaveRows, KeepsNodes};
ghost use Rattle.sim_core.specs.Inside.Kept.{IsIdle};
ghost use Rattle.sim_core.specs.Inside.Tasks.{AreTasksCut, DoTasks, DoesOne, IsOneCut, IsOpen, IsOwn, begun_nodes, has_next, open_nodes};

use crate::upcoming::Upcoming;
use can_bus::{Bus, Ended};
use node_run::{Node, Round, Seen, TaskFault};
use run_records::Record;
use stack_vm::Meter;
use texts::NoMemory;

/// The frame that ended, as the node of a number sees it.
fn seen_by(number: u32, ended: &Option<Ended>) -> Option<Seen>
    ensures { result ≡ seen_by number ended.now }
{
    match ended {
        Some(ended) => Some(Seen {
            frame: ended.frame,
            sent: ended.node == number,
        }),
        None => None,
    }
}

/// Begins a round of all nodes.
pub(crate) fn begin_all(
    nodes: &mut [Node],
    round: Round,
    now: u64,
    ended: &Option<Ended>,
    keys: &[u8],
) -> Result<(), NoMemory>
    requires few { length nodes.old < 2 ^ 32 }
    requires idle { All IsIdle nodes.old }
    requires in_time { now ≤ 2 ^ 63 }
    ensures begun { OnOk result (nodes.new ≡ begun_nodes round now ended.now keys.now 0 nodes.old) }
    ensures keeps { KeepsNodes nodes.old nodes.new }
{
    for number in 0..nodes.len() {
        let seen = seen_by(number as u32, ended);
        nodes[number].begin(round, now, seen, keys)?;
    }
    Ok(())
}

/// Lists the numbers of the nodes that have a further task, in order, in place of what the list had: each
/// node is asked once. Takes memory only where the list has no room for them.
pub(crate) fn list_open(nodes: &[Node], open_ones: &mut Vec<usize>) -> Result<(), NoMemory>
    ensures { OnOk result (open_ones.new.items ≡ open_nodes 0 nodes.now) }
{
    open_ones.clear();
    for (number, node) in nodes.iter().enumerate() {
        if node.has_task() {
            open_ones.push(number)?;
        }
    }
    Ok(())
}

/// The place of the node whose task a pick names, in the list of those that have a further task: the pick
/// modulo their number. None where there is none.
fn next_place(open_ones: &[usize], pick: u32) -> Option<usize>
    ensures some { IfSome result (λ place. place ≡ pick % length open_ones.now) }
    ensures within { IfSome result (λ place. place < length open_ones.now) }
    ensures none { result ≡ None → open_ones.now ≡ [] }
{
    if open_ones.is_empty() {
        return None;
    }
    Some(pick as usize % open_ones.len())
}

/// Takes the node at a place out of the list where it has no further task. The others keep their order. Takes
/// time linear in the list.
fn leave_if_done(open_ones: &mut Vec<usize>, place: usize, node: &Node)
    requires within { place < length open_ones.old.items }
    ensures { open_ones.new.items ≡
        (if has_next node.now then open_ones.old.items else remove open_ones.old.items place) }
{
    if !node.has_task() {
        open_ones.remove(place);
    }
}

/// The pick that comes next: 0 where none is left.
fn next_pick(picks: &[u32]) -> u32
    ensures { result ≡ next_pick picks.now }
{
    match picks.first() {
        Some(pick) => *pick,
        None => 0,
    }
}

/// Does the next task of the node of a number, and answers whether it asked to stop.
fn do_task_of<B: Bus, R: Record>(
    nodes: &mut [Node],
    number: usize,
    bus: &mut B,
    into: &mut R,
    meter: &mut Meter,
) -> Result<bool, TaskFault>
    requires within { number < length nodes.old }
    requires has_task { IsOpen nodes.old number }
    requires rows { HaveRows meter.old nodes.old }
    requires serves { length nodes.old < B.meaning.nodes bus.old }
    requires few { length nodes.old < 2 ^ 32 }
    ensures does { IfOk result (λ stop. DoesOne B.meaning.after_request R.meaning number
        nodes.old bus.old into.old meter.old stop nodes.new bus.new into.new meter.new) }
    ensures cut { OnErr result (IsOneCut R.meaning number
        nodes.old into.old into.new meter.old meter.new) }
    ensures fault { IsErrOf result TaskFault.Record → RecordFaultsRise R.meaning into.old into.new }
    ensures faults_stay { R.meaning.faults into.old ≤ R.meaning.faults into.new }
    ensures keeps { KeepsNodes nodes.old nodes.new }
    ensures as_many_rows { length meter.new ≡ length meter.old }
{
    let end = nodes[number].do_task(number as u32, bus, into, meter)?;
    Ok(end.stop)
}

/// Does all tasks of the round that the nodes began, in the order of the picks, and answers whether one asked
/// to stop. The list has the nodes that have a further task, and is empty at the end.
///
/// A node leaves the list after the task that was its last, so beside what it takes itself a task takes time
/// linear in the nodes that have a further one: at most all, 64 in a scenario. The others are not looked at.
///
/// Each task takes a known trigger or a due timer away, and sets timers for later moments alone.
pub(crate) fn do_tasks<B: Bus, R: Record>(
    nodes: &mut [Node],
    open_ones: &mut Vec<usize>,
    now: u64,
    bus: &mut B,
    picks: &mut Upcoming<u32>,
    into: &mut R,
    meter: &mut Meter,
) -> Result<bool, TaskFault>
    requires own { AllByRecursion (IsOwn now) nodes.old }
    requires listed { open_ones.old.items ≡ open_nodes 0 nodes.old }
    requires rows { HaveRows meter.old nodes.old }
    requires serves { length nodes.old < B.meaning.nodes bus.old }
    requires few { length nodes.old < 2 ^ 32 }
    ensures tasks { IfOk result (λ stops. DoTasks B.meaning.after_request R.meaning now
        nodes.old bus.old picks.old into.old meter.old stops nodes.new bus.new picks.new into.new meter.new) }
    ensures idle { OnOk result (All IsIdle nodes.new) }
    ensures cut { OnErr result (AreTasksCut R.meaning now
        nodes.old picks.old into.old into.new meter.old meter.new) }
    ensures fault { IsErrOf result TaskFault.Record → RecordFaultsRise R.meaning into.old into.new }
    ensures faults_stay { R.meaning.faults into.old ≤ R.meaning.faults into.new }
    ensures keeps { KeepsNodes nodes.old nodes.new }
    ensures nodes_stay { OnOk result (B.meaning.nodes bus.new ≡ B.meaning.nodes bus.old) }
    ensures as_many_rows { length meter.new ≡ length meter.old }
{
    let mut stops = false;
    while let Some(place) = next_place(open_ones, next_pick(picks.as_slice())) {
        let number = open_ones[place];
        let asks = do_task_of(nodes, number, bus, into, meter)?;
        leave_if_done(open_ones, place, &nodes[number]);
        picks.pass();
        stops |= asks;
    }
    Ok(stops)
}
