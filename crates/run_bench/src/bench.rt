// What the tests run nodes on, and the conditions of the calls that they make.

ghost use Rattle.std.specs.Prelude.{◌≡◌, ◌<◌, ◌≤◌, ◌^◌, None, length, replicate, All, IfOk, IsTrue};
ghost use Rattle.can_frame.specs.Frame.{FrameFields, IsFrame};
ghost use Rattle.node_run.specs.Node.{HasRows};
ghost use Rattle.sim_core.specs.Core.{HaveRows, IsLoaded};
ghost use Rattle.sim_core.specs.declared.simulation.Phase.TheVariants.{New};
ghost use Rattle.sim_play.specs.Play.{AreNewRows, StandInOrder};
ghost use Rattle.run_bench.specs.Rows.{one_order};

use arbitration::PlainBus;
use bus_heap::HeapBus;
use bytecode::Verified;
use can_bus::Bus;
use node_run::{Node, Round, Seen};
use run_records::MemRecord;
use scenario::{KeyItem, Scenario};
use sim_core::Core;
use sim_inputs::{Inputs, read_inputs};
use sim_outside::MemFiles;
use stack_vm::Meter;
use std::alloc::Global;
use std::test::Fail;
use texts::Text;

/// The last moment of a run of a test.
const LATEST: u64 = 86_400_000_000;

/// The most nodes of a run of a test.
const MOST_NODES: usize = 64;

/// The nodes of a scenario of a test, and their files.
const NODES: [(&str, &str); 2] = [("A", "a.can"), ("B", "b.can")];

/// What a run takes of a scenario and its sources.
#[derive(Drop)]
pub struct Course {
    pub codes: Vec<Verified>,
    pub keys: Vec<KeyItem>,
    pub picks: Vec<u32>,
    pub bit: u32,
    pub turns: u64,
    pub until: u64,
    ghost takes_time: { 1 ≤ bit },
    ghost in_time: { until ≤ 2 ^ 63 },
    ghost in_range: { All (λ key. key.key < 127) keys.items },
}

/// A scenario of so many of the nodes, with these further items.
fn scenario_of(alloc: Global, items: &str, count: usize) -> Result<String, Fail> {
    let mut scenario = String::from_str(alloc, "scenario 1\n")?;
    for (name, file) in NODES.iter().take(count) {
        scenario.push_str(&format!(in alloc; "node {name} {file}\n")?)?;
    }
    scenario.push_str(items)?;
    Ok(scenario)
}

/// A file of this name.
fn file_of(alloc: Global, name: &str, text: &str) -> Result<(Text, Vec<u8>), Fail> {
    let name = Text::make(alloc, name.as_bytes())?;
    Ok((name, text.as_bytes().to_vec(alloc)?))
}

/// The files of a scenario of the nodes A and B, or of A alone, with these further items, and of their
/// sources.
fn files(alloc: Global, items: &str, sources: &[&str]) -> Result<MemFiles, Fail> {
    let scenario = scenario_of(alloc, items, sources.len())?;
    let mut held = Vec::new(alloc);
    held.push(file_of(alloc, "s.scn", &scenario)?)?;
    for ((_, file), source) in NODES.iter().zip(sources) {
        held.push(file_of(alloc, file, source)?)?;
    }
    Ok(MemFiles::new(held, Vec::new(alloc)))
}

/// Whether each of these keys can be pressed.
fn are_keys(keys: &[KeyItem]) -> bool
    ensures { IsTrue result → All (λ key. key.key < 127) keys.now }
{
    keys.iter().all(|key| key.key < 127)
}

/// What a run takes of these inputs.
fn course_of(inputs: Inputs) -> Result<Course, Fail> {
    let Inputs {
        scenario,
        codes,
        ..
    } = inputs;
    let Scenario {
        keys,
        picks,
        bit,
        turns,
        until,
        ..
    } = scenario;
    if bit == 0 || until > LATEST || !are_keys(&keys) {
        return Err("no time, too late, or no key".into());
    }
    Ok(Course {
        codes,
        keys,
        picks,
        bit,
        turns,
        until,
    })
}

/// What a run takes of a scenario of the nodes A and B, or of A alone, with these further items, and of their
/// sources.
fn read_course(alloc: Global, items: &str, sources: &[&str]) -> Result<Course, Fail> {
    let mut files = files(alloc, items, sources)?;
    let name = Text::make(alloc, b"s.scn")?;
    course_of(read_inputs(alloc, &name, &mut files)?)
}

/// Nodes of these codes, and a meter with their rows, one behind the other.
fn load_nodes(alloc: Global, codes: Vec<Verified>, turns: u64) -> Result<(Vec<Node>, Meter), Fail>
    ensures loaded { IfOk result (λ made. All IsLoaded made.0.items) }
    ensures rows { IfOk result (λ made. AreNewRows made.0.items made.1) }
{
    let mut nodes = Vec::new(alloc);
    let mut meter = Meter::new(alloc);
    for code in codes {
        let handlers = u32::try_from(code.code().handlers.len())?;
        let first_row = meter.open_rows(handlers)?;
        nodes.push(Node::load(alloc, code, first_row, turns)?)?;
    }
    Ok((nodes, meter))
}

/// A simulation of which nothing has happened yet, and a meter with the rows of its nodes.
#[derive(Drop)]
pub struct Start<B: Bus> {
    pub core: Core<B>,
    pub meter: Meter,
    ghost is_new: { core.phase ≡ New },
    ghost in_order: { StandInOrder 0 core.nodes (length meter) } by { one_order 0 core.nodes (length meter) },
    ghost zeros: { meter ≡ replicate (length meter) (record { runs = 0; turns = 0 }) },
    ghost rows: { HaveRows meter core.nodes },
}

/// The start of a run on this bus.
fn start_on<B: Bus + Drop>(alloc: Global, course: Course, bus: B) -> Result<Start<B>, Fail>
    requires new_bus { B.meaning.next_moment bus ≡ None }
    requires sound_bus { B.meaning.sound bus }
    requires frames { (frame : FrameFields) → B.meaning.carries bus frame → IsFrame frame }
    requires serves { MOST_NODES < B.meaning.nodes bus }
{
    let Course {
        codes,
        keys,
        picks,
        turns,
        until,
        ..
    } = course;
    let (nodes, meter) = load_nodes(alloc, codes, turns)?;
    if nodes.len() > MOST_NODES {
        return Err("too many nodes".into());
    }
    let core = Core::make(alloc, nodes, bus, keys, Vec::new(alloc), picks, until);
    Ok(Start { core, meter })
}

/// The start of a run of what a scenario and its sources give.
pub fn start_of(alloc: Global, course: Course) -> Result<Start<PlainBus>, Fail> {
    let bus = PlainBus::make(alloc, course.bit);
    start_on(alloc, course, bus)
}

/// The start of a run of these sources, by a scenario with these items.
pub fn plain_start(alloc: Global, items: &str, sources: &[&str]) -> Result<Start<PlainBus>, Fail> {
    start_of(alloc, read_course(alloc, items, sources)?)
}

/// The same start, on a bus that keeps its requests in a heap.
pub fn heap_start(alloc: Global, items: &str, sources: &[&str]) -> Result<Start<HeapBus>, Fail> {
    let course = read_course(alloc, items, sources)?;
    let bus = HeapBus::make(alloc, course.bit);
    start_on(alloc, course, bus)
}

/// A node with its rows, the bus on which it stands, and what it leaves behind.
#[derive(Drop)]
pub struct Bench {
    pub node: Node,
    pub bus: PlainBus,
    pub into: MemRecord,
    pub meter: Meter,
    ghost rows: { HasRows meter node },
}

/// The code of this source.
fn code_of(alloc: Global, source: &str) -> Result<Verified, Fail> {
    let mut course = read_course(alloc, "", &[source])?;
    Ok(course.codes.pop().ok_or("no code")?)
}

impl Bench {
    /// A node of this source, as it is loaded, where each task has so many turns. A bit takes 2 microseconds.
    pub fn make(alloc: Global, source: &str, turns: u64) -> Result<Bench, Fail> {
        let code = code_of(alloc, source)?;
        let handlers = u32::try_from(code.code().handlers.len())?;
        let mut meter = Meter::new(alloc);
        let first_row = meter.open_rows(handlers)?;
        Ok(Bench {
            node: Node::load(alloc, code, first_row, turns)?,
            bus: PlainBus::make(alloc, 2),
            into: MemRecord::new(alloc),
            meter,
        })
    }

    /// Begins a round, where none of the one before is left to do.
    pub fn begin(
        &mut self,
        round: Round,
        now: u32,
        seen: Option<Seen>,
        keys: &[u8],
    ) -> Result<(), Fail> {
        if self.node.has_task() {
            return Err("a task is left".into());
        }
        self.node.begin(round, u64::from(now), seen, keys)?;
        Ok(())
    }

    /// Does the next task, where there is one, and tells whether it asked to stop.
    pub fn step(&mut self) -> Result<Option<bool>, Fail> {
        if !self.node.has_task() {
            return Ok(None);
        }
        let end = self
            .node
            .do_task(0, &mut self.bus, &mut self.into, &mut self.meter)?;
        Ok(Some(end.stop))
    }
}
