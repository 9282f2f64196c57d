// A simulation.

ghost use Rattle.std.specs.Prelude.{◌≡◌, ◌≢◌, ◌<◌, ◌≤◌, ◌^◌, None, length, All, Ok, OnOk, OnErr, IsErrOf};
ghost use Rattle.can_frame.specs.Frame.{FrameFields, IsFrame};
ghost use Rattle.run_records.specs.Record.{RecordFaultsRise};
ghost use Rattle.node_run.specs.Sound.{CanOccur, IsSound};
ghost use Rattle.run_meaning.specs.Live.{Stands};
ghost use Rattle.sim_core.specs.declared.simulation.Phase.TheVariants.{New, Over};
ghost use Rattle.sim_core.specs.declared.simulation.Step.TheVariants.{Went, Ended};
ghost use Rattle.sim_core.specs.Core.{DoesInstant, HasARun, HasNoInstant, HasRun, HaveRows, IsInstantCut, IsLoaded, IsRunCut, new_core, run_of};

use crate::upcoming::Upcoming;
use can_bus::Bus;
use node_run::{Node, TaskFault};
use replay_node::Request;
use run_records::Record;
use scenario::KeyItem;
use stack_vm::Meter;
use std::alloc::Global;
use std::marker::Model;

/// How far a simulation has come.
#[derive(Clone, Copy, Debug, PartialEq, Eq)]
pub enum Phase {
    /// Nothing has happened yet.
    New,
    /// The rounds before the start and of the start are done, and maybe further instants.
    Going,
    /// The run has come to its end, or a fault ended it.
    Over,
}

/// What a call for the next instant did.
#[derive(Clone, Copy, Debug, PartialEq, Eq)]
pub enum Step {
    /// The next instant was done.
    Went,
    /// There is no further instant.
    Ended,
}

/// Nodes that run their code on one bus, with keys, requests of a replay and picks. Contracts see it as a
/// `CoreState`.
#[derive(Drop)]
pub struct Core<B: Bus> {
    pub(crate) alloc: Global,
    pub(crate) nodes: Vec<Node>,
    /// The numbers of the nodes that have a further task in the round, in order. It keeps its room, so no
    /// later round takes memory for it.
    pub(crate) open_ones: Vec<usize>,
    pub(crate) bus: B,
    pub(crate) keys: Upcoming<KeyItem>,
    pub(crate) requests: Upcoming<Request>,
    pub(crate) picks: Upcoming<u32>,
    pub(crate) until: u64,
    pub(crate) moment: u64,
    pub(crate) stops: bool,
    pub(crate) phase: Phase,
}

impl<B: Bus> Model for Core<B> {
    ghost use Rattle.sim_core.specs.Core.{CoreState};
    ghost use Rattle.sim_core.specs.Inside.Kept.{IsCore};

    ghost Value = { CoreState B };

    ghost view = { λ core. record {
      nodes = core.nodes.items;
      bus = core.bus;
      keys = core.keys;
      requests = core.requests;
      picks = core.picks;
      until = core.until;
      moment = core.moment;
      stops = core.stops;
      phase = core.phase;
    } };

    ghost invariant = { λ core. IsCore B.meaning (record {
      nodes = core.nodes.items;
      bus = core.bus;
      keys = core.keys;
      requests = core.requests;
      picks = core.picks;
      until = core.until;
      moment = core.moment;
      stops = core.stops;
      phase = core.phase;
    }) };
}

impl<B: Bus> Core<B> {
    /// A simulation of nodes, which were loaded and have done nothing, on a new bus, with keys and requests
    /// of a replay by moment and picks, up to an end moment of at most 2^63 microseconds. The bus serves one
    /// node more: the replay. Takes no memory.
    pub fn make(
        alloc: Global,
        nodes: Vec<Node>,
        bus: B,
        keys: Vec<KeyItem>,
        replay: Vec<Request>,
        picks: Vec<u32>,
        until: u64,
    ) -> Core<B>
        requires loaded { All IsLoaded nodes.items }
        requires new_bus { B.meaning.next_moment bus ≡ None }
        requires sound_bus { B.meaning.sound bus }
        requires frames { (frame : FrameFields) → B.meaning.carries bus frame → IsFrame frame }
        requires serves { length nodes.items < B.meaning.nodes bus }
        requires few { length nodes.items < 2 ^ 32 }
        requires keys { All (λ key. key.key < 256) keys.items }
        requires replay { All (λ request. IsFrame request.frame) replay.items }
        requires in_time { until ≤ 2 ^ 63 }
        ensures { result ≡ new_core nodes.items bus keys.items replay.items picks.items until }
    {
        Core {
            alloc,
            nodes,
            open_ones: Vec::new(alloc),
            bus,
            keys: Upcoming::all_of(keys),
            requests: Upcoming::all_of(replay),
            picks: Upcoming::all_of(picks),
            until,
            moment: 0,
            stops: false,
            phase: Phase::New,
        }
    }

    /// The nodes, in order.
    pub fn nodes(&self) -> &[Node]
        ensures nodes { result.now ≡ self.now.nodes }
        ensures few { length result.now < 2 ^ 32 }
    {
        self.nodes.as_slice()
    }

    /// A new simulation has a run. The call does nothing: its contract is the law.
    pub fn has_a_run(&self)
        requires is_new { self.now.phase ≡ New }
        ensures { HasARun B.meaning self.now }
    {
        let _ = &self.alloc;
    }

    /// Does the next instant: that of moment 0, or the one at the next moment. Its entries go to the record
    /// as they happen. All that is to come then comes later than its moment: frames that end, timers, keys
    /// and requests of the replay. Ended, and nothing changes, exactly where there is none: a node asked to
    /// stop, or nothing is due up to the end moment.
    ///
    /// # Errors
    ///
    /// The simulation is over. The record has taken the first entries of the instant, and maybe refused the
    /// next one. `Record` comes only where the record's faults rose in this call.
    pub fn step_instant<R: Record>(
        &mut self,
        into: &mut R,
        meter: &mut Meter,
    ) -> Result<Step, TaskFault>
        requires goes { self.old.phase ≢ Over }
        requires rows { HaveRows meter.old self.old.nodes }
        ensures does { result ≡ Ok Went → DoesInstant B.meaning R.meaning
            self.old into.old meter.old self.new into.new meter.new }
        ensures later { result ≡ Ok Went → Stands IsSound CanOccur B.meaning (run_of self.new) }
        ensures none { result ≡ Ok Ended → HasNoInstant B.meaning self.old }
        ensures nothing { result ≡ Ok Ended →
            (self.new ≡ self.old) × (into.new ≡ into.old) × (meter.new ≡ meter.old) }
        ensures cut { OnErr result (IsInstantCut B.meaning R.meaning
            self.old into.old into.new meter.old meter.new) }
        ensures fault { IsErrOf result TaskFault.Record → RecordFaultsRise R.meaning into.old into.new }
        ensures faults_stay { R.meaning.faults into.old ≤ R.meaning.faults into.new }
        ensures over { OnErr result (self.new.phase ≡ Over) }
        ensures rows { OnOk result (HaveRows meter.new self.new.nodes) }
    {
        if self.phase == Phase::New {
            self.begin(into, meter)?;
            return Ok(Step::Went);
        }
        let Some(moment) = self.next_instant() else {
            return Ok(Step::Ended);
        };
        self.do_instant(moment, into, meter)?;
        Ok(Step::Went)
    }

    /// Runs a new simulation: all instants, up to the end moment or to that in which a node asked to stop,
    /// and the round of the stop. The entries go to the record as they happen.
    ///
    /// # Errors
    ///
    /// The record has then taken the first entries of the run, and maybe refused the next one. `Record` comes
    /// only where the record's faults rose in this call.
    pub fn run_until<R: Record>(&mut self, into: &mut R, meter: &mut Meter) -> Result<(), TaskFault>
        requires is_new { self.old.phase ≡ New }
        requires rows { HaveRows meter.old self.old.nodes }
        ensures runs { OnOk result (HasRun B.meaning R.meaning
            self.old into.old meter.old self.new into.new meter.new) }
        ensures cut { OnErr result (IsRunCut B.meaning R.meaning
            self.old into.old into.new meter.old meter.new) }
        ensures fault { IsErrOf result TaskFault.Record → RecordFaultsRise R.meaning into.old into.new }
        ensures faults_stay { R.meaning.faults into.old ≤ R.meaning.faults into.new }
        ensures over { self.new.phase ≡ Over }
    {
        self.begin(into, meter)?;
        while let Some(moment) = self.next_instant() {
            self.do_instant(moment, into, meter)?;
        }
        self.do_stop(into, meter)?;
        Ok(())
    }
}
