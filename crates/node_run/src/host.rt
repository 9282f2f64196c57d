// The host of a task, over parts that it borrows.

ghost use Rattle.std.specs.Prelude.{◌≡◌, ◌<◌, ◌≤◌, ◌^◌, false};

use can_bus::Bus;
use can_frame::Frame;
use run_records::Record;
use texts::NoMemory;
use timer_queue::TimerQueue;
use vm_host::{Host, RecordFault};

/// The host of one task of a node: it borrows the bus, the record and the node's timers.
#[derive(Drop)]
pub(crate) struct NodeHost<'a, B: Bus, R: Record> {
    /// The node's number.
    pub(crate) number: u32,
    /// The moment.
    pub(crate) moment: u64,
    /// Whether the measurement has ended, so that lines alone are taken.
    pub(crate) closed: bool,
    /// Whether the task asked to stop the measurement.
    pub(crate) stops: bool,
    /// The bus.
    pub(crate) bus: &'a mut B,
    /// The record.
    pub(crate) into: &'a mut R,
    /// The node's timers.
    pub(crate) timers: &'a mut TimerQueue,
    ghost serves: { number < B.meaning.nodes bus.now },
    ghost in_time: { moment ≤ 2 ^ 63 },
}

impl<'a, B: Bus, R: Record> NodeHost<'a, B, R> {
    /// A host of these parts, which was not asked to stop.
    pub(crate) fn new(
        number: u32,
        moment: u64,
        closed: bool,
        bus: &'a mut B,
        into: &'a mut R,
        timers: &'a mut TimerQueue,
    ) -> NodeHost<'a, B, R>
        requires serves { number < B.meaning.nodes bus.old }
        requires in_time { moment ≤ 2 ^ 63 }
        ensures same_bus { result.bus.ghost_name ≡ bus.entry.ghost_name }
        ensures same_record { result.into.ghost_name ≡ into.entry.ghost_name }
        ensures same_timers { result.timers.ghost_name ≡ timers.entry.ghost_name }
        ensures has_bus { result.bus.now ≡ bus.old }
        ensures has_record { result.into.now ≡ into.old }
        ensures has_timers { result.timers.now ≡ timers.old }
        ensures number { result.number ≡ number }
        ensures moment { result.moment ≡ moment }
        ensures closed { result.closed ≡ closed }
        ensures stops { result.stops ≡ false }
    {
        NodeHost {
            number,
            moment,
            closed,
            stops: false,
            bus,
            into,
            timers,
        }
    }

    /// Whether the task asked to stop.
    pub(crate) fn stops(&self) -> bool
        ensures { result ≡ self.now.stops }
    {
        self.stops
    }
}

impl<'a, B: Bus, R: Record> Host for NodeHost<'a, B, R> {
    ghost use Rattle.std.specs.Prelude.{◌≡◌};
    ghost use Rattle.timer_queue.specs.Timers.{active_timers};
    ghost use Rattle.node_run.specs.Inside.Host.{PartsRefuse, PartsTake, parts};

    ghost meaning = { record {
      active_timers = λ host. active_timers host.timers.now;
      moment = λ host. host.moment;
      is_closed = λ host. host.closed;
      faults = λ host. R.meaning.faults host.into.now;
      takes = λ before effect after. (after.bus.ghost_name ≡ before.bus.ghost_name)
          × (after.into.ghost_name ≡ before.into.ghost_name)
          × (after.timers.ghost_name ≡ before.timers.ghost_name)
          × PartsTake B.meaning.after_request R.meaning
          (parts before.number before.moment before.stops before.bus.now before.into.now before.timers.now)
          effect
          (parts after.number after.moment after.stops after.bus.now after.into.now after.timers.now);
      refuses = λ before effect after. (after.bus.ghost_name ≡ before.bus.ghost_name)
          × (after.into.ghost_name ≡ before.into.ghost_name)
          × (after.timers.ghost_name ≡ before.timers.ghost_name)
          × PartsRefuse R.meaning
          (parts before.number before.moment before.stops before.bus.now before.into.now before.timers.now)
          effect
          (parts after.number after.moment after.stops after.bus.now after.into.now after.timers.now);
    } };

    fn line(&mut self, text: &[u8]) -> Result<(), RecordFault> {
        self.into.line(self.moment, self.number, text)
    }

    fn send(&mut self, f: &Frame) -> Result<(), NoMemory> {
        if self.closed {
            return Ok(());
        }
        self.bus.request(self.number, f)
    }

    fn stop(&mut self) {
        if !self.closed {
            self.stops = true;
        }
    }

    fn set_timer(&mut self, timer: u32, micros: u64, cyclic: bool) {
        if !self.closed {
            self.timers.set(timer, self.moment, micros, cyclic);
        }
    }

    fn cancel(&mut self, timer: u32) {
        if !self.closed {
            self.timers.cancel(timer);
        }
    }

    fn active(&self, timer: u32) -> bool {
        self.timers.active(timer)
    }

    fn now(&self) -> u64 {
        self.moment
    }
}
