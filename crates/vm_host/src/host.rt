// The host of a run.

ghost use Rattle.std.specs.Prelude.{◌≡◌, ◌^◌, ◌<◌, true, false, IsTrue, length, slice_set, slice_index_or, OnOk, OnErr, IsOk, IsErrOf};
ghost use Rattle.run_effects.specs.Effect.{Line, Send, Set, Cancel};
ghost use Rattle.run_effects.specs.Effect as effect;
ghost use Rattle.vm_host.specs.Host.{FaultsRise, HostMeaning, HostStays, TakesUnlessClosed};

use can_frame::Frame;
use texts::NoMemory;

/// Why a line was not recorded.
#[derive(Clone, Copy, Debug, PartialEq, Eq)]
pub enum RecordFault {
    /// What the record writes to failed.
    Sink,
    /// There was no memory.
    NoMemory,
}

impl From<NoMemory> for RecordFault {
    ghost use Rattle.std.specs.Prelude.{◌≡◌};
    ghost use Rattle.vm_host.specs.declared.host.RecordFault.TheVariants.{NoMemory};

    ghost from_gives = { λ _ fault. fault ≡ NoMemory };

    fn from(_: NoMemory) -> RecordFault {
        RecordFault::NoMemory
    }
}

/// What takes the effects of a run, and tells it the moment and its timers.
///
/// A host that is closed, since the measurement has ended, takes lines alone.
pub trait Host {
    /// What its states mean: the active timers, the moment, whether it is closed, the faults, and how
    /// it may stand after it took or refused an effect.
    ghost meaning: { HostMeaning Self };

    /// Takes a line of `write`.
    fn line(&mut self, text: &[u8]) -> Result<(), RecordFault>
        ensures taken { OnOk result (meaning.takes self.old (Line text.now) self.new) }
        ensures refused { OnErr result (meaning.refuses self.old (Line text.now) self.new) }
        ensures sink { IsErrOf result RecordFault.Sink → FaultsRise meaning self.old self.new }
        ensures stays { HostStays meaning self.old self.new }
        ensures timers_stay { meaning.active_timers self.new ≡ meaning.active_timers self.old };

    /// Takes a frame for the bus. A closed host lets it pass.
    fn send(&mut self, f: &Frame) -> Result<(), NoMemory>
        ensures taken { OnOk result (TakesUnlessClosed meaning self.old (Send f.now) self.new) }
        ensures refused { OnErr result (meaning.refuses self.old (Send f.now) self.new) }
        ensures closed_answers { IsTrue (meaning.is_closed self.old) → IsOk result }
        ensures stays { HostStays meaning self.old self.new }
        ensures timers_stay { meaning.active_timers self.new ≡ meaning.active_timers self.old };

    /// Takes the wish to stop the measurement. A closed host lets it pass.
    fn stop(&mut self)
        ensures taken { TakesUnlessClosed meaning self.old effect.Stop self.new }
        ensures stays { HostStays meaning self.old self.new }
        ensures timers_stay { meaning.active_timers self.new ≡ meaning.active_timers self.old };

    /// Sets a timer, in 1 to 2^63 - 1 microseconds, once or again and again. A closed host lets it
    /// pass.
    fn set_timer(&mut self, timer: u32, micros: u64, cyclic: bool)
        requires exists { timer < length (meaning.active_timers self.old) }
        requires later { 0 < micros }
        requires in_range { micros < 2 ^ 63 }
        ensures taken { TakesUnlessClosed meaning self.old (Set timer micros cyclic) self.new }
        ensures activates { meaning.is_closed self.old ≡ false →
            meaning.active_timers self.new ≡ slice_set (meaning.active_timers self.old) timer true }
        ensures stays { HostStays meaning self.old self.new };

    /// Cancels a timer. A closed host lets it pass.
    fn cancel(&mut self, timer: u32)
        requires { timer < length (meaning.active_timers self.old) }
        ensures taken { TakesUnlessClosed meaning self.old (Cancel timer) self.new }
        ensures deactivates { meaning.is_closed self.old ≡ false →
            meaning.active_timers self.new ≡ slice_set (meaning.active_timers self.old) timer false }
        ensures stays { HostStays meaning self.old self.new };

    /// Whether a timer is active.
    fn active(&self, timer: u32) -> bool
        requires { timer < length (meaning.active_timers self.now) }
        ensures { result ≡ slice_index_or (meaning.active_timers self.now) timer false };

    /// The present moment in microseconds.
    fn now(&self) -> u64
        ensures { result ≡ meaning.moment self.now };
}
