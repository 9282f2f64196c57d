// A bus whose transmissions a plan disturbs.

ghost use Rattle.std.specs.Prelude.{◌≡◌, ◌<◌, ◌≤◌, length, slice_index, IfOk};
ghost use Rattle.std.specs.FinSet.{from_list};
ghost use Rattle.channel_errors.specs.Errors.{new_bus, with_errors};

use crate::counts::{is_off, note_disturbed, note_sent};
use crate::plan::Plan;
use bus_heap::HeapBus;
use can_bus::{Bus, Ended};
use can_frame::Frame;
use std::alloc::Global;
use std::marker::Model;
use texts::NoMemory;

/// The bits of an error frame.
const ERROR_FRAME: u8 = 14;

/// The bus with planned errors over a heap of the waiting requests.
///
/// Contracts see it as an `ErrorState`. A request and an arbitration take the time of those of a `HeapBus`,
/// logarithmic in the number of waiting requests, and an arbitration besides in the number of planned
/// numbers; so does `finish`, but for the moment at which a node goes off, where it is linear in the number
/// of waiting requests: once a node at most. Only `make` and `request` take memory.
#[derive(Drop)]
pub struct ErrorBus {
    plain: HeapBus,
    planned: Plan,
    begun: u64,
    counts: Vec<u16>,
}

impl Model for ErrorBus {
    ghost use Rattle.channel_errors.specs.Errors.{ErrorState};
    ghost use Rattle.channel_errors.specs.Codes.{errors_code};

    ghost Value = { ErrorState };

    ghost coded = { errors_code };

    ghost use Rattle.bus_errors.specs.Inside.ErrorBus.{state_of, IsErrorBus};

    ghost view = { state_of };

    ghost invariant = { IsErrorBus };
}

impl ErrorBus {
    /// A bus of so many nodes, a replay source counted in, on which nothing was requested. Its bits take so
    /// many microseconds each, and the transmissions of these numbers, counted from 1, are disturbed.
    pub fn make(alloc: Global, bit: u32, errors: Vec<u32>, nodes: u32) -> Result<ErrorBus, NoMemory>
        requires { 1 ≤ bit }
        ensures { IfOk result (λ bus. bus ≡ new_bus bit (from_list errors.items) nodes) }
    {
        Ok(ErrorBus {
            plain: HeapBus::make(alloc, bit),
            planned: Plan::make(errors),
            begun: 0,
            counts: vec![in alloc; 0; nodes as usize]?,
        })
    }

    /// The node's count of errors. The node is off where it is above 255.
    pub fn count(&self, node: u32) -> u16
        requires { node < length self.now.counts }
        ensures { result ≡ slice_index self.now.counts node }
    {
        self.counts[node as usize]
    }
}

impl Bus for ErrorBus {
    ghost meaning = { with_errors };

    fn request(&mut self, node: u32, f: &Frame) -> Result<(), NoMemory> {
        if is_off(&self.counts, node) {
            return Ok(());
        }
        self.plain.request(node, f)
    }

    fn next_time(&self) -> Option<u64> {
        self.plain.next_time()
    }

    fn finish(&mut self, now: u64) -> Option<Ended> {
        let carried = self.plain.on_wire()?;
        if carried.end != now {
            return None;
        }
        let node = carried.request.node;
        if self.planned.has(self.begun) {
            note_disturbed(&mut self.counts, node);
            self.plain.wait_again();
            if is_off(&self.counts, node) {
                self.plain.drop_waiting(node);
            }
            return None;
        }
        note_sent(&mut self.counts, node);
        self.plain.finish(now)
    }

    fn arbitrate(&mut self, now: u64) {
        let number = self.begun.saturating_add(1);
        let bits = if self.planned.has(number) {
            ERROR_FRAME
        } else {
            0
        };
        if self.plain.arbitrate_longer(now, bits) {
            self.begun = number;
        }
    }

    ghost use Rattle.channel_errors.proofs.RequestsCommute.{RequestsCommute-errors};
    ghost use Rattle.channel_errors.proofs.SoundStays.{SoundStays-errors, NodesStay-errors};
    ghost use Rattle.channel_errors.proofs.FramesCome.{FramesCome-errors};
    ghost use Rattle.channel_errors.proofs.DueLater.{DueLater-errors, DueLaterFromNothing-errors};

    ghost requests_commute = { RequestsCommute-errors };

    ghost sound_stays = { SoundStays-errors };

    ghost nodes_stay = { NodesStay-errors };

    ghost frames_come = { FramesCome-errors };

    ghost due_later = { DueLater-errors };

    ghost due_later_from_nothing = { DueLaterFromNothing-errors };
}
