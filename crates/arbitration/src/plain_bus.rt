// A bus that keeps its requests in a list.

ghost use Rattle.std.specs.Prelude.{◌≡◌, ◌≤◌, if◌then◌else◌, length, insert, Some, OnOk, OnErr, is_ok};
ghost use Rattle.std.specs.Ordering.{nat_cmp};
ghost use Rattle.std.specs.BTreeMap.{Updates};
ghost use Rattle.can_bus.specs.Bus.{new_bus, is_free, one_channel};

use crate::places::{place_behind, winner_place};
use crate::ranks::{following_number, set_ranks};
use can_bus::{
    Bus, Ended, Transmission, Waiting, intermission, time_on_wire, transmission_with_rank,
};
use can_frame::Frame;
use std::alloc::Global;
use std::collections::BTreeMap;
use std::marker::Model;
use texts::NoMemory;

/// The bus over a list of the waiting requests, by node and then by number.
///
/// Contracts see it as a `BusState`. A call takes time linear in the number of waiting requests,
/// and a request time logarithmic in the number of nodes that made one.
#[derive(Drop)]
pub struct PlainBus {
    waiting: Vec<Waiting>,
    wire: Option<Transmission>,
    free: u64,
    next: BTreeMap<u32, u64>,
    bit: u32,
}

impl Model for PlainBus {
    ghost use Rattle.can_bus.specs.Bus.{BusState};
    ghost use Rattle.can_bus.specs.Codes.{bus_code};

    ghost Value = { BusState };

    ghost coded = { bus_code };

    ghost use Rattle.arbitration.specs.Inside.PlainBus.{state_of, IsPlainBus};

    ghost view = { state_of };

    ghost invariant = { IsPlainBus };
}

impl PlainBus {
    /// A bus on which nothing was requested, whose bits take so many microseconds each.
    pub fn make(alloc: Global, bit: u32) -> PlainBus
        requires { 1 ≤ bit }
        ensures { result ≡ new_bus bit }
    {
        PlainBus {
            waiting: Vec::new(alloc),
            wire: None,
            free: 0,
            next: BTreeMap::new(alloc),
            bit,
        }
    }

    /// Whether the wire is empty and the bus is free.
    fn is_free(&self, now: u64) -> bool
        ensures { result ≡ is_free self.now now }
    {
        self.wire.is_none() && self.free <= now
    }
}

impl Bus for PlainBus {
    ghost meaning = { one_channel };

    fn request(&mut self, node: u32, f: &Frame) -> Result<(), NoMemory> {
        let number = self.next.get(&node).copied().unwrap_or(0);
        let place = place_behind(&self.waiting, node);
        let following = following_number(&self.waiting, &self.wire, node, number);
        let request = Waiting {
            node,
            number,
            frame: *f,
        };
        add(&mut self.waiting, &mut self.next, place, request, following)?;
        if number == u64::MAX {
            let wire = transmission_with_rank(&self.waiting, &self.wire, node);
            set_ranks(&mut self.waiting, &self.wire, node);
            self.wire = wire;
        }
        Ok(())
    }

    fn next_time(&self) -> Option<u64> {
        if let Some(carried) = &self.wire {
            return Some(carried.end);
        }
        if self.waiting.is_empty() {
            return None;
        }
        Some(self.free)
    }

    fn finish(&mut self, now: u64) -> Option<Ended> {
        let ended = match &self.wire {
            Some(carried) if carried.end == now => Ended {
                node: carried.request.node,
                frame: carried.request.frame,
            },
            _ => return None,
        };
        self.wire = None;
        Some(ended)
    }

    fn arbitrate(&mut self, now: u64) {
        if !self.is_free(now) {
            return;
        }
        let Some(place) = winner_place(&self.waiting) else {
            return;
        };
        let request = self.waiting.remove(place);
        let end = now + time_on_wire(&request.frame, self.bit);
        self.wire = Some(Transmission { request, end });
        self.free = end + intermission(self.bit);
    }

    ghost use Rattle.can_bus.proofs.RequestsCommute.{RequestsCommute-bus};
    ghost use Rattle.can_bus.proofs.SoundStays.{SoundStays-bus, NodesStay-bus};
    ghost use Rattle.can_bus.proofs.FramesCome.{FramesCome-bus};
    ghost use Rattle.can_bus.proofs.DueLater.{DueLater-bus, DueLaterFromNothing-bus};

    ghost requests_commute = { RequestsCommute-bus };

    ghost sound_stays = { SoundStays-bus };

    ghost nodes_stay = { NodesStay-bus };

    ghost frames_come = { FramesCome-bus };

    ghost due_later = { DueLater-bus };

    ghost due_later_from_nothing = { DueLaterFromNothing-bus };
}

/// Adds the request at the place, and notes the number of its node's next one. Where there is no
/// memory, nothing changes.
fn add(
    waiting: &mut Vec<Waiting>,
    next: &mut BTreeMap<u32, u64>,
    place: usize,
    request: Waiting,
    following: u64,
) -> Result<(), NoMemory>
    requires { place ≤ length waiting.old.items }
    ensures waiting { waiting.new.items
        ≡ (if is_ok result then insert waiting.old.items place request else waiting.old.items) }
    ensures next { OnOk result (Updates nat_cmp next.old next.new request.node (Some following)) }
    ensures next_kept { OnErr result (next.new.entries ≡ next.old.entries) }
{
    let node = request.node;
    waiting.insert(place, request)?;
    if next.insert(node, following).is_err() {
        waiting.remove(place);
        return Err(NoMemory);
    }
    Ok(())
}
