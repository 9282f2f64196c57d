// A bus that keeps its requests in a heap.

ghost use Rattle.std.specs.Prelude.{◌≡◌, ◌+◌, ◌-◌, ◌^◌, ◌<◌, ◌≤◌, ◌∷◌, vec_len, vec_capacity, Some, is_some, OnOk, OnErr};
ghost use Rattle.std.specs.Ordering.{nat_cmp};
ghost use Rattle.std.specs.BTreeMap.{Updates};
ghost use Rattle.std.specs.List.Sorted.{IsPermutation};
ghost use Rattle.can_bus.specs.Waiting.{members};
ghost use Rattle.can_bus.specs.Bus.{BitTakesTime, new_bus, is_free, winner_at, one_channel};
ghost use Rattle.bus_heap.specs.Retransmission.{after_longer_arbitration, with_wire_waiting, without_waiting_of};
ghost use Rattle.bus_heap.specs.Heap.{IsInHeapOrder};
ghost use Rattle.bus_heap.specs.Inside.Heap.{IsHeap};

use crate::heap::{add_within, drop_node, take_first};
use crate::ranks::with_ranks;
use can_bus::{
    Bus, Ended, Transmission, Waiting, intermission, rank, time_on_wire, transmission_with_rank,
};
use can_frame::Frame;
use std::alloc::Global;
use std::collections::BTreeMap;
use std::marker::Model;
use texts::NoMemory;

/// The greatest number that a request can have.
const LAST_NUMBER: u64 = u64::MAX;

/// The bus over a heap of the waiting requests.
///
/// Contracts see it as a `BusState`. A request and an arbitration take time logarithmic in the number
/// of waiting requests, and a request besides in the number of nodes that made one. A request under
/// the last number of 64 bits takes time that grows with the square of the number of waiting requests.
/// Only a request takes memory: it keeps room for what is on the wire to wait again.
#[derive(Drop)]
pub struct HeapBus {
    alloc: Global,
    waiting: Vec<Waiting>,
    wire: Option<Transmission>,
    free: u64,
    next: BTreeMap<u32, u64>,
    bit: u32,
}

impl Model for HeapBus {
    ghost use Rattle.can_bus.specs.Bus.{BusState};
    ghost use Rattle.can_bus.specs.Codes.{bus_code};

    ghost Value = { BusState };

    ghost coded = { bus_code };

    ghost use Rattle.bus_heap.specs.Inside.HeapBus.{state_of, IsHeapBus};

    ghost view = { state_of };

    ghost invariant = { IsHeapBus };
}

impl HeapBus {
    /// A bus on which nothing was requested, whose bits take so many microseconds each.
    pub fn make(alloc: Global, bit: u32) -> HeapBus
        requires { 1 ≤ bit }
        ensures { result ≡ new_bus bit }
    {
        HeapBus {
            alloc,
            waiting: Vec::new(alloc),
            wire: None,
            free: 0,
            next: BTreeMap::new(alloc),
            bit,
        }
    }

    /// The waiting requests as they stand in the heap.
    pub fn waiting(&self) -> &[Waiting]
        ensures members { IsPermutation (members self.now.waiting) result.now }
        ensures order { IsInHeapOrder result.now }
    {
        &self.waiting
    }

    /// What is on the wire, with the moment at which it ends.
    pub fn on_wire(&self) -> Option<Transmission>
        ensures { result ≡ self.now.wire }
    {
        self.wire
    }

    /// As `arbitrate`, but a request that begins is on the wire for so many bits more than its frame has.
    /// Answers whether one begins.
    pub fn arbitrate_longer(&mut self, now: u64, bits: u8) -> bool
        requires { now ≤ 2 ^ 63 }
        ensures state { self.new ≡ after_longer_arbitration self.old now bits }
        ensures begins { result ≡ is_some (winner_at self.old now) }
        ensures sound { BitTakesTime self.new }
    {
        if !self.is_free(now) {
            return false;
        }
        if self.waiting.is_empty() {
            return false;
        }
        let request = take_first(&mut self.waiting);
        let duration = time_on_wire(&request.frame, self.bit)
            + u64::from(bits) * u64::from(self.bit);
        let end = now + duration;
        self.wire = Some(Transmission { request, end });
        self.free = end + intermission(self.bit);
        true
    }

    /// Takes what is on the wire off it, and lets it wait again under its own number. Takes no memory.
    pub fn wait_again(&mut self)
        ensures state { self.new ≡ with_wire_waiting self.old }
        ensures sound { BitTakesTime self.new }
    {
        if let Some(carried) = self.wire.take() {
            add_within(&mut self.waiting, carried.request);
        }
    }

    /// Drops the requests of the node that wait, in time linear in the number of all that wait.
    pub fn drop_waiting(&mut self, node: u32)
        ensures state { self.new ≡ without_waiting_of self.old node }
        ensures sound { BitTakesTime self.new }
    {
        drop_node(&mut self.waiting, node);
    }

    /// Whether the wire is empty and the bus is free.
    fn is_free(&self, now: u64) -> bool
        ensures { result ≡ is_free self.now now }
    {
        self.wire.is_none() && self.free <= now
    }
}

impl Bus for HeapBus {
    ghost meaning = { one_channel };

    fn request(&mut self, node: u32, f: &Frame) -> Result<(), NoMemory> {
        let number = self.next.get(&node).copied().unwrap_or(0);
        let mut request = Waiting {
            node,
            number,
            frame: *f,
        };
        if number < LAST_NUMBER {
            add(&mut self.waiting, &mut self.next, request)?;
            return Ok(());
        }
        let mut waiting = with_ranks(self.alloc, &self.waiting, &self.wire, node)?;
        request.number = rank(&self.waiting, &self.wire, node, number);
        add(&mut waiting, &mut self.next, request)?;
        self.wire = transmission_with_rank(&self.waiting, &self.wire, node);
        self.waiting = waiting;
        Ok(())
    }

    fn next_time(&self) -> Option<u64> {
        if let Some(carried) = &self.wire {
            return Some(carried.end);
        }
        if self.waiting.is_empty() {
            return None;
        }
        Some(self.free)
    }

    fn finish(&mut self, now: u64) -> Option<Ended> {
        let ended = match &self.wire {
            Some(carried) if carried.end == now => Ended {
                node: carried.request.node,
                frame: carried.request.frame,
            },
            _ => return None,
        };
        self.wire = None;
        Some(ended)
    }

    fn arbitrate(&mut self, now: u64) {
        self.arbitrate_longer(now, 0);
    }

    ghost use Rattle.can_bus.proofs.RequestsCommute.{RequestsCommute-bus};
    ghost use Rattle.can_bus.proofs.SoundStays.{SoundStays-bus, NodesStay-bus};
    ghost use Rattle.can_bus.proofs.FramesCome.{FramesCome-bus};
    ghost use Rattle.can_bus.proofs.DueLater.{DueLater-bus, DueLaterFromNothing-bus};

    ghost requests_commute = { RequestsCommute-bus };

    ghost sound_stays = { SoundStays-bus };

    ghost nodes_stay = { NodesStay-bus };

    ghost frames_come = { FramesCome-bus };

    ghost due_later = { DueLater-bus };

    ghost due_later_from_nothing = { DueLaterFromNothing-bus };
}

/// Adds the request to the heap, and notes the number of its node's next one. There is then room for one
/// more, that on the wire. Where there is no memory, nothing changes.
fn add(
    waiting: &mut Vec<Waiting>,
    next: &mut BTreeMap<u32, u64>,
    request: Waiting,
) -> Result<(), NoMemory>
    requires number { request.number < LAST_NUMBER }
    requires heap { IsHeap waiting.old.items }
    ensures heap { IsHeap waiting.new.items }
    ensures waiting { OnOk result (IsPermutation (request ∷ waiting.old.items) waiting.new.items) }
    ensures waiting_kept { OnErr result (waiting.new.items ≡ waiting.old.items) }
    ensures next { OnOk result (Updates nat_cmp next.old next.new request.node (Some (request.number + 1))) }
    ensures next_kept { OnErr result (next.new.entries ≡ next.old.entries) }
    ensures room { OnOk result (vec_len waiting.old + 2 ≤ vec_capacity waiting.new) }
    ensures room_kept { vec_capacity waiting.old ≤ vec_capacity waiting.new }
{
    waiting.reserve(2)?;
    next.insert(request.node, request.number + 1)?;
    add_within(waiting, request);
    Ok(())
}
