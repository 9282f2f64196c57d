// The calls of a `HeapBus`, by hand and beside those of the bus over a list.

use arbitration::PlainBus;
use bus_heap::HeapBus;
use can_bus::{Bus, Ended, Transmission, Waiting};
use can_frame::{Frame, Ident};
use std::process::Abort;
use std::test::Fail;

/// The empty data frame of this identifier.
fn frame_of(number: u16) -> Result<Frame, Fail> {
    let frame = Frame::make(Ident::Std(number), false, 0, [0; 8], 1);
    Ok(frame.ok_or("a frame")?)
}

/// Requests these frames, each of a node.
fn request_all(bus: &mut HeapBus, all: &[(u32, Frame)]) -> Result<(), Fail> {
    for (node, frame) in all {
        if bus.request(*node, frame).is_err() {
            return Err("memory".into());
        }
    }
    Ok(())
}

/// Before the first frame begins, the request of the node 0 for it stands first of three.
fn check_waiting(rt: &impl Abort, bus: &HeapBus, first: Frame) {
    let winner = Waiting {
        node: 0,
        number: 0,
        frame: first,
    };
    assert!(rt; bus.waiting().first().is_some_and(|head| *head == winner));
    assert_eq!(rt; bus.waiting().len(), 3);
    assert_eq!(rt; bus.next_time(), Some(0));
}

/// The node 0 sends these frames, one after the other, and a request is left.
fn check_turns(rt: &impl Abort, bus: &mut HeapBus, first: Frame, later: Frame) {
    let ended = |frame| Some(Ended { node: 0, frame });
    bus.arbitrate(0);
    assert_eq!(rt; bus.finish(99), None);
    assert_eq!(rt; bus.finish(100), ended(first));
    assert_eq!(rt; bus.next_time(), Some(106));
    bus.arbitrate(106);
    assert_eq!(rt; bus.finish(200), ended(later));
    assert_eq!(rt; bus.waiting().len(), 1);
}

// Three requests at moment 0 and 2 microseconds a bit. By a model of ISO 11898-1 apart from this code
// the frame of identifier 0 has 50 bits, so it ends at 100, and the bus is free from 106 on; that of
// identifier 1 has 47 bits, so it ends at 200.
#[test]
fn three_requests_go_in_order(rt: HostRuntime) -> Result<(), Fail> {
    let first = frame_of(0)?;
    let later = frame_of(1)?;
    let mut bus = HeapBus::make(rt.alloc(), 2);
    assert_eq!(rt; bus.next_time(), None);
    request_all(&mut bus, &[(1, later), (0, first), (0, later)])?;
    check_waiting(&rt, &bus, first);
    check_turns(&rt, &mut bus, first, later);
    Ok(())
}

/// The frame of identifier 0 and 14 bits more, so 64, begins at 0. It waits again, and is dropped.
fn check_waits_again(rt: &impl Abort, bus: &mut HeapBus, first: Frame) {
    let request = Waiting {
        node: 0,
        number: 0,
        frame: first,
    };
    assert!(rt; bus.arbitrate_longer(0, 14));
    assert_eq!(rt; bus.on_wire(), Some(Transmission { request, end: 128 }));
    assert!(rt; !bus.arbitrate_longer(134, 14));
    bus.wait_again();
    assert_eq!(rt; bus.on_wire(), None);
    assert_eq!(rt; bus.next_time(), Some(134));
    assert!(rt; bus.waiting().first().is_some_and(|head| *head == request));
    bus.drop_waiting(0);
    assert_eq!(rt; bus.waiting().len(), 1);
}

#[test]
fn a_frame_waits_again(rt: HostRuntime) -> Result<(), Fail> {
    let first = frame_of(0)?;
    let later = frame_of(1)?;
    let mut bus = HeapBus::make(rt.alloc(), 2);
    request_all(&mut bus, &[(1, later), (0, first)])?;
    check_waits_again(&rt, &mut bus, first);
    Ok(())
}

/// The next number of a fixed sequence (xorshift with 64 bits).
fn next_random(state: &mut u64) -> u64 {
    *state ^= *state << 13;
    *state ^= *state >> 7;
    *state ^= *state << 17;
    *state
}

/// A frame of few identifiers, so that many arbitration fields are equal.
fn random_frame(random: u64) -> Option<Frame> {
    let base = (random >> 8 & 7) as u16;
    let ident = if random & 1 == 0 {
        Ident::Std(base)
    } else {
        Ident::Ext(u32::from(base))
    };
    let dlc = ((random >> 16) % 9) as u8;
    Frame::make(ident, random & 2 == 0, dlc, [(random & 0xff) as u8; 8], 1)
}

/// Requests a random frame of a random node on both.
fn request_both(list: &mut PlainBus, heap: &mut HeapBus, random: u64) -> Result<(), Fail> {
    let node = (random >> 32 & 7) as u32;
    let frame = random_frame(random).ok_or("a frame")?;
    if list.request(node, &frame).is_err() || heap.request(node, &frame).is_err() {
        return Err("memory".into());
    }
    Ok(())
}

/// Both go on to a moment.
fn arbitrate_both(list: &mut PlainBus, heap: &mut HeapBus, now: u64) {
    let moment = now.min(1 << 60);
    list.arbitrate(moment);
    heap.arbitrate(moment);
}

/// A random call, of which both give one answer, and then one of the next moment.
fn check_call(
    rt: &impl Abort,
    list: &mut PlainBus,
    heap: &mut HeapBus,
    random: u64,
    now: u64,
) -> Result<(), Fail> {
    if random % 8 == 0 {
        request_both(list, heap, random)?;
    } else if random % 2 == 0 {
        assert_eq!(rt; heap.finish(now), list.finish(now));
    } else {
        arbitrate_both(list, heap, now);
    }
    assert_eq!(rt; heap.next_time(), list.next_time());
    Ok(())
}

/// 100,000 random calls; beside each of 512 among 2048 a frame is requested.
fn check_calls(rt: &impl Abort, list: &mut PlainBus, heap: &mut HeapBus) -> Result<(), Fail> {
    let mut state = 1;
    let mut now = 0;
    for step in 0..100_000u32 {
        let random = next_random(&mut state);
        if step / 512 % 4 == 0 {
            request_both(list, heap, random)?;
        }
        check_call(rt, list, heap, random, now)?;
        now = heap.next_time().unwrap_or(now);
    }
    Ok(())
}

// Random calls, of which the two buses give one answer each.
#[test]
fn heap_and_list_answer_alike(rt: HostRuntime) -> Result<(), Fail> {
    let mut list = PlainBus::make(rt.alloc(), 2);
    let mut heap = HeapBus::make(rt.alloc(), 2);
    check_calls(&rt, &mut list, &mut heap)
}
