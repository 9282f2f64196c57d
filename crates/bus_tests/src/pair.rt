// The calls of a bus of two channels. A bit takes 2 microseconds. By a model of ISO 11898-1 apart from
// this code the frame of identifier 0 has 50 bits, so it is on its wire for 100 microseconds.

use bus_pair::PairBus;
use can_bus::{Bus, Ended};
use can_frame::{Frame, Ident};
use channel_pair::laws;
use std::process::Abort;
use std::test::Fail;

/// The frame of identifier 0 and no bytes on this channel, as a node sends it.
fn sent_by(node: u32, can: u8) -> Result<Ended, Fail> {
    let frame = Frame::make(Ident::Std(0), false, 0, [0; 8], can).ok_or("a frame")?;
    Ok(Ended { node, frame })
}

/// Requests a frame.
fn request(bus: &mut PairBus, wanted: &Ended) -> Result<(), Fail> {
    if bus.request(wanted.node, &wanted.frame).is_err() {
        return Err("memory".into());
    }
    Ok(())
}

/// What is on the bus from moment 0 on ends at 100: these frames, in this order, and no other.
fn check_ends(rt: &impl Abort, bus: &mut PairBus, ended: &[Ended]) {
    assert_eq!(rt; bus.next_time(), Some(0));
    bus.arbitrate(0);
    assert_eq!(rt; bus.next_time(), Some(100));
    assert_eq!(rt; bus.finish(99), None);
    for wanted in ended {
        assert_eq!(rt; bus.finish(100), Some(*wanted));
    }
    assert_eq!(rt; bus.finish(100), None);
    assert_eq!(rt; bus.next_time(), None);
}

// A frame of channel 1 ends at 100. One of channel 2 is requested then, and begins at once, though channel
// 1 is free again at 106 alone.
#[test]
fn one_channel_does_not_wait_for_the_other(rt: HostRuntime) -> Result<(), Fail> {
    let one = sent_by(0, 1)?;
    let two = sent_by(1, 2)?;
    let mut bus = PairBus::make(rt.alloc(), 2);
    assert_eq!(rt; bus.next_time(), None);
    request(&mut bus, &one)?;
    check_ends(&rt, &mut bus, &[one]);
    request(&mut bus, &two)?;
    bus.arbitrate(100);
    assert_eq!(rt; bus.next_time(), Some(200));
    assert_eq!(rt; bus.finish(200), Some(two));
    Ok(())
}

// A frame of each channel, channel 2's requested first: both end at 100, and channel 1's is given first.
#[test]
fn two_frames_end_at_one_moment(rt: HostRuntime) -> Result<(), Fail> {
    let one = sent_by(0, 1)?;
    let two = sent_by(0, 2)?;
    let mut bus = PairBus::make(rt.alloc(), 2);
    request(&mut bus, &two)?;
    request(&mut bus, &one)?;
    check_ends(&rt, &mut bus, &[one, two]);
    Ok(())
}

#[test]
fn laws_can_be_called() {
    laws::finish_gives_nothing();
    laws::two_finish_leave_nothing();
    laws::two_finish_give_both();
    laws::one_channel_alone();
}
