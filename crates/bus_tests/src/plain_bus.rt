// The calls of a bus through the trait, as of any other bus.

use arbitration::PlainBus;
use can_bus::{Bus, Ended};
use can_frame::{Frame, Ident};
use std::process::Abort;
use std::test::Fail;

/// A node, an identifier, whether the frame is remote, and its data length code.
type Fields = (u32, Ident, bool, u8);

// Two requests at moment 0 and 2 microseconds a bit. The strongest frame, standard data of
// identifier 0 with no bytes, has 50 bits, so it ends at 100, and the bus is free from 106 on.
// The other frames have 47, 71, 47 and 56 bits. Each row has the earlier request, the later one,
// whether the later one wins, and the end of the loser.
#[test]
fn two_requests_go_in_order(rt: HostRuntime) -> Result<(), Fail> {
    let strong = Ident::Std(0);
    let rows = [
        // A lesser identifier goes before an earlier request.
        (
            (0, Ident::Std(1), false, 0),
            (0, strong, false, 0),
            true,
            200,
        ),
        // Standard goes before extended with the same base bits.
        (
            (0, Ident::Ext(0), false, 0),
            (0, strong, false, 0),
            true,
            248,
        ),
        // Data goes before remote.
        ((0, strong, true, 0), (0, strong, false, 0), true, 200),
        // Of equal fields the lesser node goes first.
        ((1, strong, false, 1), (0, strong, false, 0), true, 218),
        // Of one node the earlier request goes first.
        ((0, strong, false, 0), (0, strong, false, 1), false, 218),
    ];
    for (earlier, later, later_wins, end) in rows {
        let mut bus = PlainBus::make(rt.alloc(), 2);
        assert_eq!(rt; bus.next_time(), None);
        let earlier = request(&mut bus, earlier)?;
        let later = request(&mut bus, later)?;
        if later_wins {
            go_in_order(&rt, &mut bus, later, earlier, end);
        } else {
            go_in_order(&rt, &mut bus, earlier, later, end);
        }
    }
    Ok(())
}

/// Requests a frame with these fields, and gives it with its node.
fn request(bus: &mut PlainBus, fields: Fields) -> Result<Ended, Fail> {
    let (node, ident, remote, dlc) = fields;
    let frame = Frame::make(ident, remote, dlc, [0; 8], 1).ok_or("a frame")?;
    if bus.request(node, &frame).is_err() {
        return Err("memory".into());
    }
    Ok(Ended { node, frame })
}

/// The strongest frame begins at moment 0, and the other when the bus is free again.
fn go_in_order(rt: &impl Abort, bus: &mut PlainBus, winner: Ended, loser: Ended, end: u64) {
    assert_eq!(rt; bus.next_time(), Some(0));
    bus.arbitrate(0);
    bus.arbitrate(0);
    assert_eq!(rt; bus.next_time(), Some(100));
    assert_eq!(rt; bus.finish(99), None);
    assert_eq!(rt; bus.finish(100), Some(winner));
    assert_eq!(rt; bus.finish(100), None);

    assert_eq!(rt; bus.next_time(), Some(106));
    bus.arbitrate(105);
    assert_eq!(rt; bus.next_time(), Some(106));
    bus.arbitrate(106);
    assert_eq!(rt; bus.next_time(), Some(end));
    assert_eq!(rt; bus.finish(end), Some(loser));
    assert_eq!(rt; bus.next_time(), None);
}
