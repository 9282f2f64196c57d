// The least good waits, waits that are accepted, and lines of bounds.

use crate::streams::{are_streams, extended, standard};
use can_frame::Ident;
use load_bound::{Stream, accept, bound_line, find};
use std::test::Fail;

// At 2 microseconds for a bit a frame of no bytes takes 55 bits: 42 with all stuff bits, 10 behind
// the CRC and 3 of the intermission.
#[test]
fn the_weaker_of_two_streams_waits_for_three_frames(rt: HostRuntime) -> Result<(), Fail> {
    let streams = [standard(0, 0, 1000), standard(1, 0, 10_000)];
    assert!(rt; are_streams(&streams));
    let waits = find(rt.alloc(), &streams, 2)?;
    assert_eq!(rt; waits.as_slice(), [Some(110), Some(330)].as_slice());
    Ok(())
}

// The second stream's wait would reach its next request, and the third is weaker.
#[test]
fn what_is_weaker_than_a_stream_without_a_wait_has_none(rt: HostRuntime) -> Result<(), Fail> {
    let streams = [
        standard(0, 0, 1000),
        standard(1, 0, 330),
        standard(2, 0, 10_000),
    ];
    assert!(rt; are_streams(&streams));
    let waits = find(rt.alloc(), &streams, 2)?;
    assert_eq!(rt; waits.as_slice(), [Some(110), None, None].as_slice());
    Ok(())
}

// Of one base identifier the standard frame is stronger; the answers come in the order given.
#[test]
fn waits_come_in_the_order_given(rt: HostRuntime) -> Result<(), Fail> {
    let streams = [extended(0x4_0000, 0, 10_000), standard(1, 0, 10_000)];
    assert!(rt; are_streams(&streams));
    let waits = find(rt.alloc(), &streams, 1)?;
    // The extended frame takes 80 bits, the standard one 55.
    assert_eq!(rt; waits.as_slice(), [Some(190), Some(80)].as_slice());
    Ok(())
}

#[test]
fn waits_are_accepted_from_the_least_good_one_on(rt: HostRuntime) {
    let streams = [standard(0, 0, 1000), standard(1, 0, 10_000)];
    assert!(rt; are_streams(&streams));
    let rows = [
        ([Some(110), Some(330)], true),
        ([Some(110), Some(329)], false),
        ([Some(109), Some(330)], false),
        ([Some(999), Some(9000)], true),
        ([Some(1000), None], false),
        ([Some(110), None], true),
        ([None, Some(330)], false),
        ([None, None], true),
    ];
    for (waits, accepted) in rows {
        assert_eq!(rt; accept(&streams, 2, &waits), accepted);
    }
}

// The messages of bench/bounds.py at 250,000 bits a second, and their bounds by it.
#[test]
fn waits_of_messages_of_a_car(rt: HostRuntime) -> Result<(), Fail> {
    let streams = [
        standard(1, 1, 1_000_000),
        standard(2, 2, 5000),
        standard(3, 1, 5000),
        standard(4, 2, 5000),
        standard(5, 1, 5000),
        standard(6, 2, 5000),
        standard(7, 6, 10_000),
        standard(8, 1, 10_000),
        standard(9, 2, 10_000),
        standard(10, 2, 10_000),
        standard(11, 1, 100_000),
        standard(12, 4, 100_000),
        standard(13, 1, 100_000),
        standard(14, 1, 100_000),
        standard(15, 3, 1_000_000),
        standard(16, 1, 1_000_000),
        standard(17, 1, 1_000_000),
    ];
    assert!(rt; are_streams(&streams));
    let waits = find(rt.alloc(), &streams, 4)?;
    let bounds = [
        460, 980, 1580, 2100, 2700, 3220, 3820, 4740, 6680, 7280, 7880, 8400, 9160, 9680, 12_940,
        13_620, 14_140,
    ]
    .map(|wait| Some(wait));
    assert_eq!(rt; waits.as_slice(), bounds.as_slice());
    assert!(rt; accept(&streams, 4, &bounds));
    Ok(())
}

#[test]
fn lines_of_bounds(rt: HostRuntime) -> Result<(), Fail> {
    let rows = [
        (Ident::Std(0), Some(110), "b 000 110\n"),
        (Ident::Std(1), None, "b 001 none\n"),
        (Ident::Std(0x7FF), Some(0), "b 7FF 0\n"),
        (
            Ident::Ext(0xABCDEF),
            Some(4_294_967_294),
            "b 00ABCDEF 4294967294\n",
        ),
    ];
    for (ident, wait, line) in rows {
        assert_eq!(rt;
            bound_line(rt.alloc(), ident, wait)?.bytes(),
            line.as_bytes()
        );
    }
    Ok(())
}
