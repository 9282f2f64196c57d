// The requests of logs.

ghost use Rattle.std.specs.Prelude.{◌<◌, ◌^◌, length};

use can_frame::Ident;
use replay_node::{ReplayRefusal, Request, laws, requests};
use scenario::Epoch;
use std::test::Fail;

/// A log, the second from which its moments are counted, how many lines are passed over, and the requests of
/// its interface `a`, each a moment and the identifier of an empty data frame.
type Row = (&'static [u8], u64, u64, &'static [(u64, u16)]);

// The frames have 50 and 47 bits, by hand; a bit takes 2 microseconds.
const ROWS: [Row; 5] = [
    (
        b"(0000000000.000100) a 000#\n(0000000000.000200) a 001#\n",
        0,
        0,
        &[(0, 0), (106, 1)],
    ),
    // The second line is before the epoch, the third starts before it, and the fourth is before the third.
    (
        b"(10.000200) a 001#\n(0.000000) a 001#\n(10.000500) a 001#\n(10.000400) a 001#\n",
        10,
        0,
        &[(106, 1), (106, 1), (406, 1), (406, 1)],
    ),
    (b"(999999999999999.0) a 001#", 0, 1, &[]),
    (b"(999999999999999.000000) a 001#\n", 0, 0, &[(u64::MAX, 1)]),
    // A last line without an end may be cut off.
    (b"(0.000100) a 000#\nhello", 0, 1, &[(0, 0)]),
];

/// Whether the requests are these.
fn are_requests(found: &[Request], wanted: &[(u64, u16)]) -> bool {
    found.len() == wanted.len()
        && found.iter().zip(wanted).all(|(request, (at, number))| {
            let frame = request.frame;
            let is_empty = !frame.rtr() && frame.dlc() == 0;
            request.at == *at && frame.ident() == Ident::Std(*number) && is_empty
        })
}

#[test]
fn frames_ask_at_their_starts(rt: HostRuntime) -> Result<(), Fail> {
    for (log, epoch, skipped, wanted) in ROWS {
        assert!(rt; log.len() < 200);
        let replay = requests(rt.alloc(), log, b"a", 2, Epoch::At(epoch))?;
        assert_eq!(rt; (replay.epoch, replay.skipped), (epoch, skipped));
        assert!(rt; are_requests(replay.list.as_slice(), wanted));
    }
    Ok(())
}

static OTHERS: &[u8] = b"(5.000000) can1 001#\n\n(1436509053.850870) vcan0 123#\n\
    (1436509053.900000) vcan0 123##1112233\n";

// The first entry gives the epoch: the second before it.
#[test]
fn the_first_entry_gives_the_epoch(rt: HostRuntime) -> Result<(), Fail> {
    let rows: [(&[u8], &[u8], u64, usize); 4] = [
        (OTHERS, b"vcan0", 1_436_509_052, 1),
        (OTHERS, b"can1", 4, 1),
        (OTHERS, b"can2", 0, 0),
        (b"(999999999999999.000000) a 001#\n", b"a", 4_294_967_295, 1),
    ];
    for (log, interface, epoch, count) in rows {
        assert!(rt; log.len() < 200);
        let replay = requests(rt.alloc(), log, interface, 2, Epoch::First)?;
        assert_eq!(rt; (replay.epoch, replay.list.len()), (epoch, count));
    }
    Ok(())
}

#[test]
fn the_first_bad_line_is_named(rt: HostRuntime) {
    let log = b"(0.000100) a 000#\r\nhello\nagain\n";
    let bad = requests(rt.alloc(), log, b"a", 2, Epoch::At(0));
    assert!(rt; matches!(bad, Err(ReplayRefusal::BadLine { line: 2 })));
}

#[test]
fn laws_can_be_called() {
    laws::one_replay();
}
