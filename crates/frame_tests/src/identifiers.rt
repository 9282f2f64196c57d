// Frames, and the keys of their identifiers.

use can_frame::{Frame, Ident, arb_key, laws, sel_key};
use std::test::Fail;

const BYTES: [u8; 8] = [1, 2, 3, 4, 5, 6, 7, 8];

#[test]
fn make_keeps_the_fields(rt: HostRuntime) -> Result<(), Fail> {
    let frame = Frame::make(Ident::Std(0x123), false, 3, BYTES, 2).ok_or("a frame")?;
    assert_eq!(rt; frame.ident(), Ident::Std(0x123));
    assert_eq!(rt; frame.rtr(), false);
    assert_eq!(rt; frame.dlc(), 3);
    assert_eq!(rt; frame.data_len(), 3);
    assert_eq!(rt; frame.payload(), [1, 2, 3, 0, 0, 0, 0, 0]);
    assert_eq!(rt; frame.can(), 2);
    let remote = Frame::make(Ident::Ext(5), true, 8, BYTES, 1).ok_or("a frame")?;
    assert_eq!(rt; remote.dlc(), 8);
    assert_eq!(rt; remote.data_len(), 0);
    assert_eq!(rt; remote.payload(), [0; 8]);
    Ok(())
}

#[test]
fn make_refuses_what_is_out_of_range(rt: HostRuntime) {
    let refused = [
        (Ident::Std(0x800), 0, 1),
        (Ident::Ext(0x2000_0000), 0, 1),
        (Ident::Std(0x7FF), 9, 1),
        (Ident::Ext(0x1FFF_FFFF), 8, 0),
        (Ident::Ext(0x1FFF_FFFF), 8, 3),
    ];
    for (ident, dlc, can) in refused {
        assert_eq!(rt; Frame::make(ident, false, dlc, BYTES, can), None);
    }
}

// The keys are the arbitration fields of ISO 11898-1, written out by hand.
#[test]
fn keys_of_some_frames(rt: HostRuntime) -> Result<(), Fail> {
    let rows = [
        (Ident::Std(0), false, 0, 0),
        (Ident::Std(0), true, 0x0010_0000, 0),
        (Ident::Std(1), false, 0x0020_0000, 1),
        (Ident::Ext(0), false, 0x0018_0000, 0x8000_0000),
        (Ident::Ext(0), true, 0x0018_0001, 0x8000_0000),
        (Ident::Ext(1), false, 0x0018_0002, 0x8000_0001),
        (Ident::Ext(0x0004_0000), false, 0x0038_0000, 0x8004_0000),
        (Ident::Std(0x7FF), true, 0xFFF0_0000, 0x7FF),
        (Ident::Ext(0x1FFF_FFFF), true, 0xFFFF_FFFF, 0x9FFF_FFFF),
    ];
    for (ident, rtr, arbitration, selection) in rows {
        let frame = Frame::make(ident, rtr, 0, BYTES, 1).ok_or("a frame")?;
        assert_eq!(rt; arb_key(&frame), arbitration);
        assert_eq!(rt; sel_key(&frame), selection);
    }
    Ok(())
}

#[test]
fn laws_can_be_called() {
    laws::arb_key_orders();
    laws::sel_key_names();
}
