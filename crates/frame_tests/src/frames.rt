// The expected values are worked out by a model of ISO 11898-1 apart from this code: the CRC as the
// remainder of whole numbers, the stuff bits put in text by text.

use can_frame::{Frame, Ident};
use frame_bits::{bits_of, crc15, laws, stuffed_len, worst_len};
use std::test::Fail;

type Row = (Ident, bool, u8, u64, u16, u32);

// Identifier, remote, data length code, the eight bytes, CRC and length. The last five have a stuff
// bit after the last CRC bit.
const ROWS: [Row; 20] = [
    (Ident::Std(0), false, 0, 0, 0, 50),
    (Ident::Std(1), false, 0, 0, 0x2213, 47),
    (Ident::Ext(0), false, 0, 0, 0x4610, 71),
    (Ident::Std(0), true, 0, 0, 0x73C5, 47),
    (Ident::Std(0), false, 1, 0, 0x4426, 56),
    (Ident::Std(0x100), false, 0, 0, 0x380A, 48),
    (Ident::Std(0x180), false, 0, 0, 0x240F, 48),
    (Ident::Std(0x200), false, 0, 0, 0x7014, 48),
    (
        Ident::Std(0x123),
        false,
        2,
        0x0014_0000_0000_0000,
        0x162B,
        63,
    ),
    (Ident::Std(0x7FF), true, 8, 0, 0x20ED, 47),
    (
        Ident::Std(0x7FF),
        false,
        8,
        0xFFFF_FFFF_FFFF_FFFF,
        0x4C89,
        123,
    ),
    (
        Ident::Std(0x555),
        false,
        8,
        0x5555_5555_5555_5555,
        0x1B04,
        109,
    ),
    (
        Ident::Ext(0x1FFF_FFFF),
        false,
        8,
        0xFFFF_FFFF_FFFF_FFFF,
        0x1B69,
        146,
    ),
    (
        Ident::Ext(0x1234_5678),
        false,
        4,
        0xDEAD_BEEF_0000_0000,
        0x331B,
        98,
    ),
    (Ident::Ext(0), false, 8, 0, 0x3DAF, 147),
    (
        Ident::Std(0x123),
        false,
        2,
        0x000A_0000_0000_0000,
        0x59DF,
        64,
    ),
    (
        Ident::Ext(0x0719_BBB4),
        false,
        3,
        0x0000_FF00_0000_0000,
        0x3DE0,
        94,
    ),
    (
        Ident::Ext(0x1724_1708),
        false,
        5,
        0xFFED_AE00_FF00_0000,
        0x3A60,
        111,
    ),
    (
        Ident::Std(0x311),
        false,
        5,
        0xBBB5_FF00_0000_0000,
        0x4060,
        90,
    ),
    (Ident::Std(0x14), true, 4, 0, 0x1F20, 47),
];

#[test]
fn lengths_of_frames(rt: HostRuntime) -> Result<(), Fail> {
    for (ident, rtr, dlc, bytes, _, length) in ROWS {
        let frame = Frame::make(ident, rtr, dlc, bytes.to_be_bytes(), 1).ok_or("a frame")?;
        assert_eq!(rt; stuffed_len(&frame), length, "{ident:?} {bytes:x}");
    }
    Ok(())
}

#[test]
fn crcs_of_frames(rt: HostRuntime) -> Result<(), Fail> {
    for (ident, rtr, dlc, bytes, crc, _) in ROWS {
        let frame = Frame::make(ident, rtr, dlc, bytes.to_be_bytes(), 1).ok_or("a frame")?;
        let bits = bits_of(rt.alloc(), &frame)?;
        let covered = bits.len().checked_sub(15).ok_or("fifteen bits")?;
        assert_eq!(rt; crc15(&bits[..covered]), crc, "{ident:?} {bytes:x}");
        let mut spelled = 0u32;
        for bit in &bits[covered..] {
            spelled = spelled.wrapping_mul(2).wrapping_add(u32::from(*bit));
        }
        assert_eq!(rt; spelled, u32::from(crc));
    }
    Ok(())
}

#[test]
fn bits_of_the_frame_of_zeros(rt: HostRuntime) -> Result<(), Fail> {
    let frame = Frame::make(Ident::Std(0), false, 0, [0; 8], 1).ok_or("a frame")?;
    let bits = bits_of(rt.alloc(), &frame)?;
    assert_eq!(rt; bits.as_slice(), [false; 34].as_slice());
    Ok(())
}

// Without the three bits between frames these are the 135 and 160 bits of the literature.
#[test]
fn worst_lengths(rt: HostRuntime) {
    assert_eq!(rt; worst_len(false, 0), 52);
    assert_eq!(rt; worst_len(false, 8), 132);
    assert_eq!(rt; worst_len(true, 0), 77);
    assert_eq!(rt; worst_len(true, 3), 107);
    assert_eq!(rt; worst_len(true, 8), 157);
}

#[test]
fn laws_can_be_called() {
    laws::one_stuffing();
}
