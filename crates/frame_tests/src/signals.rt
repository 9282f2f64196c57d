// Tests against canmatrix, and of layouts at the edges of a payload.

use signal_codec::{Layout, get, put, usable};

/// The numbers that a signal may be given.
const LEAST: i128 = -0x8000_0000_0000_0000;

const GREATEST: i128 = 0xffff_ffff_ffff_ffff;

const FIRST: [u8; 8] = [0x9a, 0x3c, 0xe5, 0x71, 0x0f, 0xd2, 0x48, 0xb7];

const SECOND: [u8; 8] = [0x13, 0xf8, 0x6d, 0x84, 0xce, 0x21, 0xa9, 0x5b];

/// Signals as canmatrix reads and writes them, a library in Python for DBC files: the start, the
/// length, whether the signal is big-endian and whether it is signed, its number in `FIRST` and in
/// `SECOND`, and the payload that has the first number and no other bit, with its first byte
/// highest.
///
/// The starts were drawn at random. A DBC text with a message for each signal was given to the
/// library, which decoded both payloads and encoded the third.
static ANSWERS: [(u16, u16, bool, bool, i128, i128, u64); 63] = [
    (55, 1, false, false, 0, 1, 0x0000000000000000),
    (62, 1, true, true, 0, -1, 0x0000000000000000),
    (7, 2, false, true, 1, 0, 0x8000000000000000),
    (38, 2, true, false, 0, 2, 0x0000000000000000),
    (15, 3, false, false, 2, 3, 0x0000010000000000),
    (36, 3, true, true, 3, 3, 0x000000000c000000),
    (50, 4, false, true, 2, -6, 0x0000000000000800),
    (14, 4, true, false, 7, 15, 0x0038000000000000),
    (11, 5, false, false, 7, 31, 0x0038000000000000),
    (47, 5, true, true, -6, 4, 0x0000000000d00000),
    (21, 7, false, true, 15, 35, 0x0000e00100000000),
    (8, 7, true, false, 57, 27, 0x0000e40000000000),
    (46, 8, false, false, 35, 164, 0x0000000000c00800),
    (18, 8, true, true, -82, -80, 0x0000057000000000),
    (1, 9, false, true, 77, 9, 0x9a00000000000000),
    (42, 9, true, false, 146, 106, 0x0000000000024800),
    (37, 11, false, false, 1680, 270, 0x0000000000d20000),
    (41, 11, true, true, -879, 850, 0x0000000000024880),
    (28, 12, false, true, 247, -792, 0x000000700f000000),
    (45, 12, true, false, 1170, 2154, 0x0000000000124800),
    (38, 15, false, false, 9032, 9351, 0x0000000000d20800),
    (31, 15, true, true, 14471, -15769, 0x000000710e000000),
    (2, 16, false, true, 20262, 32260, 0x983c010000000000),
    (19, 16, true, false, 22288, 55372, 0x0000057100000000),
    (34, 17, false, false, 13443, 18547, 0x000000000cd20000),
    (35, 17, true, true, -1463, -15307, 0x000000000fd24800),
    (13, 21, false, true, -0x470d7, -0xbdc91, 0x0020e57103000000),
    (11, 21, true, false, 0x19cae2, 0x10db09, 0x000ce57100000000),
    (6, 24, false, false, 0xc794f2, 0x11b7e0, 0x803ce53100000000),
    (14, 24, true, true, 0x79cae2, -0xf24f7, 0x003ce57100000000),
    (
        11,
        25,
        false,
        true,
        -0x11c359,
        -0x2f7241,
        0x0038e5710f000000,
    ),
    (2, 25, true, false, 0x8f395c, 0xfe1b61, 0x023ce57000000000),
    (
        26,
        31,
        false,
        false,
        0x523483dc,
        0x6a4873a1,
        0x000000700fd24801,
    ),
    (9, 31, true, true, 0x1cae21fa, 0xdb099c4, 0x0000e5710fd00000),
    (
        16,
        32,
        false,
        true,
        -0x2df08e1b,
        0x21ce846d,
        0x0000e5710fd20000,
    ),
    (
        13,
        32,
        true,
        false,
        0xf395c43f,
        0xe1b61338,
        0x003ce5710fc00000,
    ),
    (
        19,
        33,
        false,
        false,
        0x11a41ee3c,
        0x12439d08d,
        0x0000e0710fd20800,
    ),
    (
        16,
        33,
        true,
        true,
        -0x8ef02db8,
        -0x7b31de57,
        0x000001710fd24800,
    ),
    (
        15,
        39,
        false,
        true,
        0x11a41ee3ca,
        -0x2dbc62f725,
        0x0000e5710fd20800,
    ),
    (
        3,
        39,
        true,
        false,
        0x51e72b887e,
        0x1fc36c2671,
        0x0a3ce5710fc00000,
    ),
    (
        9,
        40,
        false,
        false,
        0x6907b8f29e,
        0x90e74236fc,
        0x003ce5710fd20000,
    ),
    (
        22,
        40,
        true,
        true,
        -0x351de05b6f,
        -0x24f663bcae,
        0x000065710fd24880,
    ),
    (
        4,
        47,
        false,
        true,
        0xd20f71e53c9,
        0x121ce846df81,
        0x903ce5710fd20000,
    ),
    (
        9,
        47,
        true,
        false,
        0x1cae21fa4916,
        0xdb099c4352b,
        0x0000e5710fd248b0,
    ),
    (
        15,
        48,
        false,
        false,
        0x6e91a41ee3ca,
        0xb752439d08db,
        0x0000e5710fd24837,
    ),
    (
        14,
        48,
        true,
        true,
        0x79cae21fa491,
        -0xf24f663bcae,
        0x003ce5710fd24880,
    ),
    (
        1,
        55,
        false,
        true,
        0x246907b8f29e4d,
        -0x2b6f18bdc903f7,
        0x9a3ce5710fd24800,
    ),
    (
        15,
        55,
        true,
        false,
        0x1e72b887e9245b,
        0x7c36c26710d4ad,
        0x003ce5710fd248b6,
    ),
    (
        8,
        56,
        false,
        false,
        0xb748d20f71e53c,
        0x5ba921ce846df8,
        0x003ce5710fd248b7,
    ),
    (
        7,
        56,
        true,
        true,
        -0x65c31a8ef02db8,
        0x13f86d84ce21a9,
        0x9a3ce5710fd24800,
    ),
    (
        7,
        57,
        false,
        true,
        -0x916e5be11c3587,
        0xb752439d08dbf0,
        0x803ce5710fd248b7,
    ),
    (
        3,
        57,
        true,
        false,
        0x1479cae21fa4916,
        0x7f0db099c4352b,
        0x0a3ce5710fd248b0,
    ),
    (
        1,
        62,
        false,
        false,
        0x1ba46907b8f29e4d,
        0x2dd490e74236fc09,
        0x9a3ce5710fd24837,
    ),
    (
        7,
        62,
        true,
        true,
        -0x1970c6a3bc0b6dd3,
        0x4fe1b6133886a56,
        0x9a3ce5710fd248b4,
    ),
    (
        1,
        63,
        false,
        true,
        -0x245b96f8470d61b3,
        0x2dd490e74236fc09,
        0x9a3ce5710fd248b7,
    ),
    (
        7,
        63,
        true,
        false,
        0x4d1e72b887e9245b,
        0x9fc36c26710d4ad,
        0x9a3ce5710fd248b6,
    ),
    (
        0,
        64,
        false,
        false,
        0xb748d20f71e53c9a,
        0x5ba921ce846df813,
        0x9a3ce5710fd248b7,
    ),
    (
        7,
        64,
        true,
        true,
        -0x65c31a8ef02db749,
        0x13f86d84ce21a95b,
        0x9a3ce5710fd248b7,
    ),
    (
        0,
        64,
        false,
        true,
        -0x48b72df08e1ac366,
        0x5ba921ce846df813,
        0x9a3ce5710fd248b7,
    ),
    (
        7,
        64,
        true,
        false,
        0x9a3ce5710fd248b7,
        0x13f86d84ce21a95b,
        0x9a3ce5710fd248b7,
    ),
    (63, 8, true, true, -73, 91, 0x00000000000000b7),
    (56, 1, true, false, 1, 1, 0x0000000000000001),
    (
        0,
        57,
        true,
        false,
        0x3ce5710fd248b7,
        0x1f86d84ce21a95b,
        0x003ce5710fd248b7,
    ),
];

#[test]
fn signals_are_read_and_written_as_by_canmatrix(rt: HostRuntime) {
    for &(start, len, big, signed, first, second, alone) in &ANSWERS {
        let l = Layout {
            start,
            len,
            big,
            signed,
        };
        assert!(rt; usable(&l));
        assert_eq!(rt; get(&l, &FIRST), first, "{l:?}");
        assert_eq!(rt; get(&l, &SECOND), second, "{l:?}");

        assert!(rt; LEAST <= first && first <= GREATEST);
        let mut payload = [0; 8];
        put(&l, &mut payload, first);
        assert_eq!(rt; u64::from_be_bytes(payload), alone, "{l:?}");
        payload = SECOND;
        put(&l, &mut payload, first);
        assert_eq!(rt; get(&l, &payload), first, "{l:?}");
    }
}

#[test]
fn layouts_need_1_to_64_bits_in_the_payload(rt: HostRuntime) {
    for (start, len, big, is_usable) in [
        (0, 0, false, false),
        (0, 1, false, true),
        (0, 64, false, true),
        (0, 65, false, false),
        (1, 64, false, false),
        (63, 1, false, true),
        (63, 2, false, false),
        (64, 1, false, false),
        (7, 0, true, false),
        (7, 64, true, true),
        (7, 65, true, false),
        (6, 64, true, false),
        (56, 1, true, true),
        (56, 2, true, false),
        (63, 8, true, true),
        (63, 9, true, false),
        (64, 1, true, false),
        (65535, 65535, true, false),
    ] {
        let l = Layout {
            start,
            len,
            big,
            signed: false,
        };
        assert_eq!(rt; usable(&l), is_usable, "{l:?}");
    }
}
