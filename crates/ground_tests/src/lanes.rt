// Scans of as many places as lanes have, and of one more or less.

use lane_scan::{all_hex, first_in_ranges};
use std::test::Fail;

// Ranges of one key each, so that only the last one holds the last key.
#[test]
fn the_last_of_many_ranges(rt: HostRuntime) -> Result<(), Fail> {
    for count in [0, 1, 7, 8, 9, 63, 64, 65] {
        let keys: Vec<u32> = (0..count).collect(rt.alloc())?;
        let last = keys.len().checked_sub(1);
        assert_eq!(rt;
            first_in_ranges(&keys, &keys, count.saturating_sub(1)),
            last
        );
        assert_eq!(rt; first_in_ranges(&keys, &keys, count), None);
    }
    Ok(())
}

// The first of two ranges that hold the key, and keys whose top bit is set.
#[test]
fn the_first_range_and_great_keys(rt: HostRuntime) {
    let lows = [0, 5, 0x8000_0000];
    let highs = [4, 0x7fff_ffff, 0xffff_ffff];
    assert_eq!(rt; first_in_ranges(&lows, &highs, 4), Some(0));
    assert_eq!(rt; first_in_ranges(&lows, &highs, 0x7fff_ffff), Some(1));
    assert_eq!(rt; first_in_ranges(&lows, &highs, 0xffff_ffff), Some(2));
    assert_eq!(rt;
        first_in_ranges(&[0; 16], &[0xffff_ffff; 16], 0x8000_0000),
        Some(0)
    );
}

#[test]
fn digits_and_a_last_byte_that_is_none(rt: HostRuntime) -> Result<(), Fail> {
    for count in [0, 1, 31, 32, 33, 100] {
        let mut bytes = vec![in rt.alloc(); b'F'; count]?;
        assert!(rt; all_hex(&bytes));
        if let Some(last) = bytes.last_mut() {
            *last = b'G';
            assert!(rt; !all_hex(&bytes));
        }
    }
    Ok(())
}
