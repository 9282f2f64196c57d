// The first range that holds a key.

ghost use Rattle.std.specs.Prelude.{◌≡◌, ◌+◌, ◌≤◌, length, map, position};
ghost use Rattle.std.specs.List.{zip};
ghost use Rattle.std.specs.Simd.Lanes.{chunk, mask_l};
ghost use Rattle.lane_scan.specs.Ranges.{holds};
ghost use Rattle.lane_scan.specs.Inside.Ranges.{IsPassed};

use std::simd::prelude::*;

/// How many ranges are compared at once.
const LANES: usize = 16;

/// The first `place` with `lows[place] <= key <= highs[place]`, or `None` where no range holds the key.
/// The range at a place has the least number `lows[place]` and the greatest `highs[place]`.
pub fn first_in_ranges(lows: &[u32], highs: &[u32], key: u32) -> Option<usize>
    requires { length lows.now ≡ length highs.now }
    ensures { result ≡ position (holds key) (zip lows.now highs.now) }
{
    let passed = passed_by_lanes(lows, highs, key);
    for place in passed..lows.len() {
        if lows[place] <= key && key <= highs[place] {
            return Some(place);
        }
    }
    None
}

/// How many ranges stand before the first that holds the key in whole vectors, or as many as whole
/// vectors have.
fn passed_by_lanes(lows: &[u32], highs: &[u32], key: u32) -> usize
    requires { length lows.now ≡ length highs.now }
    ensures { IsPassed lows.now highs.now key result }
{
    let mut place = 0;
    while lows.len() - place >= LANES {
        let held = held_lanes(lows, highs, place, key);
        if held != 0 {
            return place + held.trailing_zeros() as usize;
        }
        place += LANES;
    }
    place
}

/// The ranges from the place on that hold the key, as bits: the range `k` places behind is bit `k`.
fn held_lanes(lows: &[u32], highs: &[u32], place: usize, key: u32) -> u64
    requires room { place + LANES ≤ length lows.now }
    requires same { length lows.now ≡ length highs.now }
    ensures { result ≡ mask_l (map (holds key) (chunk place LANES (zip lows.now highs.now))) }
{
    let keys = u32x16::splat(key);
    // The one is at least the key and the other at most, so they are equal where both are the key.
    let at_least = u32x16::from_slice(&lows[place..]).simd_max(keys);
    let at_most = u32x16::from_slice(&highs[place..]).simd_min(keys);
    at_least.simd_eq(at_most).to_bitmask()
}
