// What no clause says: that texts of each length are made and copied where there is memory.

use std::alloc::Global;
use std::test::Fail;
use texts::{NoMemory, Text};

// A text that is longer than one that lies beside the count of its copies.
const LONG: [u8; 34] = *b"a name that is kept as a long list";

// How many bytes of it the texts have: the shortest and the longest of each way to keep them.
const COUNTS: [usize; 6] = [0, 14, 15, 32, 33, 34];

/// A copy of the text of these bytes.
fn made(alloc: Global, bytes: &[u8]) -> Result<Text, NoMemory> {
    let list = Vec::from_slice(alloc, bytes)?;
    let text = Text::from_list(alloc, list)?;
    text.copy()
}

#[test]
fn texts_of_each_length_and_their_copies_have_their_bytes(rt: HostRuntime) -> Result<(), Fail> {
    for count in COUNTS {
        let bytes = &LONG[..count];
        let text = made(rt.alloc(), bytes)?;
        assert_eq!(rt; text.bytes(), bytes);
    }
    Ok(())
}
