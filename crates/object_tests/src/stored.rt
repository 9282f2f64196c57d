// A small text, and texts that differ from it in a few bytes.

use object_file::{LoadRefusal, laws, load, store};
use std::alloc::Global;
use std::test::Fail;

/// The text of code that on start writes `n -2`, spelled byte by byte from the page on formats.
const TEXT: [u8; 130] = [
    // The letters.
    b'C', b'A', b'P', b'L', b'O', b'B', b'J', b'1',
    // The 15 cells of the event: their kinds, of which the last is char.
    15, 0, 0, 0, 2, 0, 0, 1, 0, 2, 0, 0, 0, 0, 0, 0, 0, 0, 7,
    // No initial values and no timers.
    0, 0, 0, 0, 0, 0, 0, 0,
    // One format: its text, and one argument, which is a number of the kind long.
    1, 0, 0, 0, 4, 0, 0, 0, b'n', b' ', b'%', b'd', 1, 0, 0, 0, 0, 5,
    // One function, from place 0 to place 3, that gives nothing.
    1, 0, 0, 0, 0, 0, 0, 0, 3, 0, 0, 0, 0,
    // One event procedure: on start it runs function 0; it stands in file 0 on line 3.
    1, 0, 0, 0, 1, 0, 0, 0, 0, 0, 0, 0, 0, 3, 0, 0, 0,
    // Three instructions: the number -2, the line of format 0, the end.
    3, 0, 0, 0, 0, 254, 255, 255, 255, 255, 255, 255, 255, 255, 255, 255, 255, 255, 255, 255, 255,
    25, 0, 0, 0, 0, 24,
    // Their depths.
    3, 0, 0, 0, 0, 0, 0, 0, 1, 0, 0, 0, 0, 0, 0, 0,
    // A list of nothing.
    0, 0, 0, 0,
];

/// Why the text is not loaded with another byte at a place.
fn refusal_with(alloc: Global, place: usize, byte: u8) -> Result<Option<LoadRefusal>, Fail> {
    let mut bytes = Vec::from_slice(alloc, &TEXT)?;
    if place >= bytes.len() {
        return Err("there is no such place".into());
    }
    bytes[place] = byte;
    Ok(load(alloc, &bytes).err())
}

#[test]
fn a_text_that_is_loaded_is_stored_again(rt: HostRuntime) -> Result<(), Fail> {
    let Ok(verified) = load(rt.alloc(), &TEXT) else {
        return Err("the text is not loaded".into());
    };
    assert_eq!(rt; verified.code().instrs.len(), 3);
    let bytes = store(rt.alloc(), &verified)?;
    assert_eq!(rt; bytes.as_slice(), TEXT.as_slice());
    laws::one_code();
    laws::no_rule_fails();
    Ok(())
}

#[test]
fn bytes_behind_the_last_list_are_bad(rt: HostRuntime) -> Result<(), Fail> {
    let mut bytes = Vec::from_slice(rt.alloc(), &TEXT)?;
    bytes.push(0)?;
    assert_eq!(rt; load(rt.alloc(), &bytes).err(), Some(LoadRefusal::Bad));
    assert_eq!(rt;
        load(rt.alloc(), &TEXT[..129]).err(),
        Some(LoadRefusal::Bad)
    );
    Ok(())
}

// The count of the instructions stands at place 83.
#[test]
fn a_count_of_more_instructions_than_bytes_is_bad(rt: HostRuntime) -> Result<(), Fail> {
    let mut bytes = Vec::from_slice(rt.alloc(), &TEXT[..83])?;
    bytes.extend_from_slice(&0xFFFF_FFFFu32.to_le_bytes())?;
    bytes.extend_from_slice(&TEXT[87..])?;
    assert_eq!(rt; load(rt.alloc(), &bytes).err(), Some(LoadRefusal::Bad));
    Ok(())
}

// The first letter; the count of the cells as 2^24 more; a kind; the code of the format, which no
// code of formats has; its argument's tag; the truth value of the function; an event; an instruction.
#[test]
fn other_bytes_are_the_text_of_no_code(rt: HostRuntime) -> Result<(), Fail> {
    let changes = [
        (0, b'B'),
        (11, 1),
        (12, 8),
        (46, b'q'),
        (51, 3),
        (65, 2),
        (70, 6),
        (104, 33),
    ];
    for (place, byte) in changes {
        let refusal = refusal_with(rt.alloc(), place, byte)?;
        assert_eq!(rt; refusal, Some(LoadRefusal::Bad));
    }
    Ok(())
}

// The depth of the first instruction, and of the second; the end of the function.
#[test]
fn code_that_is_not_verified_is_refused_at_its_first_place(rt: HostRuntime) -> Result<(), Fail> {
    for (place, byte, first) in [(114, 1, 0), (118, 2, 0), (122, 1, 1), (61, 2, 3)] {
        let refusal = refusal_with(rt.alloc(), place, byte)?;
        assert_eq!(rt; refusal, Some(LoadRefusal::Unverified { place: first }));
    }
    Ok(())
}
