// Choices among selectors of all ranks.

use can_frame::{Frame, Ident};
use msg_select::{MessageSelector, Selectors};
use std::test::Fail;

// `on message *`, then a range, then two identifiers with one number, the extended one first.
const LIST: [MessageSelector; 4] = [
    MessageSelector {
        rank: 2,
        low: 0,
        high: 0xFFFF_FFFF,
        handler: 0,
    },
    MessageSelector {
        rank: 1,
        low: 0x100,
        high: 0x1FF,
        handler: 1,
    },
    MessageSelector {
        rank: 0,
        low: 0x8000_0100,
        high: 0x8000_0100,
        handler: 2,
    },
    MessageSelector {
        rank: 0,
        low: 0x100,
        high: 0x100,
        handler: 3,
    },
];

#[test]
fn the_least_rank_that_holds_the_key(rt: HostRuntime) -> Result<(), Fail> {
    let alloc = rt.alloc();
    let selectors = Selectors::build(alloc, &LIST).ok().ok_or("no memory")?;
    let identifiers = Selectors::build(alloc, &LIST[1..]).ok().ok_or("no memory")?;
    for (ident, handler) in [
        (Ident::Std(0x100), Some(3)),
        (Ident::Ext(0x100), Some(2)),
        (Ident::Std(0x1FF), Some(1)),
        (Ident::Std(0x200), None),
        (Ident::Ext(0x101), None),
    ] {
        let frame = Frame::make(ident, false, 0, [0; 8], 1).ok_or("a frame")?;
        assert_eq!(rt; identifiers.choose(&frame).is_some(), handler.is_some());
        assert_eq!(rt; selectors.choose(&frame), Some(handler.unwrap_or(0)));
    }
    Ok(())
}
