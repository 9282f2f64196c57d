// What no clause says: that lists and boxes are made where there is memory.

use items::{Boxed, Items};
use std::test::Fail;

#[test]
fn items_are_those_of_the_list(rt: HostRuntime) -> Result<(), Fail> {
    let alloc = rt.alloc();
    let none: Items<u8> = Items::new(alloc);
    assert!(rt; none.is_empty());
    let items = Items::from_list(vec![in alloc; 4u8, 5]?);
    assert_eq!(rt; items.len(), 2);
    assert!(rt; !items.is_empty());
    let copy = items.copy()?;
    assert_eq!(rt; items.as_slice(), [4, 5].as_slice());
    assert_eq!(rt; copy.into_list().as_slice(), [4, 5].as_slice());
    Ok(())
}

#[test]
fn boxes_hold_their_value(rt: HostRuntime) -> Result<(), Fail> {
    let boxed = Boxed::new(rt.alloc(), 4u8)?;
    assert_eq!(rt; *boxed.get(), 4);
    assert_eq!(rt; boxed.into_inner(), 4);
    Ok(())
}
