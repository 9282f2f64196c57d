// Message variables as cells.

use int_kinds::Kind;
use message_cells::{MESSAGE_KINDS, begin_with_event, is_message, laws};
use std::test::Fail;

#[test]
fn an_event_is_a_message_and_a_key(rt: HostRuntime) -> Result<(), Fail> {
    let mut kinds = MESSAGE_KINDS.to_vec(rt.alloc())?;
    assert!(rt; is_message(&kinds, 0));
    assert!(rt; !is_message(&kinds, 1));
    assert!(rt; !begin_with_event(&kinds));
    kinds.push(Kind::Char)?;
    assert!(rt; begin_with_event(&kinds));
    Ok(())
}

#[test]
fn laws_can_be_called() {
    laws::kinds_are_those_of_the_definition();
    laws::a_message_names_the_identifier_of_its_frame();
}
