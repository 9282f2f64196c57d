// What variables hold at first.

use check_names::Names;
use check_sorts::Constants;
use parser_tests::sources::undeclared;
use std::test::Fail;
use type_starts::first_values;

#[test]
fn no_variables_have_no_first_values(rt: HostRuntime) -> Result<(), Fail> {
    let alloc = rt.alloc();
    let program = undeclared(alloc);
    let named = Names::build(alloc, &program, None)?;
    let names = &named.names;
    let constants = Constants::build(alloc, names)?;
    let found = first_values(alloc, names, &constants)?;
    assert!(rt; found.is_empty());
    Ok(())
}
