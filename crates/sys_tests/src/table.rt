// Values, notes, and merges.

use crate::variables::two_variables;
use std::process::Abort;
use std::test::Fail;
use sys_vars::SysTable;

/// Offers a value for a variable that there is.
fn offer(rt: &impl Abort, table: &mut SysTable, number: u32, value: i32) {
    assert!(rt; (number as usize) < table.values().len());
    table.offer(number, i128::from(value));
}

/// Whether a variable that there is was changed.
fn changed(rt: &impl Abort, table: &SysTable, number: u32) -> bool {
    assert!(rt; (number as usize) < table.values().len());
    table.changed(number)
}

#[test]
fn the_last_note_is_the_value(rt: HostRuntime) -> Result<(), Fail> {
    let alloc = rt.alloc();
    let items = two_variables(alloc, 0, 5)?;
    let mut table = SysTable::make(alloc, items.as_slice())?;
    assert!(rt; !changed(&rt, &table, 0));
    offer(&rt, &mut table, 0, 1);
    offer(&rt, &mut table, 0, 2);
    offer(&rt, &mut table, 0, 0);
    offer(&rt, &mut table, 1, 5);
    assert_eq!(rt; table.values(), [0, 5].as_slice());
    table.close();
    assert_eq!(rt; table.values(), [2, 5].as_slice());
    assert!(rt; changed(&rt, &table, 0) && !changed(&rt, &table, 1));
    table.close();
    assert!(rt; !changed(&rt, &table, 0));
    Ok(())
}
