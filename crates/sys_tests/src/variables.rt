// Variables to test with.

ghost use Rattle.std.specs.Prelude.{All, IfOk};
ghost use Rattle.sys_vars.specs.Name.{HasLong};

use std::alloc::Global;
use std::test::Fail;
use sys_vars::SysItem;
use texts::Text;

/// A variable `SPACE::NAME`.
pub(crate) fn variable(
    alloc: Global,
    space: &[u8],
    name: &[u8],
    value: i32,
) -> Result<SysItem, Fail>
    ensures { IfOk result HasLong }
{
    Ok(SysItem {
        space: Text::make(alloc, space)?,
        name: Text::make(alloc, name)?,
        value: i128::from(value),
    })
}

/// The variables `A::x` and `B::y` with these values.
pub(crate) fn two_variables(alloc: Global, x: i32, y: i32) -> Result<Vec<SysItem>, Fail>
    ensures { IfOk result (λ items. All HasLong items.items) }
{
    let first = variable(alloc, b"A", b"x", x)?;
    let second = variable(alloc, b"B", b"y", y)?;
    let mut items = Vec::new(alloc);
    items.push(first)?;
    items.push(second)?;
    Ok(items)
}
