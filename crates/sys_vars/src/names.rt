// Names made of the two names of a variable.

ghost use Rattle.std.specs.Prelude.{◌≡◌, ◌++◌, codes, IfOk};
ghost use Rattle.sys_vars.specs.Name.{timer_name, variable_name};

use std::alloc::Global;
use texts::{NoMemory, Text};

/// `SPACE::NAME`.
pub(crate) fn variable_name(alloc: Global, space: &[u8], name: &[u8]) -> Result<Text, NoMemory>
    ensures { IfOk result (λ text. text ≡ variable_name space.now name.now) }
{
    joined(alloc, b"", space, name)
}

/// `on SPACE::NAME`.
pub(crate) fn timer_name(alloc: Global, space: &[u8], name: &[u8]) -> Result<Text, NoMemory>
    ensures { IfOk result (λ text. text ≡ timer_name space.now name.now) }
{
    joined(alloc, b"on ", space, name)
}

/// `SPACE::NAME` behind some bytes.
fn joined(alloc: Global, front: &[u8], space: &[u8], name: &[u8]) -> Result<Text, NoMemory>
    ensures { IfOk result (λ text. text ≡ front.now ++ variable_name space.now name.now) }
{
    let mut bytes = Vec::new(alloc);
    bytes.extend_from_slice(front)?;
    bytes.extend_from_slice(space)?;
    bytes.extend_from_slice(b"::")?;
    bytes.extend_from_slice(name)?;
    Text::from_list(alloc, bytes)
}
