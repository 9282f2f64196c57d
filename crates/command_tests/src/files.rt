// Files in memory.

use std::alloc::Global;
use std::test::Fail;
use texts::Text;

/// Adds a file to those that are there.
pub(crate) fn add_file(
    alloc: Global,
    held: &mut Vec<(Text, Vec<u8>)>,
    name: &[u8],
    bytes: &[u8],
) -> Result<(), Fail> {
    let name = Text::make(alloc, name)?;
    let bytes = Vec::from_slice(alloc, bytes)?;
    held.push((name, bytes))?;
    Ok(())
}
