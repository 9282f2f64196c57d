// The names of included files.

ghost use Rattle.std.specs.Prelude.{◌≡◌, IfOk};
ghost use Rattle.std.specs.List.{list_all};
ghost use Rattle.capl_include.specs.Expansion.{with_slashes, included_name, is_shown, is_included_name};

use sim_outside::beside;
use std::alloc::Global;
use texts::{NoMemory, Text};

/// The most bytes that the name of an included file may have, its folder's included.
const NAME_LIMIT: usize = 255;

/// The name of the file that the file `naming` includes by the name `own`: a `\` in it counts as `/`.
pub(crate) fn included_name(alloc: Global, naming: &[u8], own: &[u8]) -> Result<Text, NoMemory>
    ensures { IfOk result (λ name. name ≡ included_name naming.now own.now) }
{
    let own = with_slashes(alloc, own)?;
    beside(alloc, naming, &own)
}

/// The bytes with `/` for each `\`.
fn with_slashes(alloc: Global, bytes: &[u8]) -> Result<Vec<u8>, NoMemory>
    ensures { IfOk result (λ copy. copy.items ≡ with_slashes bytes.now) }
{
    let mut copy = Vec::with_capacity(alloc, bytes.len())?;
    for byte in bytes {
        copy.push(if *byte == b'\\' { b'/' } else { *byte })?;
    }
    Ok(copy)
}

/// Whether a file may be included by the name `own` where its joined name is this one: `own` is not
/// empty, and the joined name has at most 255 bytes, each from 32 to 126.
pub(crate) fn is_included_name(own: &[u8], name: &[u8]) -> bool
    ensures { result ≡ is_included_name own.now name.now }
{
    !own.is_empty() && name.len() <= NAME_LIMIT && are_shown(name)
}

/// Whether each byte is one of 32 to 126.
fn are_shown(bytes: &[u8]) -> bool
    ensures { result ≡ list_all is_shown bytes.now }
{
    bytes.iter().all(|byte| (32..=126).contains(byte))
}
