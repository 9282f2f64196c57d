// Names of files that another file names.

ghost use Rattle.std.specs.Prelude.{◌≡◌, IfOk};
ghost use Rattle.sim_outside.specs.Files.{beside, folder_of};

use memchr::memrchr;
use std::alloc::Global;
use texts::{NoMemory, Text};

/// The name under which a file is sought that the file `naming` names: `name`, put after `naming` up to
/// and with its last `/`, unless it begins with `/`. Takes time and memory linear in both.
pub fn beside(alloc: Global, naming: &[u8], name: &[u8]) -> Result<Text, NoMemory>
    ensures { IfOk result (λ joined. joined ≡ beside naming.now name.now) }
{
    if name.starts_with(b"/") {
        return Text::make(alloc, name);
    }
    let mut joined = Vec::from_slice(alloc, folder_of(naming))?;
    joined.extend_from_slice(name)?;
    Text::from_list(alloc, joined)
}

/// The name up to and with its last `/`, or nothing where it has none.
fn folder_of(name: &[u8]) -> &[u8]
    ensures { result.now ≡ folder_of name.now }
{
    match memrchr(b'/', name) {
        Some(place) => &name[..place + 1],
        None => &[],
    }
}
