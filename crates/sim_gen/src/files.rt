// A generated scenario as files.

ghost use Rattle.std.specs.Prelude.{◌≡◌, ◌-◌, ◌^◌, ◌≤◌, ℕ, List, Option, IfOk, IfSome, IsErrOf, vec_len};
ghost use Rattle.std.specs.Option.{option_map};
ghost use Rattle.sim_outside.specs.Files.{AgreesWith};
ghost use Rattle.sim_gen.specs.Generated.{made_contents, source_text};
ghost use Rattle.texts.specs.Fault.{HasRisen, raised};

use crate::generated::{Made, Source};
use sim_outside::{FileRefusal, Files};
use std::alloc::Global;
use texts::Text;

/// The name of a generated scenario among its files.
pub const SCENARIO_NAME: &str = "gen";

/// The scenario and its sources are files that tell what they hold. No read of them fails; none is counted.
impl Files for Made {
    ghost use Rattle.std.specs.Prelude.{Some, ◌-◌, ◌^◌};
    ghost use Rattle.sim_gen.specs.Generated.{made_contents};

    ghost held = { λ made. Some (made_contents made) };

    ghost faults = { λ _. 0 };

    ghost reads = { λ _. 2 ^ 64 - 1 };

    fn read(&mut self, alloc: Global, name: &Text, limit: usize) -> Result<Vec<u8>, FileRefusal> {
        let Some(text) = text_of(self, name.bytes()) else {
            return Err(FileRefusal::Missing);
        };
        if text.len() > limit {
            return Err(FileRefusal::TooLong);
        }
        Vec::from_slice(alloc, text).map_err(|_| FileRefusal::NoMemory)
    }
}

/// What a name holds.
fn text_of<'a>(made: &'a Made, name: &[u8]) -> Option<&'a [u8]>
    ensures { option_map (λ text. text.now) result ≡ made_contents made.now name.now }
{
    if name == SCENARIO_NAME.as_bytes() {
        return Some(made.scenario.bytes());
    }
    source_text(made.sources.as_slice(), name)
}

/// The text of the first source of a name.
fn source_text<'a>(sources: &'a [Source], name: &[u8]) -> Option<&'a [u8]>
    ensures { option_map (λ text. text.now) result ≡ source_text sources.now name.now }
{
    for source in sources {
        if source.name.bytes() == name {
            return Some(source.text.bytes());
        }
    }
    None
}
