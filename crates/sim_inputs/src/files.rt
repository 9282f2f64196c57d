// Reading one file.

ghost use Rattle.std.specs.Prelude.{◌≡◌, ◌≤◌, IfOk, IfSome, IsErrOf, vec_len};
ghost use Rattle.texts.specs.Fault.{HasRisen};
ghost use Rattle.sim_inputs.specs.Accepted.{Holds, IsFileBlame};
ghost use Rattle.input_refusals.specs.Agreement.{Agrees};

use crate::rules::{MISSING, TOO_LONG};
use input_refusals::{InputRefusal, blamed_file};
use sim_outside::{FileRefusal, Files};
use std::alloc::Global;
use texts::Text;

/// The bytes of the file of this name, which may have so many.
pub(crate) fn read_text<F: Files>(
    alloc: Global,
    name: &Text,
    limit: usize,
    files: &mut F,
) -> Result<Vec<u8>, InputRefusal>
    ensures told { IfSome (F.held files.old) (λ contents.
        Agrees (λ text. Holds contents limit name.now text.items)
        (IsFileBlame contents limit name.now) result) }
    ensures short { IfOk result (λ text. vec_len text ≤ limit) }
    ensures failed { IsErrOf result InputRefusal.Failed → HasRisen (F.faults files.old) (F.faults files.new) }
    ensures faults_stay { F.faults files.old ≤ F.faults files.new }
    ensures contents_stay { F.held files.new ≡ F.held files.old }
{
    match files.read(alloc, name, limit) {
        Ok(text) => Ok(text),
        Err(FileRefusal::Missing) => Err(blamed_file(alloc, name, MISSING)),
        Err(FileRefusal::TooLong) => Err(blamed_file(alloc, name, TOO_LONG)),
        Err(FileRefusal::Failed) => Err(InputRefusal::Failed),
        Err(FileRefusal::NoMemory) => Err(InputRefusal::NoMemory),
    }
}
