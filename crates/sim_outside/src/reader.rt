// Reading a reader to its end.

ghost use Rattle.std.specs.Prelude.{◌≤◌, ◌<◌, IfOk, IfSome, OnOk, IsErrOf, length, vec_len};
ghost use Rattle.std.specs.Io.KnownBytes.{IsAtEnd};
ghost use Rattle.sim_outside.specs.Reader.{ReadsAll, TakesUpTo};

use crate::files::FileRefusal;
use std::alloc::Global;
use std::io;
use std::io::Read;

// How many bytes one read asks for at most.
const CHUNK: usize = 65536;

/// Reads all bytes that the reader has left, if there are at most `limit`. Takes memory linear in
/// them, and time linear in them and in the reads that it takes.
///
/// The refusal is TooLong where there are more, Failed at the first error of the reader, and NoMemory
/// where there is no memory for the bytes.
pub fn read_to_limit<R: Read>(
    reader: &mut R,
    alloc: Global,
    limit: usize,
) -> Result<Vec<u8>, FileRefusal>
    // Where the reader tells what it has left, the answer is true of it.
    ensures told { IfSome (R.remaining reader.old) (λ left. ReadsAll left limit result) }
    ensures within_limit { IfOk result (λ bytes. vec_len bytes ≤ limit) }
    ensures at_end { OnOk result (IsAtEnd (R.remaining reader.new)) }
    ensures takes { TakesUpTo (R.remaining reader.old) (R.remaining reader.new) limit }
    ensures never_missing { ¬ IsErrOf result FileRefusal.Missing }
{
    let mut chunk = vec![in alloc; 0; CHUNK].map_err(|_| FileRefusal::NoMemory)?;
    read_by_chunks(reader, &mut chunk, alloc, limit)
}

/// Does what [`read_to_limit`] does, by reads of at most the length of the chunk.
#[tactic(auto, using(crate::proofs::Transfers::takes_further))]
fn read_by_chunks<R: Read>(
    reader: &mut R,
    chunk: &mut [u8],
    alloc: Global,
    limit: usize,
) -> Result<Vec<u8>, FileRefusal>
    requires { 0 < length chunk.old }
    ensures told { IfSome (R.remaining reader.old) (λ left. ReadsAll left limit result) }
    ensures within_limit { IfOk result (λ bytes. vec_len bytes ≤ limit) }
    ensures at_end { OnOk result (IsAtEnd (R.remaining reader.new)) }
    ensures takes { TakesUpTo (R.remaining reader.old) (R.remaining reader.new) limit }
    ensures never_missing { ¬ IsErrOf result FileRefusal.Missing }
{
    let mut bytes = Vec::new(alloc);
    loop {
        let room = limit - bytes.len();
        let asked = room.min(chunk.len() - 1) + 1;
        let Ok(count) = reader.read(&mut chunk[..asked]) else {
            return Err(FileRefusal::Failed);
        };
        if count == 0 {
            return Ok(bytes);
        }
        if count > room {
            return Err(FileRefusal::TooLong);
        }
        bytes
            .extend_from_slice(&chunk[..count])
            .map_err(|_| FileRefusal::NoMemory)?;
    }
}
