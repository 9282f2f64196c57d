// Files that can be read.

ghost use Rattle.std.specs.Prelude.{◌≡◌, ℕ, ◌≤◌, Option, List, IfOk, IfSome, IsErrOf, vec_len};
ghost use Rattle.texts.specs.Fault.{HasRisen, raised};
ghost use Rattle.sim_outside.specs.Files.{AgreesWith};

use std::alloc::Global;
use texts::Text;
use thiserror::Error;

/// Why a file was not read.
#[derive(Debug, Drop, Error)]
pub enum FileRefusal {
    /// There is no file of this name.
    #[error("no such file")]
    Missing,
    /// The file has more bytes than the limit.
    #[error("the file is too long")]
    TooLong,
    /// Reading failed.
    #[error("reading failed")]
    Failed,
    /// There was no memory for the bytes.
    #[error("no memory")]
    NoMemory,
}

/// Files that can be read by name.
pub trait Files {
    /// What each name holds, or that it holds nothing, where the files tell it.
    ghost held: { Self → Option (List ℕ → Option (List ℕ)) };

    /// How many reads failed. At its type's end the count stands still.
    ghost faults: { Self → ℕ };

    /// How many reads were asked for, counted from any number on. At its type's end the count stands still.
    ghost reads: { Self → ℕ };

    /// Reads the whole file of this name, if it has at most `limit` bytes. Takes time and memory
    /// linear in the bytes that are read, which are at most one more than the limit.
    fn read(&mut self, alloc: Global, name: &Text, limit: usize) -> Result<Vec<u8>, FileRefusal>
        // Where the contents are told, the answer is true of them.
        ensures told { IfSome (held self.old) (λ contents. AgreesWith contents name.now limit result) }
        ensures within_limit { IfOk result (λ bytes. vec_len bytes ≤ limit) }
        ensures failed { IsErrOf result FileRefusal.Failed → HasRisen (faults self.old) (faults self.new) }
        ensures faults_stay { faults self.old ≤ faults self.new }
        ensures contents_stay { held self.new ≡ held self.old }
        ensures asked { reads self.new ≡ raised (reads self.old) };
}
