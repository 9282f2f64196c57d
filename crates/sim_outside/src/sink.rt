// A sink that can be written to.

ghost use Rattle.std.specs.Prelude.{◌≡◌, ℕ, ◌≤◌, Option, List, IsErrOf};
ghost use Rattle.texts.specs.Fault.{HasRisen};
ghost use Rattle.sim_outside.specs.Sink.{Writes};

use texts::NoMemory;
use thiserror::Error;

/// Why a piece was not written whole.
#[derive(Debug, Drop, Error)]
pub enum SinkRefusal {
    /// Writing failed, maybe after some of the piece.
    #[error("writing failed")]
    Failed,
    /// There was no memory for the piece, and nothing of it was written.
    #[error("no memory")]
    NoMemory,
}

impl From<NoMemory> for SinkRefusal {
    ghost use Rattle.std.specs.Prelude.{◌≡◌};
    ghost use Rattle.sim_outside.specs.declared.sink.SinkRefusal.TheVariants.{NoMemory};

    ghost from_gives = { λ _ refusal. refusal ≡ NoMemory };

    fn from(_: NoMemory) -> SinkRefusal {
        SinkRefusal::NoMemory
    }
}

/// A sink for pieces of bytes.
pub trait Sink {
    /// All bytes that were written, where the sink tells it.
    ghost written: { Self → Option (List ℕ) };

    /// How many writes failed. At its type's end the count stands still.
    ghost faults: { Self → ℕ };

    /// Writes the piece at the end.
    fn write(&mut self, piece: &[u8]) -> Result<(), SinkRefusal>
        ensures grows { Writes (written self.old) (written self.new) piece.now result }
        ensures failed { IsErrOf result SinkRefusal.Failed → HasRisen (faults self.old) (faults self.new) }
        ensures no_memory { IsErrOf result SinkRefusal.NoMemory → written self.new ≡ written self.old }
        ensures faults_stay { faults self.old ≤ faults self.new };
}
