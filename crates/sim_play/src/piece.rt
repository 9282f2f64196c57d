// Writing a piece.

ghost use Rattle.std.specs.Prelude.{◌≡◌, ◌⊎◌, ◌≤◌, OnOk, OnErr, IsErrOf};
ghost use Rattle.texts.specs.Fault.{HasRisen};
ghost use Rattle.sim_outside.specs.Sink.{GrowsBy, GrowsByPrefix};

use sim_outside::{Sink, SinkRefusal};
use vm_host::RecordFault;

/// Writes a piece. Where it lacks memory, nothing was written.
pub(crate) fn write_piece<S: Sink>(sink: &mut S, piece: &[u8]) -> Result<(), RecordFault>
    ensures written { OnOk result (GrowsBy (S.written sink.old) (S.written sink.new) piece.now) }
    ensures refused { OnErr result (GrowsByPrefix (S.written sink.old) (S.written sink.new) piece.now) }
    ensures no_memory { IsErrOf result RecordFault.NoMemory → S.written sink.new ≡ S.written sink.old }
    ensures sink { IsErrOf result RecordFault.Sink → HasRisen (S.faults sink.old) (S.faults sink.new) }
    ensures faults_stay { S.faults sink.old ≤ S.faults sink.new }
{
    match sink.write(piece) {
        Ok(()) => Ok(()),
        Err(SinkRefusal::Failed) => Err(RecordFault::Sink),
        Err(SinkRefusal::NoMemory) => Err(RecordFault::NoMemory),
    }
}
