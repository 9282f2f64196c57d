// Writing a piece whole.

ghost use Rattle.std.specs.Prelude.{OnOk, OnErr, IsOkUnless};
ghost use Rattle.std.specs.Io.KnownBytes.{Appends};
ghost use Rattle.sim_outside.specs.Writer.{AppendsBeginning};

use crate::sink::SinkRefusal;
use std::io;
use std::io::Write;

/// Writes the whole piece, by one write for each part that the writer takes.
///
/// The refusal is Failed, at the first error of the writer, or where it takes nothing of what is left.
#[tactic(auto, using(crate::proofs::Transfers::writes_further))]
pub fn write_whole<W: Write>(writer: &mut W, piece: &[u8]) -> Result<(), SinkRefusal>
    ensures ok { OnOk result (Appends (W.contents writer.old) (W.contents writer.new) piece.now) }
    ensures err { OnErr result (AppendsBeginning (W.contents writer.old) (W.contents writer.new) piece.now) }
    ensures only_failed { IsOkUnless result SinkRefusal.Failed }
{
    let mut sent = 0;
    while sent < piece.len() {
        let Ok(count) = writer.write(&piece[sent..]) else {
            return Err(SinkRefusal::Failed);
        };
        if count == 0 {
            return Err(SinkRefusal::Failed);
        }
        sent += count;
    }
    Ok(())
}
