// The writing of a blame.

ghost use Rattle.std.specs.Prelude.{◌≡◌, false, IsErrOf};
ghost use Rattle.texts.specs.Fault.{HasRisen};
ghost use Rattle.sim_outside.specs.Sink.{Writes};
ghost use Rattle.sim_text.specs.Lines.{blame_line};

use sim_outside::{Sink, SinkRefusal};
use sim_play::Out;
use sim_text::blame_line;
use std::alloc::Global;
use texts::Blame;

/// Writes the line of a blame, which begins with `r`.
pub(crate) fn write_blame<S: Sink>(
    alloc: Global,
    blame: &Blame,
    out: &mut Out<S>,
) -> Result<(), SinkRefusal>
    requires not_played { out.old.played ≡ false }
    ensures grows { Writes (S.written out.old.sink) (S.written out.new.sink) (blame_line blame.now) result }
    ensures failed { IsErrOf result SinkRefusal.Failed →
        HasRisen (S.faults out.old.sink) (S.faults out.new.sink) }
{
    let line = blame_line(alloc, blame)?;
    out.answer(line.bytes())
}
