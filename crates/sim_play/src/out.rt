// The only way to a sink.

ghost use Rattle.std.specs.Prelude.{◌≡◌, ◌≤◌, true, false, IsErrOf};
ghost use Rattle.texts.specs.Fault.{HasRisen};
ghost use Rattle.sim_outside.specs.Sink.{Writes};
ghost use Rattle.sim_play.specs.Out.{BeginsAnswer};

use sim_outside::{Sink, SinkRefusal};
use std::marker::Model;

/// A sink that is reached by an answer or by one run that is played, and in no other way. Contracts see it as
/// an `OutState`.
#[derive(Drop)]
pub struct Out<S> {
    pub(crate) sink: S,
    pub(crate) answered: bool,
    pub(crate) played: bool,
}

impl<S> Model for Out<S> {
    ghost use Rattle.sim_play.specs.Out.{OutState};

    ghost Value = { OutState S };

    ghost view = { λ out. record { sink = out.sink; answered = out.answered; played = out.played } };
}

impl<S> Out<S> {
    /// A sink to which nothing was written in this way.
    pub fn new(sink: S) -> Out<S>
        ensures { result ≡ record { sink = sink; answered = false; played = false } }
    {
        Out {
            sink,
            answered: false,
            played: false,
        }
    }

    /// The sink.
    pub fn sink(&self) -> &S
        ensures { result.now ≡ self.now.sink }
    {
        &self.sink
    }
}

impl<S: Sink> Out<S> {
    /// Writes a piece of an answer, where no run was played. The piece begins as no line of a run does.
    ///
    /// # Errors
    ///
    /// A beginning of the piece may be written. `Failed` comes only where the sink's faults rose in this
    /// call, and `NoMemory` only where nothing was written.
    pub fn answer(&mut self, piece: &[u8]) -> Result<(), SinkRefusal>
        requires not_played { self.old.played ≡ false }
        requires is_answer { BeginsAnswer piece.now }
        ensures grows { Writes (S.written self.old.sink) (S.written self.new.sink) piece.now result }
        ensures failed { IsErrOf result SinkRefusal.Failed →
            HasRisen (S.faults self.old.sink) (S.faults self.new.sink) }
        ensures no_memory { IsErrOf result SinkRefusal.NoMemory →
            S.written self.new.sink ≡ S.written self.old.sink }
        ensures faults_stay { S.faults self.old.sink ≤ S.faults self.new.sink }
        ensures answered { self.new.answered ≡ true }
        ensures not_played { self.new.played ≡ false }
    {
        self.answered = true;
        self.sink.write(piece)
    }
}
