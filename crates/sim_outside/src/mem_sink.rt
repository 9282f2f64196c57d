// A sink in memory, which fails where it is told to.

ghost use Rattle.std.specs.Prelude.{◌≡◌, ◌≤◌, ◌==◌, [], ◌++◌, Some, OnOk, OnErr, IsErrOf, IsOkUnless};
ghost use Rattle.std.specs.Map.{lookup};
ghost use Rattle.texts.specs.Fault.{HasRisen, raised};
ghost use Rattle.sim_outside.specs.Sink.{Writes};
ghost use Rattle.sim_outside.specs.MemSink.{kept_at, KeepsAtFault};

use crate::sink::{Sink, SinkRefusal};
use std::alloc::Global;
use std::marker::Model;

/// A sink in memory. It tells what was written.
#[derive(Debug, Drop)]
pub struct MemSink {
    written: Vec<u8>,
    failing: Vec<(u64, usize)>,
    next_call: u64,
    faults: u64,
}

impl Model for MemSink {
    ghost use Rattle.sim_outside.specs.MemSink.{SinkInMemory};

    ghost Value = { SinkInMemory };

    ghost view = { λ sink. record {
      written = sink.written.items;
      failing = sink.failing.items;
      next_call = sink.next_call;
      faults = sink.faults;
    } };
}

impl MemSink {
    /// An empty sink. The calls of `write` with the listed numbers, counted from 1, fail: each keeps
    /// the listed number of bytes of its piece, or all of a shorter one. Of two entries for one call
    /// the first counts. No fault is counted yet.
    pub fn new(alloc: Global, failing: Vec<(u64, usize)>) -> MemSink
        ensures { result ≡ record { written = []; failing = failing.items; next_call = 1; faults = 0 } }
    {
        MemSink {
            written: Vec::new(alloc),
            failing,
            next_call: 1,
            faults: 0,
        }
    }

    /// All bytes that were written.
    pub fn written(&self) -> &[u8]
        ensures { result.now ≡ self.now.written }
    {
        self.written.as_slice()
    }
}

impl Sink for MemSink {
    ghost use Rattle.std.specs.Prelude.{Some};

    ghost written = { λ sink. Some sink.written };

    ghost faults = { λ sink. sink.faults };

    fn write(&mut self, piece: &[u8]) -> Result<(), SinkRefusal>
        ensures grows { Writes (Some self.old.written) (Some self.new.written) piece.now result }
        ensures failed { IsErrOf result SinkRefusal.Failed → HasRisen self.old.faults self.new.faults }
        ensures no_memory { IsErrOf result SinkRefusal.NoMemory →
            Some self.new.written ≡ Some self.old.written }
        ensures faults_stay { self.old.faults ≤ self.new.faults }

        // It fails at the listed calls and nowhere else, after as many bytes as are listed there.
        ensures not_listed { OnOk result (kept_at self.old self.old.next_call ≡ None) }
        ensures listed { IsErrOf result SinkRefusal.Failed → KeepsAtFault self.old self.new piece.now }
        ensures uncounted { ¬ IsErrOf result SinkRefusal.Failed → self.new.faults ≡ self.old.faults }
        ensures next { self.new ≡ record self.old {
          written = self.new.written;
          next_call = raised self.old.next_call;
          faults = self.new.faults;
        } }
    {
        let call = self.next_call;
        self.next_call = call.saturating_add(1);
        let Some(kept) = find(&self.failing, call) else {
            return append(&mut self.written, piece);
        };
        append(&mut self.written, &piece[..kept.min(piece.len())])?;
        self.faults = self.faults.saturating_add(1);
        Err(SinkRefusal::Failed)
    }
}

/// How many bytes a call keeps, where it is listed.
fn find(failing: &[(u64, usize)], call: u64) -> Option<usize>
    ensures { result ≡ lookup (λ number. number == call) failing.now }
{
    for (number, kept) in failing {
        if *number == call {
            return Some(*kept);
        }
    }
    None
}

/// Puts the bytes at the end, or changes nothing.
fn append(written: &mut Vec<u8>, bytes: &[u8]) -> Result<(), SinkRefusal>
    ensures ok { OnOk result (written.new.items ≡ written.old.items ++ bytes.now) }
    ensures err { OnErr result (written.new.items ≡ written.old.items) }
    ensures only_memory { IsOkUnless result SinkRefusal.NoMemory }
{
    written
        .extend_from_slice(bytes)
        .map_err(|_| SinkRefusal::NoMemory)
}
