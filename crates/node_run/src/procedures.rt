// The procedures of a node, and which one an occurrence is for.

ghost use Rattle.std.specs.Prelude.{◌≡◌, ◌<◌, ◌^◌, IfOk, length};
ghost use Rattle.std.specs.Option.{option_or};
ghost use Rattle.can_frame.specs.Frame.{selection_key};
ghost use Rattle.bytecode.specs.Verified.{IsVerified};
ghost use Rattle.node_run.specs.Code.{events_of};
ghost use Rattle.node_rounds.specs.declared.occurrence.Occurrence.TheVariants as happens;
ghost use Rattle.node_rounds.specs.Procedures.{first_where, is_any_key, message_procedure, reacts_to};

use crate::tables::{Subject, messages_of, table_of};
use crate::wanted::{Wanted, first_handler};
use bytecode::{Handler, Verified};
use can_frame::Frame;
use msg_select::Selectors;
use std::alloc::Global;
use std::marker::Model;
use texts::NoMemory;

/// How many keys there are.
const KEYS: usize = 256;

/// Verified code with tables of its handlers, so that the one for a timer or a key is found at once.
/// Contracts see it as its code.
#[derive(Drop)]
pub(crate) struct Procedures {
    code: Verified,
    timers: Vec<Option<u32>>,
    keys: Vec<Option<u32>>,
    any_key: Option<u32>,
    messages: Selectors,
}

impl Model for Procedures {
    ghost use Rattle.bytecode.specs.declared.code.Code.{Code};

    ghost Value = { Code };

    ghost use Rattle.node_run.specs.Inside.Tables.{AreTables};

    ghost view = { λ procedures. procedures.code };

    ghost invariant = { AreTables };
}

impl Procedures {
    /// Tables of this code. Takes time and memory linear in the code, but for a sort of the selectors.
    pub(crate) fn of_code(alloc: Global, code: Verified) -> Result<Procedures, NoMemory>
        ensures { IfOk result (λ procedures. procedures ≡ code) }
    {
        let handlers = code.code().handlers.as_slice();
        let timers = table_of(alloc, handlers, Subject::Timers, code.code().timers.len())?;
        let keys = table_of(alloc, handlers, Subject::Keys, KEYS)?;
        let any_key = first_handler(handlers, Wanted::AnyKey);
        let messages = messages_of(alloc, handlers)?;
        Ok(Procedures {
            code,
            timers,
            keys,
            any_key,
            messages,
        })
    }

    /// The code.
    pub(crate) fn code(&self) -> &Verified
        ensures same { result.now ≡ self.now }
        ensures verified { IsVerified self.now }
    {
        &self.code
    }

    /// The handlers.
    pub(crate) fn handlers(&self) -> &[Handler]
        ensures handlers { result.now ≡ self.now.handlers }
        ensures numbered { length self.now.handlers < 2 ^ 32 }
    {
        self.code.code().handlers.as_slice()
    }

    /// The number of the handler for a timer.
    pub(crate) fn for_timer(&self, timer: u32) -> Option<u32>
        ensures { result
            ≡ first_where (reacts_to (happens.Timer timer)) (events_of self.now.handlers) }
    {
        *self.timers.get(timer as usize)?
    }

    /// The number of the handler for a key.
    pub(crate) fn for_key(&self, key: u8) -> Option<u32>
        ensures { result
            ≡ option_or (first_where (reacts_to (happens.Key key)) (events_of self.now.handlers))
            (first_where is_any_key (events_of self.now.handlers)) }
    {
        self.keys[key as usize].or(self.any_key)
    }

    /// The number of the handler for a frame. Takes the time of `Selectors::choose`.
    pub(crate) fn for_frame(&self, frame: &Frame) -> Option<u32>
        ensures { result
            ≡ message_procedure (events_of self.now.handlers) (selection_key frame.now.ident) }
    {
        self.messages.choose(frame)
    }
}
