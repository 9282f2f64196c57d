// Handlers that are sought one by one.

ghost use Rattle.std.specs.Prelude.{◌≡◌, ◌<◌, ◌^◌, length};
ghost use Rattle.node_run.specs.Code.{events_of};
ghost use Rattle.node_run.specs.Inside.Wanted.{is_wanted};
ghost use Rattle.node_rounds.specs.Procedures.{first_where};

use bytecode::Handler;
use run_effects::Event;

/// What a handler that is sought reacts to.
#[derive(Clone, Copy)]
pub(crate) enum Wanted {
    /// The measurement is about to begin.
    PreStart,
    /// The measurement begins.
    Start,
    /// The measurement has ended.
    Stop,
    /// Each key without a procedure of its own.
    AnyKey,
}

/// Whether a handler that reacts to an event is wanted.
pub(crate) fn is_wanted(wanted: Wanted, event: &Event) -> bool
    ensures { result ≡ is_wanted wanted event.now }
{
    match event {
        Event::PreStart => matches!(wanted, Wanted::PreStart),
        Event::Start => matches!(wanted, Wanted::Start),
        Event::Stop => matches!(wanted, Wanted::Stop),
        Event::Key(None) => matches!(wanted, Wanted::AnyKey),
        Event::Message(_) | Event::Timer(_) | Event::Key(Some(_)) => false,
    }
}

/// The number of the first handler that is wanted. Takes time linear in the handlers.
pub(crate) fn first_handler(handlers: &[Handler], wanted: Wanted) -> Option<u32>
    requires { length handlers.now < 2 ^ 32 }
    ensures { result ≡ first_where (is_wanted wanted) (events_of handlers.now) }
{
    let mut number = 0;
    for handler in handlers {
        if is_wanted(wanted, &handler.event) {
            return Some(number);
        }
        number += 1;
    }
    None
}
