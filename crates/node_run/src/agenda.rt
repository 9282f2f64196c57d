// What a node has left to do in a round.

ghost use Rattle.std.specs.Prelude.{◌≡◌, ◌++◌, ◌^◌, ◌<◌, [], length, IfOk, OnOk, option_to_list};
ghost use Rattle.node_run.specs.Code.{events_of};
ghost use Rattle.node_run.specs.Inside.Agenda.{triggers_of};
ghost use Rattle.node_run.specs.Inside.Wanted.{is_wanted};
ghost use Rattle.node_rounds.specs.Procedures.{numbers_where, procedures_for};
ghost use Rattle.node_rounds.specs.Round.{frame_triggers, key_triggers, nothing_left, rest_of, triggers};

use crate::procedures::Procedures;
use crate::wanted::{Wanted, is_wanted};
use bytecode::Handler;
use node_rounds::{Occurrence, Round, Seen, Trigger};
use std::alloc::Global;
use std::collections::VecDeque;
use std::marker::Model;
use texts::NoMemory;

/// What is left to do in a round. Contracts see it as a `Rest`.
#[derive(Drop)]
pub(crate) struct Agenda {
    pub(crate) first: VecDeque<Trigger>,
    pub(crate) asks_timers: bool,
    pub(crate) last: VecDeque<Trigger>,
}

impl Model for Agenda {
    ghost use Rattle.node_rounds.specs.Round.{Rest};

    ghost Value = { Rest };

    ghost view = { λ agenda. record {
      first = agenda.first.items;
      asks_timers = agenda.asks_timers;
      last = agenda.last.items;
    } };
}

impl Agenda {
    /// Nothing is left. Takes no memory.
    pub(crate) fn empty(alloc: Global) -> Agenda
        ensures { result ≡ nothing_left }
    {
        Agenda {
            first: VecDeque::new(alloc),
            asks_timers: false,
            last: VecDeque::new(alloc),
        }
    }

    /// What is to do in a round with the frame that is seen and the keys that are pressed.
    pub(crate) fn of_round(
        alloc: Global,
        procedures: &Procedures,
        round: Round,
        seen: Option<Seen>,
        keys: &[u8],
    ) -> Result<Agenda, NoMemory>
        ensures { IfOk result (λ agenda.
            agenda ≡ rest_of (procedures_for (events_of procedures.now.handlers)) round seen keys.now) }
    {
        let mut agenda = Agenda::empty(alloc);
        match round {
            Round::PreStart => add(&mut agenda.first, procedures, &Occurrence::PreStart)?,
            Round::Start => {
                add(&mut agenda.first, procedures, &Occurrence::Start)?;
                add_keys(&mut agenda.last, procedures, keys)?;
            }
            Round::Moment => {
                add_frame(&mut agenda.first, procedures, seen)?;
                agenda.asks_timers = true;
                add_keys(&mut agenda.last, procedures, keys)?;
            }
            Round::Stop => add(&mut agenda.first, procedures, &Occurrence::Stop)?,
        }
        Ok(agenda)
    }
}

/// Adds the frame that is seen, where there is one that has a procedure.
fn add_frame(
    list: &mut VecDeque<Trigger>,
    procedures: &Procedures,
    seen: Option<Seen>,
) -> Result<(), NoMemory>
    ensures { OnOk result (list.new.items ≡ list.old.items
        ++ frame_triggers (procedures_for (events_of procedures.now.handlers)) seen) }
{
    if let Some(seen) = seen {
        add(list, procedures, &Occurrence::Frame(seen))?;
    }
    Ok(())
}

/// Adds the keys that have a procedure.
fn add_keys(
    list: &mut VecDeque<Trigger>,
    procedures: &Procedures,
    keys: &[u8],
) -> Result<(), NoMemory>
    ensures { OnOk result (list.new.items ≡ list.old.items
        ++ key_triggers (procedures_for (events_of procedures.now.handlers)) keys.now) }
{
    for key in keys {
        add(list, procedures, &Occurrence::Key(*key))?;
    }
    Ok(())
}

/// Adds an occurrence with each of its procedures.
fn add(
    list: &mut VecDeque<Trigger>,
    procedures: &Procedures,
    occurrence: &Occurrence,
) -> Result<(), NoMemory>
    ensures { OnOk result (list.new.items
        ≡ list.old.items ++ triggers (procedures_for (events_of procedures.now.handlers)) occurrence.now) }
{
    match occurrence {
        Occurrence::PreStart => add_all(list, procedures.handlers(), Wanted::PreStart, occurrence)?,
        Occurrence::Start => add_all(list, procedures.handlers(), Wanted::Start, occurrence)?,
        Occurrence::Stop => add_all(list, procedures.handlers(), Wanted::Stop, occurrence)?,
        Occurrence::Frame(seen) => {
            let number = procedures.for_frame(&seen.frame);
            add_one(list, occurrence, number)?;
        }
        Occurrence::Timer(timer) => {
            let number = procedures.for_timer(*timer);
            add_one(list, occurrence, number)?;
        }
        Occurrence::Key(key) => {
            let number = procedures.for_key(*key);
            add_one(list, occurrence, number)?;
        }
    }
    Ok(())
}

/// Adds an occurrence with each procedure that is wanted, in order.
fn add_all(
    list: &mut VecDeque<Trigger>,
    handlers: &[Handler],
    wanted: Wanted,
    occurrence: &Occurrence,
) -> Result<(), NoMemory>
    requires { length handlers.now < 2 ^ 32 }
    ensures { OnOk result (list.new.items ≡ list.old.items
        ++ triggers_of occurrence.now (numbers_where (is_wanted wanted) 0 (events_of handlers.now))) }
{
    let mut number = 0;
    for handler in handlers {
        if is_wanted(wanted, &handler.event) {
            add_one(list, occurrence, Some(number))?;
        }
        number += 1;
    }
    Ok(())
}

/// Adds an occurrence with a procedure, if there is one.
fn add_one(
    list: &mut VecDeque<Trigger>,
    occurrence: &Occurrence,
    procedure: Option<u32>,
) -> Result<(), NoMemory>
    ensures { OnOk result (list.new.items
        ≡ list.old.items ++ triggers_of occurrence.now (option_to_list procedure)) }
{
    if procedure.is_some() {
        list.push_back(Trigger {
            occurrence: *occurrence,
            procedure,
        })?;
    }
    Ok(())
}
