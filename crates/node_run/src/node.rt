// A node.

ghost use Rattle.std.specs.Prelude.{◌≡◌, ◌+◌, ◌<◌, ◌≤◌, ◌^◌, ◌↔◌, ◌⊎◌, [], false, IsTrue, IsSome, IsNone, is_some, IfOk, IfSome, OnOk, OnErr, IsErrOf, IsOk, length, option_to_list, pos, replicate};
ghost use Rattle.std.specs.Option.{option_copied};
ghost use Rattle.run_records.specs.Record.{RecordFaultsRise};
ghost use Rattle.timer_queue.specs.Timers.{IsTimers, first_due, inactive};
ghost use Rattle.stack_vm.specs.Memory.{IsMemoryOf, StaysMemory, with_starts};
ghost use Rattle.node_rounds.specs.Effects.{halt_lines};
ghost use Rattle.node_rounds.specs.Reaction.{is_closed, next_due};
ghost use Rattle.node_rounds.specs.Round.{IsDone, at_begin, next_of};
ghost use Rattle.node_run.specs.Code.{cells_with_this};
ghost use Rattle.node_run.specs.Inside.Agenda.{IsNextTaken, IsPlan};

use crate::agenda::Agenda;
use crate::procedures::Procedures;
use crate::task::run_handler;
use bytecode::Verified;
use can_bus::Bus;
use node_rounds::{Occurrence, Round, Seen, Trigger};
use run_effects::{Outcome, TrapKind};
use run_records::Record;
use stack_vm::{Memory, Meter};
use std::alloc::Global;
use std::marker::Model;
use texts::NoMemory;
use timer_queue::TimerQueue;
use vm_host::RecordFault;

/// How a task ended.
#[derive(Clone, Copy, Debug, PartialEq, Eq)]
pub struct TaskEnd {
    /// Whether the task asked to stop the measurement.
    pub stop: bool,
}

/// Why a task was not done to its end.
#[derive(Clone, Copy, Debug, PartialEq, Eq)]
pub enum TaskFault {
    /// What the record writes to failed.
    Record,
    /// There was no memory.
    NoMemory,
}

impl From<RecordFault> for TaskFault {
    ghost use Rattle.node_run.specs.Inside.Fault.{IsTaskFault};

    ghost from_gives = { IsTaskFault };

    fn from(fault: RecordFault) -> TaskFault {
        match fault {
            RecordFault::Sink => TaskFault::Record,
            RecordFault::NoMemory => TaskFault::NoMemory,
        }
    }
}

/// A node that runs its code. Contracts see it as a `NodeInRound`.
#[derive(Drop)]
pub struct Node {
    alloc: Global,
    procedures: Procedures,
    memory: Memory,
    timers: TimerQueue,
    first_row: usize,
    turns: u64,
    is_halted: bool,
    moment: u64,
    rest: Agenda,
}

impl Model for Node {
    ghost use Rattle.node_run.specs.Node.{NodeInRound};
    ghost use Rattle.node_run.specs.Inside.NodeFields.{IsNode};

    ghost Value = { NodeInRound };

    ghost view = { λ node. record {
      first_row = node.first_row;
      moment = node.moment;
      doing = record {
        node = record {
          memory = record { code = node.procedures; cells = node.memory.cells; turns = node.turns };
          timers = node.timers;
          is_halted = node.is_halted;
        };
        rest = node.rest;
      };
    } };

    ghost invariant = { λ n. IsNode n.procedures n.memory n.timers n.first_row n.moment n.rest };
}

impl Node {
    ghost use Rattle.node_run.specs.Code.{code_reaction};
    ghost use Rattle.node_run.specs.Node.{DoesTask, HasQuietTask, HasRows, IsTaskRefused, loaded};
    ghost use Rattle.node_run.specs.Sound.{IsSound};

    /// A node that runs this code: not halted, with the initial values in its cells, no active timer, and
    /// nothing to do. The rows of its handlers in a meter stand from `first_row` on, and each of its tasks
    /// has so many turns.
    ///
    /// Takes memory linear in the code, and time too, but for a sort of the selectors of its handlers.
    pub fn load(
        alloc: Global,
        code: Verified,
        first_row: usize,
        turns: u64,
    ) -> Result<Node, NoMemory>
        requires rows { first_row + length code.handlers < 2 ^ 64 }
        ensures loaded { IfOk result (λ node. node ≡ loaded code first_row turns) }
        ensures sound { IfOk result (λ node. IsSound node.doing.node) }
    {
        let room = room_of(alloc, &code)?;
        let procedures = Procedures::of_code(alloc, code)?;
        Ok(Node {
            alloc,
            procedures,
            memory: room.memory,
            timers: room.timers,
            first_row,
            turns,
            is_halted: false,
            moment: 0,
            rest: Agenda::empty(alloc),
        })
    }

    /// Begins a round at a moment of at most 2^63 microseconds, with the frame that the node sees and the
    /// keys that are pressed. No task of the round is done yet, and none was left of the one before.
    ///
    /// A frame counts in the round of a moment alone, and keys there and in the round of the start. Takes
    /// time linear in the keys, beside that in the handlers where the round runs all of a kind, and that of
    /// a choice (`Selectors::choose`) where a frame is seen. Takes memory linear in the handlers and the
    /// keys. Where there is none, nothing changes.
    pub fn begin(
        &mut self,
        round: Round,
        now: u64,
        seen: Option<Seen>,
        keys: &[u8],
    ) -> Result<(), NoMemory>
        requires done { IsDone code_reaction self.old.moment self.old.doing }
        requires in_time { now ≤ 2 ^ 63 }
        ensures begun { OnOk result (self.new ≡ record self.old {
          moment = now;
          doing = at_begin code_reaction round seen keys.now self.old.doing.node;
        }) }
        ensures refused { OnErr result (self.new ≡ self.old) }
    {
        self.rest = Agenda::of_round(self.alloc, &self.procedures, round, seen, keys)?;
        self.moment = now;
        Ok(())
    }

    /// Whether the node has a further task in this round.
    pub fn has_task(&self) -> bool
        ensures left { IsTrue result ↔ IsSome (next_of code_reaction self.now.moment self.now.doing) }
        ensures done { result ≡ false → IsDone code_reaction self.now.moment self.now.doing }
    {
        if self.is_halted {
            return false;
        }
        if !self.rest.first.is_empty() || !self.rest.last.is_empty() {
            return true;
        }
        self.rest.asks_timers && is_due(&self.timers, self.moment)
    }

    /// The least moment at which a timer of the node is due, or `None` exactly where the node is halted or
    /// has no active timer.
    pub fn next_due(&self) -> Option<u64>
        ensures least { result ≡ next_due code_reaction self.now.doing.node }
        ensures none { IsNone result ↔
            (IsTrue self.now.doing.node.is_halted ⊎ (self.now.doing.node.timers.settings ≡ [])) }
    {
        if self.is_halted {
            return None;
        }
        self.timers.next_due()
    }

    /// Whether the node is halted: a trap or the limit of turns ended a task.
    pub fn halted(&self) -> bool
        ensures { result ≡ self.now.doing.node.is_halted }
    {
        self.is_halted
    }

    /// The code that the node was loaded with.
    pub fn code(&self) -> &Verified
        ensures { result.now ≡ self.now.doing.node.memory.code }
    {
        self.procedures.code()
    }

    /// The cells of the node.
    pub fn cells(&self) -> &[i128]
        ensures { result.now ≡ self.now.doing.node.memory.cells }
    {
        self.memory.cells()
    }

    /// Does the next task of the node, under its number: gives its lines to the record and its requests to
    /// the bus, adds its run to the meter, and answers whether it asked to stop the measurement.
    ///
    /// Beside that of the run it takes time as a timer does that fires, where one does. It takes memory as
    /// the run does: none for a quiet procedure, which with the functions that it calls has no line to write
    /// and no frame to send, so that its task is done to its end where it does not halt the node.
    ///
    /// # Errors
    ///
    /// The record then has taken the first lines of the task and maybe refused the next one, and no other,
    /// and the meter has at most the task's run. `Record` comes only where the record's faults rose in this
    /// call.
    pub fn do_task<B: Bus, R: Record>(
        &mut self,
        number: u32,
        bus: &mut B,
        into: &mut R,
        meter: &mut Meter,
    ) -> Result<TaskEnd, TaskFault>
        requires has_task { IsSome (next_of code_reaction self.old.moment self.old.doing) }
        requires rows { HasRows meter.old self.old }
        requires serves { number < B.meaning.nodes bus.old }
        ensures does { IfOk result (λ end. DoesTask B.meaning.after_request R.meaning number
            self.old bus.old into.old meter.old end.stop self.new bus.new into.new meter.new) }
        ensures refused { OnErr result (IsTaskRefused R.meaning number
            self.old into.old into.new meter.old meter.new) }
        ensures quiet { HasQuietTask self.old → IsOk result }
        ensures fault { IsErrOf result TaskFault.Record → RecordFaultsRise R.meaning into.old into.new }
        ensures faults_stay { R.meaning.faults into.old ≤ R.meaning.faults into.new }
        ensures code_stays { self.new.doing.node.memory.code ≡ self.old.doing.node.memory.code }
        ensures row_stays { self.new.first_row ≡ self.old.first_row }
        ensures as_many_rows { length meter.new ≡ length meter.old }
        ensures sound { IsSound self.new.doing.node }
    {
        let now = self.moment;
        let trigger = take_next(&mut self.rest, &mut self.timers, &self.procedures, now).unwrap();
        let Some(handler) = trigger.procedure else {
            return Ok(TaskEnd { stop: false });
        };
        set_this(&mut self.memory, &trigger.occurrence, now);
        let closed = is_closed(&trigger.occurrence);
        let row = self.first_row + handler as usize;
        let (outcome, stop) = run_handler(
            self.procedures.code(),
            handler,
            &mut self.memory,
            &mut self.timers,
            self.turns,
            number,
            now,
            closed,
            bus,
            into,
            meter,
            row,
        )?;
        if let Some(text) = halt_text(outcome) {
            self.is_halted = true;
            into.line(now, number, text)?;
        }
        Ok(TaskEnd { stop })
    }
}

/// What the code of a node runs in.
#[derive(Drop)]
struct Room {
    /// The memory of its runs.
    memory: Memory,
    /// Its timers.
    timers: TimerQueue,
}

/// The room of this code, none of its timers being active.
fn room_of(alloc: Global, code: &Verified) -> Result<Room, NoMemory>
    ensures cells { IfOk result (λ room.
        room.memory.cells ≡ with_starts (replicate (length code.now.cells) (pos 0)) code.now.starts) }
    ensures memory { IfOk result (λ room. IsMemoryOf code.now room.memory) }
    ensures timers { IfOk result (λ room. room.timers ≡ inactive (length code.now.timers)) }
    ensures numbered { length code.now.handlers < 2 ^ 32 }
{
    let timers = TimerQueue::make(alloc, code.code().timers.len() as u32)?;
    let memory = Memory::make(alloc, code)?;
    Ok(Room { memory, timers })
}

/// Whether a timer is due at a moment.
fn is_due(timers: &TimerQueue, now: u64) -> bool
    ensures { result ≡ is_some (first_due timers.now.settings now) }
{
    match timers.next_due() {
        Some(due) => due <= now,
        None => false,
    }
}

/// Takes the next trigger of what is left, where the node is not halted. A due timer fires.
fn take_next(
    rest: &mut Agenda,
    timers: &mut TimerQueue,
    procedures: &Procedures,
    now: u64,
) -> Option<Trigger>
    requires in_time { now ≤ 2 ^ 63 }
    requires planned { IsPlan (length procedures.now.handlers) rest.old }
    ensures next { IsNextTaken procedures.now.handlers rest.old timers.old now result rest.new timers.new }
    ensures planned { IsPlan (length procedures.now.handlers) rest.new }
    ensures as_many { timers.new.count ≡ timers.old.count }
    ensures valid { IsTimers timers.old → IsTimers timers.new }
    ensures exists { IfSome result (λ trigger.
        IfSome trigger.procedure (λ handler. handler < length procedures.now.handlers)) }
{
    let first = rest.first.pop_front();
    if first.is_some() {
        return first;
    }
    if rest.asks_timers
        && let Some(timer) = timers.take_due(now)
    {
        return Some(Trigger {
            occurrence: Occurrence::Timer(timer),
            procedure: procedures.for_timer(timer),
        });
    }
    rest.last.pop_front()
}

/// Sets `this` to an occurrence at a moment.
fn set_this(memory: &mut Memory, occurrence: &Occurrence, now: u64)
    ensures cells { memory.new.cells ≡ cells_with_this occurrence.now now memory.old.cells }
    ensures stays { StaysMemory memory.old memory.new }
{
    match occurrence {
        Occurrence::Frame(seen) => memory.set_frame(&seen.frame, seen.sent, now),
        Occurrence::Key(key) => memory.set_key(*key),
        Occurrence::PreStart | Occurrence::Start | Occurrence::Stop | Occurrence::Timer(_) => {}
    }
}

/// Whether nothing goes to the bus or to timers any more.
fn is_closed(occurrence: &Occurrence) -> bool
    ensures { result ≡ is_closed occurrence.now }
{
    match occurrence {
        Occurrence::Stop => true,
        Occurrence::PreStart
        | Occurrence::Start
        | Occurrence::Frame(_)
        | Occurrence::Timer(_)
        | Occurrence::Key(_) => false,
    }
}

/// The line that tells that a run halted its node, where it did.
fn halt_text(outcome: Outcome) -> Option<&'static [u8]>
    ensures { halt_lines outcome ≡ option_to_list (option_copied result) }
{
    match outcome {
        Outcome::Done => None,
        Outcome::Trapped(TrapKind::ZeroDivisor) => Some(b"trap zero divisor"),
        Outcome::Trapped(TrapKind::Index) => Some(b"trap index"),
        Outcome::Cut => Some(b"turn limit"),
    }
}
