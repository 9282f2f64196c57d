// Runs of stack_vm over a host in memory, and its meter.

ghost use Rattle.std.specs.Prelude.{IfOk};
ghost use Rattle.bytecode.specs.Verified.{IsVerified};

use super::codes::{code, is_short};
use bytecode::{Instr, Verified, verify};
use can_frame::{Frame, Ident};
use int_kinds::{BinOp, Kind};
use run_effects::{Event, Outcome, TrapKind};
use stack_vm::{Memory, Meter, MeterRow, laws, run};
use std::alloc::Global;
use std::process::Abort;
use std::test::Fail;
use texts::NoMemory;
use vm_host::{Host, RecordFault};

/// A host with two timers at 1250 microseconds that keeps what it takes.
#[derive(Drop)]
struct Bench {
    text: Vec<u8>,
    lines_left: u32,
    frame: Option<Frame>,
    timer: Option<(u32, u64, bool)>,
    active: [bool; 2],
    stops: u32,
}

impl Host for Bench {
    ghost use Rattle.std.specs.Prelude.{false, ⊤};

    ghost meaning = { record {
      active_timers = λ host. host.active;
      moment = λ host. 1250;
      is_closed = λ host. false;
      faults = λ host. 0;
      takes = λ before effect after. ⊤;
      refuses = λ before effect after. ⊤;
    } };

    fn line(&mut self, text: &[u8]) -> Result<(), RecordFault> {
        if self.lines_left == 0 || self.text.extend_from_slice(text).is_err() {
            return Err(RecordFault::NoMemory);
        }
        self.lines_left -= 1;
        Ok(())
    }

    fn send(&mut self, f: &Frame) -> Result<(), NoMemory> {
        self.frame = Some(*f);
        Ok(())
    }

    fn stop(&mut self) {
        self.stops = self.stops.saturating_add(1);
    }

    fn set_timer(&mut self, timer: u32, micros: u64, cyclic: bool) {
        self.active[timer as usize] = true;
        self.timer = Some((timer, micros, cyclic));
    }

    fn cancel(&mut self, timer: u32) {
        self.active[timer as usize] = false;
    }

    fn active(&self, timer: u32) -> bool {
        self.active[timer as usize]
    }

    fn now(&self) -> u64 {
        1250
    }
}

/// A host that takes this many lines.
fn empty_bench(alloc: Global, lines: u32) -> Bench {
    Bench {
        text: Vec::new(alloc),
        lines_left: lines,
        frame: None,
        timer: None,
        active: [false, false],
        stops: 0,
    }
}

/// The code of these instructions and depths, verified.
fn verified(alloc: Global, instrs: &[Instr], depths: &[u32]) -> Result<Verified, Fail>
    ensures { IfOk result IsVerified }
{
    let code = code(alloc, instrs, depths, vec![in alloc; Event::Start]?)?;
    if !is_short(&code) {
        return Err("too long".into());
    }
    Ok(verify(alloc, code)?)
}

/// How a run ended, what is then in cell 15, and the row of its handler.
#[derive(Clone, Copy, Debug, PartialEq)]
struct Answer {
    ended: Result<Outcome, RecordFault>,
    cell: Option<i128>,
    row: Option<MeterRow>,
}

/// Runs code once, for the frame of a message that begins with these bytes, with three turns, and the second
/// row of a meter.
fn run_once(alloc: Global, code: &Verified, host: &mut Bench) -> Result<Answer, Fail> {
    if code.code().handlers.is_empty() || code.code().timers.len() > 2 {
        return Err("no handler, or a timer that the host lacks".into());
    }
    let frame = Frame::make(Ident::Std(0x123), false, 8, [1, 2, 0, 0, 0, 0, 0, 255], 1);
    let frame = frame.ok_or("a frame")?;
    let mut memory = Memory::make(alloc, code)?;
    memory.set_frame(&frame, false, 1230);
    memory.set_key(b'a');
    let mut meter = Meter::new(alloc);
    meter.open_rows(2)?;
    let ended = run(code, 0, &mut memory, host, 3, &mut meter, 1);
    Ok(Answer {
        ended,
        cell: memory.cells().get(15).copied(),
        row: meter.row(1),
    })
}

/// What code of these instructions and depths does.
fn answer_of(
    alloc: Global,
    instrs: &[Instr],
    depths: &[u32],
    host: &mut Bench,
) -> Result<Answer, Fail> {
    let code = verified(alloc, instrs, depths)?;
    run_once(alloc, &code, host)
}

/// An answer of one run, which ended so and left this number in cell 15.
fn once(ended: Outcome, cell: i128, turns: u64) -> Answer {
    Answer {
        ended: Ok(ended),
        cell: Some(cell),
        row: Some(MeterRow { runs: 1, turns }),
    }
}

#[test]
fn runs_end_as_their_instructions_say(rt: HostRuntime) -> Result<(), Fail> {
    let rows: [(&[Instr], &[u32], Answer); 3] = [
        // A sum wraps to its kind.
        (
            &[
                Instr::Push(2147483647),
                Instr::Push(1),
                Instr::Bin(BinOp::Add, Kind::Long),
                Instr::Store(15),
                Instr::Drop,
                Instr::Ret,
            ],
            &[0, 1, 2, 1, 1, 0],
            once(Outcome::Done, -2147483648, 0),
        ),
        // A loop is cut where no turn is left.
        (
            &[Instr::Push(1), Instr::Back(0), Instr::Ret],
            &[0, 1, 0],
            once(Outcome::Cut, 7, 3),
        ),
        // A division by zero ends the run.
        (
            &[
                Instr::Push(1),
                Instr::Push(0),
                Instr::Bin(BinOp::Div, Kind::Long),
                Instr::Drop,
                Instr::Ret,
            ],
            &[0, 1, 2, 1, 0],
            once(Outcome::Trapped(TrapKind::ZeroDivisor), 7, 0),
        ),
    ];
    for (instrs, depths, wanted) in rows {
        let mut host = empty_bench(rt.alloc(), 0);
        let found = answer_of(rt.alloc(), instrs, depths, &mut host)?;
        assert_eq!(rt; found, wanted, "{instrs:?}");
    }
    Ok(())
}

/// What an instruction does behind a copy of the event's message to cell 16, for a number on the stack.
fn answer_to(alloc: Global, instr: Instr, number: i128) -> Result<Answer, Fail> {
    let instrs = [
        Instr::Copy(16, 0),
        Instr::Push(number),
        instr,
        Instr::Store(15),
        Instr::Drop,
        Instr::Ret,
    ];
    let mut host = empty_bench(alloc, 0);
    answer_of(alloc, &instrs, &[0, 0, 1, 1, 1, 0], &mut host)
}

#[test]
fn cells_of_messages_are_read_and_written(rt: HostRuntime) -> Result<(), Fail> {
    let outside = Outcome::Trapped(TrapKind::Index);
    for (instr, number, ended, cell) in [
        (Instr::Bytes(Kind::Word, 0), 0, Outcome::Done, 0x0201),
        (Instr::Bytes(Kind::Byte, 0), 7, Outcome::Done, 255),
        (Instr::Bytes(Kind::Byte, 0), 8, outside, 7),
        (Instr::Bytes(Kind::Word, 0), 7, outside, 7),
        (Instr::Bytes(Kind::Byte, 16), 7, Outcome::Done, 255),
        (Instr::SetField(1, 16), 9, Outcome::Done, 8),
    ] {
        let found = answer_to(rt.alloc(), instr, number)?;
        assert_eq!(rt; found, once(ended, cell, 0), "{instr:?} of {number}");
    }
    Ok(())
}

/// The host took what the instructions of the next test do.
fn check_host(rt: &impl Abort, host: &Bench) {
    assert_eq!(rt; host.text.as_slice(), b"go".as_slice());
    assert_eq!(rt; host.timer, Some((1, 5_000_000, true)));
    assert_eq!(rt; host.active, [false, false]);
    assert_eq!(rt; host.stops, 1);
    let sent = host.frame.map(|frame| (frame.ident(), frame.payload()));
    assert_eq!(rt; sent, Some((Ident::Std(0x123), [1, 2, 0, 0, 0, 0, 0, 255])));
}

#[test]
fn the_host_takes_the_effects(rt: HostRuntime) -> Result<(), Fail> {
    let instrs = [
        Instr::Write(0),
        Instr::Push(5),
        Instr::Set(1, true),
        Instr::Active(1),
        Instr::Now,
        Instr::Bin(BinOp::Add, Kind::Long),
        Instr::Store(15),
        Instr::Drop,
        Instr::Cancel(1),
        Instr::Send(0),
        Instr::Stop,
        Instr::Ret,
    ];
    let depths = [0, 0, 1, 0, 1, 2, 1, 1, 0, 0, 0, 0];
    let mut host = empty_bench(rt.alloc(), 1);
    let found = answer_of(rt.alloc(), &instrs, &depths, &mut host)?;
    assert_eq!(rt; found, once(Outcome::Done, 126, 0));
    check_host(&rt, &host);
    Ok(())
}

#[test]
fn a_refused_line_ends_the_run(rt: HostRuntime) -> Result<(), Fail> {
    let instrs = [Instr::Write(0), Instr::Write(0), Instr::Ret];
    let mut host = empty_bench(rt.alloc(), 1);
    let found = answer_of(rt.alloc(), &instrs, &[0, 0, 0], &mut host)?;
    assert_eq!(rt; found.ended, Err(RecordFault::NoMemory));
    assert_eq!(rt; found.row, Some(MeterRow { runs: 0, turns: 0 }));
    assert_eq!(rt; host.text.as_slice(), b"go".as_slice());
    Ok(())
}

#[test]
fn laws_can_be_called() {
    laws::a_message_is_sent_as_its_frame();
}
