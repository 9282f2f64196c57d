// A host over borrowed parts.

ghost use Rattle.std.specs.Prelude.{◌≡◌, ◌<◌, ◌≤◌, codes, length, OnOk};
ghost use Rattle.run_effects.specs.Effect.{Line};

use can_frame::{Frame, Ident};
use items::Items;
use run_effects::{Event, Selector};
use std::test::Fail;
use texts::NoMemory;
use vm_host::{Host, RecordFault};

/// How many effects were taken.
#[derive(Clone, Copy)]
struct Counts {
    lines: u32,
    others: u32,
}

impl Counts {
    /// Counts an effect that is no line.
    fn add(&mut self)
        ensures lines { self.new.lines ≡ self.old.lines }
        ensures more { self.old.others ≤ self.new.others }
    {
        self.others = self.others.saturating_add(1);
    }
}

/// A host with two timers that counts the effects it takes, in counts that it borrows.
#[derive(Drop)]
struct Counter<'a> {
    closed: bool,
    active: [bool; 2],
    counts: &'a mut Counts,
}

impl<'a> Host for Counter<'a> {
    ghost use Rattle.std.specs.Prelude.{◌≡◌, ◌≤◌};

    ghost meaning = { record {
      active_timers = λ host. host.active;
      moment = λ host. 1250;
      is_closed = λ host. host.closed;
      faults = λ host. 0;
      takes = λ before effect after. (after.counts.ghost_name ≡ before.counts.ghost_name)
          × (before.counts.now.lines ≤ after.counts.now.lines)
          × (before.counts.now.others ≤ after.counts.now.others);
      refuses = λ before effect after. after ≡ before;
    } };

    fn line(&mut self, text: &[u8]) -> Result<(), RecordFault> {
        if text.is_empty() {
            return Err(RecordFault::NoMemory);
        }
        self.counts.lines = self.counts.lines.saturating_add(1);
        Ok(())
    }

    fn send(&mut self, _f: &Frame) -> Result<(), NoMemory> {
        if !self.closed {
            self.counts.add();
        }
        Ok(())
    }

    fn stop(&mut self) {
        if !self.closed {
            self.counts.add();
        }
    }

    fn set_timer(&mut self, timer: u32, _micros: u64, _cyclic: bool) {
        if !self.closed {
            self.active[timer as usize] = true;
            self.counts.add();
        }
    }

    fn cancel(&mut self, timer: u32) {
        if !self.closed {
            self.active[timer as usize] = false;
            self.counts.add();
        }
    }

    fn active(&self, timer: u32) -> bool {
        self.active[timer as usize]
    }

    fn now(&self) -> u64 {
        1250
    }
}

/// Calls everything once, and says whether the timer was active between.
fn call_all<H: Host>(host: &mut H, frame: &Frame) -> Result<bool, RecordFault>
    requires { 1 < length (H.meaning.active_timers host.old) }
{
    host.line(b"go")?;
    host.set_timer(1, 1000, false);
    let was_active = host.active(1);
    host.cancel(1);
    host.send(frame)?;
    host.stop();
    Ok(was_active && host.now() > 0)
}

/// Writes one line.
fn write_go<H: Host>(host: &mut H) -> Result<(), RecordFault>
    ensures { OnOk result (H.meaning.takes host.old (Line (codes "go")) host.new) }
{
    host.line(b"go")
}

/// Writes one line on a host that borrows these counts.
fn count_line(counts: &mut Counts) -> Result<(), RecordFault>
    ensures { OnOk result (counts.old.lines ≤ counts.new.lines) }
{
    let mut host = Counter {
        closed: false,
        active: [false, false],
        counts,
    };
    write_go(&mut host)
}

#[test]
fn a_closed_host_takes_lines_alone(rt: HostRuntime) -> Result<(), Fail> {
    let frame = Frame::make(Ident::Std(1), false, 0, [0; 8], 1).ok_or("a frame")?;
    for (closed, others) in [(false, 4), (true, 0)] {
        let mut counts = Counts {
            lines: 0,
            others: 0,
        };
        let mut host = Counter {
            closed,
            active: [false, false],
            counts: &mut counts,
        };
        let was_active = call_all(&mut host, &frame).ok().ok_or("no memory")?;
        assert_eq!(rt; was_active, !closed);
        assert_eq!(rt; host.line(b""), Err(RecordFault::NoMemory));
        assert_eq!(rt; host.active, [false, false]);
        assert_eq!(rt; counts.lines, 1);
        assert_eq!(rt; counts.others, others);
    }
    Ok(())
}

#[test]
fn borrowed_counts_are_raised(rt: HostRuntime) -> Result<(), Fail> {
    let mut counts = Counts {
        lines: 3,
        others: 0,
    };
    count_line(&mut counts).ok().ok_or("no memory")?;
    assert_eq!(rt; counts.lines, 4);
    Ok(())
}

#[test]
fn events_are_copied(rt: HostRuntime) -> Result<(), Fail> {
    let selector = Selector {
        rank: 0,
        low: 5,
        high: 5,
    };
    let selectors = Items::from_list(vec![in rt.alloc(); selector]?);
    let event = Event::Message(selectors).copy().ok().ok_or("memory")?;
    assert!(rt; matches!(&event, Event::Message(own) if own.as_slice() == [selector].as_slice()));
    Ok(())
}
