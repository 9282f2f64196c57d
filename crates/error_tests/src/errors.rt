// The calls of a bus with planned errors, and of its laws. A bit takes 2 microseconds. By a model of ISO
// 11898-1 apart from this code the frame of identifier 0 has 50 bits and that of identifier 1 has 47, so
// they are on the wire for 100 and 94 microseconds, and where they are disturbed for 128 and 122. The bus
// is free again 6 microseconds later.

ghost use Rattle.std.specs.Prelude.{◌≡◌, ◌^◌, ◌<◌, ◌≤◌, length, IfOk};

use bus_errors::ErrorBus;
use can_bus::{Bus, Ended};
use can_frame::{Frame, Ident};
use channel_errors::laws;
use std::alloc::Global;
use std::process::Abort;
use std::test::Fail;

/// The frame of this identifier and no bytes, as a node sends it.
fn sent_by(node: u32, number: u16) -> Result<Ended, Fail>
    ensures { IfOk result (λ ended. ended.node ≡ node) }
{
    let frame = Frame::make(Ident::Std(number), false, 0, [0; 8], 1).ok_or("a frame")?;
    Ok(Ended { node, frame })
}

/// A bus of two nodes, of which the first so many transmissions are disturbed.
fn with_errors(alloc: Global, count: u32) -> Result<ErrorBus, Fail>
    ensures { IfOk result (λ bus. length bus.counts ≡ 2) }
{
    let mut numbers = Vec::new(alloc);
    for number in 0..count {
        numbers.push(count - number)?;
    }
    match ErrorBus::make(alloc, 2, numbers, 2) {
        Ok(bus) => Ok(bus),
        Err(_) => Err("memory".into()),
    }
}

/// Requests a frame.
fn request(bus: &mut ErrorBus, wanted: &Ended) -> Result<(), Fail>
    requires { wanted.now.node < length bus.old.counts }
    ensures { length bus.new.counts ≡ length bus.old.counts }
{
    if bus.request(wanted.node, &wanted.frame).is_err() {
        return Err("memory".into());
    }
    Ok(())
}

/// What begins at the one moment ends at the other.
fn check_begin(rt: &impl Abort, bus: &mut ErrorBus, begin: u64, end: u64)
    requires { begin ≤ 2 ^ 63 }
    ensures { length bus.new.counts ≡ length bus.old.counts }
{
    assert_eq!(rt; bus.next_time(), Some(begin));
    bus.arbitrate(begin);
    assert_eq!(rt; bus.next_time(), Some(end));
}

/// What ends at this moment, and at none before, is given or was disturbed.
fn check_end(rt: &impl Abort, bus: &mut ErrorBus, end: u64, given: Option<Ended>)
    requires { 1 ≤ end }
    ensures { length bus.new.counts ≡ length bus.old.counts }
{
    assert_eq!(rt; bus.finish(end - 1), None);
    assert_eq!(rt; bus.finish(end), given);
}

/// The frame of identifier 0 is disturbed so many times from moment 0 on.
fn check_disturbed(rt: &impl Abort, bus: &mut ErrorBus, times: u32)
    ensures { length bus.new.counts ≡ length bus.old.counts }
{
    for time in 0..times {
        let begin = u64::from(time) * 134;
        check_begin(rt, bus, begin, begin + 128);
        check_end(rt, bus, begin + 128, None);
    }
}

// The first of two frames is disturbed, and goes first again.
#[test]
fn a_disturbed_frame_goes_first_again(rt: HostRuntime) -> Result<(), Fail> {
    let first = sent_by(0, 0)?;
    let later = sent_by(1, 1)?;
    let mut bus = with_errors(rt.alloc(), 1)?;
    request(&mut bus, &later)?;
    request(&mut bus, &first)?;
    check_disturbed(&rt, &mut bus, 1);
    assert_eq!(rt; bus.count(0), 8);
    check_begin(&rt, &mut bus, 134, 234);
    check_end(&rt, &mut bus, 234, Some(first));
    check_begin(&rt, &mut bus, 240, 334);
    check_end(&rt, &mut bus, 334, Some(later));
    assert_eq!(rt; bus.count(0), 7);
    assert_eq!(rt; bus.count(1), 0);
    Ok(())
}

// While the weaker frame is on the wire, which is disturbed, the stronger one is requested, and goes first.
#[test]
fn a_disturbed_frame_loses_arbitration(rt: HostRuntime) -> Result<(), Fail> {
    let weak = sent_by(0, 1)?;
    let strong = sent_by(1, 0)?;
    let mut bus = with_errors(rt.alloc(), 1)?;
    request(&mut bus, &weak)?;
    check_begin(&rt, &mut bus, 0, 122);
    request(&mut bus, &strong)?;
    check_end(&rt, &mut bus, 122, None);
    check_begin(&rt, &mut bus, 128, 228);
    check_end(&rt, &mut bus, 228, Some(strong));
    check_begin(&rt, &mut bus, 234, 328);
    check_end(&rt, &mut bus, 328, Some(weak));
    Ok(())
}

// After 31 errors the count is 248, so the frame is sent, from 31 * 134 to 4254.
#[test]
fn a_frame_is_sent_after_31_errors(rt: HostRuntime) -> Result<(), Fail> {
    let frame = sent_by(0, 0)?;
    let mut bus = with_errors(rt.alloc(), 31)?;
    request(&mut bus, &frame)?;
    check_disturbed(&rt, &mut bus, 31);
    check_begin(&rt, &mut bus, 4154, 4254);
    check_end(&rt, &mut bus, 4254, Some(frame));
    assert_eq!(rt; bus.count(0), 247);
    Ok(())
}

// After 32 errors the count is 256, so the node is off: its frames are dropped, that of identifier 1 too,
// and it requests nothing. The frame of the other node goes as before, from 32 * 134 on.
#[test]
fn a_node_is_off_after_32_errors(rt: HostRuntime) -> Result<(), Fail> {
    let frame = sent_by(0, 0)?;
    let second = sent_by(0, 1)?;
    let other = sent_by(1, 1)?;
    let mut bus = with_errors(rt.alloc(), 32)?;
    request(&mut bus, &second)?;
    request(&mut bus, &frame)?;
    request(&mut bus, &other)?;
    check_disturbed(&rt, &mut bus, 32);
    assert_eq!(rt; bus.count(0), 256);
    request(&mut bus, &frame)?;
    check_begin(&rt, &mut bus, 4288, 4382);
    check_end(&rt, &mut bus, 4382, Some(other));
    assert_eq!(rt; bus.next_time(), None);
    assert_eq!(rt; bus.count(0), 256);
    Ok(())
}

#[test]
fn laws_can_be_called() {
    laws::new_bus_is_sound();
    laws::frames_come_by_requests();
    laws::finish_gives_nothing();
    laws::disturbed_frame_waits_again();
    laws::node_that_is_off_stays_off();
    laws::without_plan_plain();
}
