// Timers that are set, cancelled, and due at one moment.

ghost use Rattle.std.specs.Prelude.{◌≡◌, ◌≤◌};

use std::test::Fail;
use timer_queue::TimerQueue;

/// Sets each timer for a millisecond, the last one first.
fn set_from_the_last(queue: &mut TimerQueue, count: u32)
    requires { count ≤ queue.old.count }
    ensures { queue.new.count ≡ queue.old.count }
{
    for done in 0..count {
        queue.set(count - 1 - done, 0, 1000, false);
    }
}

#[test]
fn a_thousand_timers_fire_in_order_of_setting(rt: HostRuntime) -> Result<(), Fail> {
    let mut queue = TimerQueue::make(rt.alloc(), 1000).ok().ok_or("no memory")?;
    // More settings than there are slots.
    set_from_the_last(&mut queue, 1000);
    set_from_the_last(&mut queue, 1000);
    set_from_the_last(&mut queue, 1000);
    assert_eq!(rt; queue.take_due(999), None);
    for timer in (0..1000).rev() {
        assert_eq!(rt; queue.take_due(1000), Some(timer));
    }
    assert_eq!(rt; queue.next_due(), None);
    Ok(())
}

#[test]
fn a_cyclic_timer_is_set_again_as_the_newest(rt: HostRuntime) -> Result<(), Fail> {
    let mut queue = TimerQueue::make(rt.alloc(), 3).ok().ok_or("no memory")?;
    queue.set(2, 0, 10, true);
    queue.set(0, 0, 20, false);
    queue.set(1, 0, 5, false);
    queue.cancel(1);
    assert!(rt; !queue.active(1));
    assert_eq!(rt; queue.next_due(), Some(10));
    // Due since 10, so due again at 20, but behind the timer that was set before.
    assert_eq!(rt; queue.take_due(15), Some(2));
    assert_eq!(rt; queue.take_due(15), None);
    assert_eq!(rt; queue.take_due(20), Some(0));
    assert!(rt; !queue.active(0));
    assert_eq!(rt; queue.take_due(20), Some(2));
    assert_eq!(rt; queue.next_due(), Some(30));
    Ok(())
}
