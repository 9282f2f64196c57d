// Many timers that are due at one moment.

use crate::runs::ran;
use run_bench::plain_start;
use run_records::Noted;
use std::alloc::Global;
use std::test::Fail;

/// How many timers there are.
const TIMERS: usize = 1000;

/// The number of the timer that is set in this place: each has one place.
fn timer_at(place: usize) -> usize {
    place % TIMERS * 7 % TIMERS
}

/// A source that sets all timers for one moment; those from `first` on have a procedure.
fn source(alloc: Global, first: usize) -> Result<String, Fail> {
    let mut source = String::new(alloc);
    for timer in 0..TIMERS {
        source.push_str(&format!(in alloc; "variables {{ msTimer t{timer}; }} ")?)?;
    }
    for timer in first..TIMERS {
        source.push_str(&format!(in alloc; "on timer t{timer} {{ write(\"{timer}\"); }} ")?)?;
    }
    source.push_str("on start { ")?;
    for place in 0..TIMERS {
        source.push_str(&format!(in alloc; "setTimer(t{}, 1); ", timer_at(place))?)?;
    }
    source.push_str("}")?;
    Ok(source)
}

/// Whether a record noted that this timer was due.
fn is_due(alloc: Global, noted: &Noted, timer: usize) -> Result<bool, Fail> {
    let line = format!(in alloc; "{timer}")?;
    Ok(matches!(noted, Noted::Line { now: 1000, node: 0, text } if text.bytes() == line.as_bytes()))
}

#[test]
fn timers_of_one_moment_go_in_the_order_of_their_settings(rt: HostRuntime) -> Result<(), Fail> {
    let alloc = rt.alloc();
    let (into, meter) = ran(alloc, plain_start(alloc, "", &[&source(alloc, 0)?])?)?;
    assert_eq!(rt; into.noted().len(), TIMERS);
    assert_eq!(rt; meter.rows(), TIMERS + 1);
    for (place, noted) in into.noted().iter().enumerate() {
        assert!(rt;
            is_due(alloc, noted, timer_at(place))?,
            "{noted:?} in place {place}"
        );
    }
    Ok(())
}

#[test]
fn timers_without_a_procedure_are_taken(rt: HostRuntime) -> Result<(), Fail> {
    let alloc = rt.alloc();
    let (into, meter) = ran(
        alloc,
        plain_start(alloc, "", &[&source(alloc, TIMERS - 1)?])?,
    )?;
    assert_eq!(rt; meter.rows(), 2);
    assert_eq!(rt; into.noted().len(), 1);
    assert!(rt; is_due(alloc, &into.noted()[0], TIMERS - 1)?);
    Ok(())
}
