// The texts against the form that they have to have.

use sim_gen::{MAX_COUNT, Made, generate};
use std::process::Abort;
use std::test::Fail;

/// The source of the first node.
static FIRST: &str = "variables { message 257 m; msTimer t; long i; long s; long n; }
on start { setTimerCyclic(t, 20); }
on timer t { for (i = 0; i < 1000; i++) s = s + i; m.dword(0) = s; output(m); }
on message * { n++; }
on stopMeasurement { write(\"%ld\", n); }
";

/// A scenario has so many lines and ends with this text, and its last source has this name and begin.
fn check_made(rt: &impl Abort, made: &Made, lines: usize, ends: (&str, &str, &str)) {
    let (end, name, begin) = ends;
    let scenario = made.scenario.bytes();
    assert_eq!(rt; scenario.split(|byte| *byte == b'\n').count(), lines);
    assert!(rt; scenario.ends_with(end.as_bytes()));
    let last = made.sources.as_slice().last().expect(rt, "a source");
    assert_eq!(rt; last.name.bytes(), name.as_bytes());
    assert!(rt; last.text.bytes().starts_with(begin.as_bytes()));
}

#[test]
fn one_node(rt: HostRuntime) -> Result<(), Fail> {
    let made = generate(rt.alloc(), 1)?;
    assert_eq!(rt; made.sources.len(), 1);
    let scenario = "scenario 1\nnode n1 n1.can\nuntil 1000\n";
    assert_eq!(rt; made.scenario.bytes(), scenario.as_bytes());
    check_made(&rt, &made, 4, (scenario, "n1.can", FIRST));
    assert_eq!(rt; made.sources.as_slice()[0].text.bytes().len(), FIRST.len());
    Ok(())
}

#[test]
fn as_many_nodes_as_may_be(rt: HostRuntime) -> Result<(), Fail> {
    let made = generate(rt.alloc(), MAX_COUNT)?;
    assert_eq!(rt; made.sources.len(), 64);
    let end = "\nnode n64 n64.can\nuntil 1000\n";
    let begin = "variables { message 320 m; msTimer t;";
    check_made(&rt, &made, 67, (end, "n64.can", begin));
    Ok(())
}
