// Scenarios and what they say, item by item and rule by rule.

ghost use Rattle.std.specs.Prelude.{◌<◌, ◌^◌, length};

use scenario::{Epoch, KeyItem, NodeItem, Scenario, ScenarioRefusal, read};
use std::alloc::Global;
use std::process::Abort;
use std::test::Fail;
use texts::Text;

/// Whether the text is refused at this line by the rule of this number.
fn is_refused_at(alloc: Global, text: &[u8], line: u32, number: u8) -> bool
    requires { length text.now < 2 ^ 32 }
{
    matches!(
        read(alloc, text),
        Err(ScenarioRefusal::Broken { line: at_line, rule })
            if at_line == line && rule.group == b'S' && rule.number == number
    )
}

/// A scenario with each item.
static WHOLE: &[u8] =
    b"# a bus\r\n\r\nscenario 1\r\ndatabase b.dbc\nnode A\t a.can\nnode _b2 lib/b.can\n\
    bitrate 0125000\nuntil 86400000\nturns 00000000000000000001\nepoch 4294967295\n\
    interface vcan_0-1.x\npicks 1 2\nkey 2 a\nkey 1 ~\nkey 2 !\npicks 4294967295\nreplay old.log";

/// Whether a text is there and is this one.
fn is_text(text: &Option<Text>, bytes: &[u8]) -> bool {
    matches!(text, Some(text) if text.bytes() == bytes)
}

/// The scenario has these nodes.
fn check_nodes(rt: &impl Abort, nodes: &[NodeItem], wanted: &[(&[u8], &[u8])]) {
    assert_eq!(rt; nodes.len(), wanted.len());
    for (node, (name, file)) in nodes.iter().zip(wanted) {
        assert_eq!(rt; node.name.bytes(), *name);
        assert_eq!(rt; node.file.bytes(), *file);
    }
}

/// The scenario has these keys.
fn check_keys(rt: &impl Abort, keys: &[KeyItem], wanted: &[(u64, u8)]) {
    assert_eq!(rt; keys.len(), wanted.len());
    for (key, (at, byte)) in keys.iter().zip(wanted) {
        assert_eq!(rt; key.at, *at);
        assert_eq!(rt; key.key, *byte);
    }
}

/// The scenario has this bit time, this end moment, these turns, this epoch and this interface.
fn check_numbers(rt: &impl Abort, scenario: &Scenario, wanted: (u32, u64, u64, Epoch, &[u8])) {
    let (bit, until, turns, epoch, interface) = wanted;
    assert_eq!(rt; scenario.bit, bit);
    assert_eq!(rt; scenario.until, until);
    assert_eq!(rt; scenario.turns, turns);
    assert_eq!(rt; scenario.epoch, epoch);
    assert_eq!(rt; scenario.interface.bytes(), interface);
}

#[test]
fn a_scenario_says_what_its_items_say(rt: HostRuntime) -> Result<(), Fail> {
    let scenario = read(rt.alloc(), WHOLE)?;
    assert!(rt; is_text(&scenario.database, b"b.dbc"));
    assert!(rt; is_text(&scenario.replay, b"old.log"));
    check_nodes(
        &rt,
        &scenario.nodes,
        &[(b"A", b"a.can"), (b"_b2", b"lib/b.can")],
    );
    let epoch = Epoch::At(4_294_967_295);
    check_numbers(&rt, &scenario, (8, 86_400_000_000, 1, epoch, b"vcan_0-1.x"));
    assert_eq!(rt; scenario.picks.as_slice(), [1, 2, 4_294_967_295].as_slice());
    check_keys(
        &rt,
        &scenario.keys,
        &[(1000, b'~'), (2000, b'a'), (2000, b'!')],
    );
    Ok(())
}

#[test]
fn what_no_item_says_has_its_default(rt: HostRuntime) -> Result<(), Fail> {
    let scenario = read(rt.alloc(), b"scenario 1\nnode A a.can\nepoch first\n")?;
    assert!(rt; scenario.database.is_none() && scenario.replay.is_none());
    assert!(rt; scenario.picks.is_empty() && scenario.keys.is_empty());
    check_numbers(
        &rt,
        &scenario,
        (2, 10_000_000, 100_000, Epoch::First, b"can0"),
    );
    Ok(())
}

#[test]
fn the_first_broken_line_is_shown_with_its_least_rule(rt: HostRuntime) {
    let rows: [(&[u8], u32, u8); 42] = [
        (b"", 1, 1),
        (b"\n# nothing\n", 1, 1),
        (b"\nnode A a\n", 2, 1),
        (b"scenario 01\n", 1, 1),
        (b"scenario 1 x\n", 1, 1),
        (b" scenario 1\n", 1, 1),
        (b"x\n", 1, 1),
        (b"scenario 1\r", 1, 1),
        (b"scenario 1\n\nnode A\n", 3, 2),
        (b"scenario 1\nnode A a \n", 2, 2),
        (b"scenario 1\n \n", 2, 2),
        (b"scenario 1\n #\n", 2, 2),
        (b"scenario 1\npicks\n", 2, 2),
        (b"scenario 1\nscenario 1 1\n", 2, 2),
        (b"scenario 1\nUNTIL 1\n", 2, 2),
        (b"scenario 1\nscenario 1\n", 2, 3),
        (b"scenario 1\nscenario 7\n", 2, 3),
        (b"scenario 1\ndatabase a\ndatabase b\n", 3, 3),
        (b"scenario 1\nbitrate 10000\nbitrate 5\n", 3, 3),
        (b"scenario 1\nreplay a\nreplay \x7F\n", 3, 3),
        (b"scenario 1\nnode message n.can\n", 2, 4),
        (b"scenario 1\nnode replay n.can\n", 2, 4),
        (b"scenario 1\nnode A a\nnode A b\n", 3, 4),
        (
            b"scenario 1\nnode a23456789012345678901234567890123 b\n",
            2,
            4,
        ),
        (
            b"scenario 1\nnode a2345678901234567890123456789012 b\nbitrate 9\n",
            3,
            6,
        ),
        (b"scenario 1\nbitrate 125001\n", 2, 6),
        (b"scenario 1\nuntil 86400001\n", 2, 7),
        (b"scenario 1\nuntil 000000000000000000001\n", 2, 7),
        (b"scenario 1\nuntil -1\n", 2, 7),
        (b"scenario 1\nturns 0\n", 2, 8),
        (b"scenario 1\nturns 10000001\n", 2, 8),
        (b"scenario 1\nepoch 4294967296\n", 2, 9),
        (b"scenario 1\nepoch First\n", 2, 9),
        (b"scenario 1\ninterface a23456789012345x\n", 2, 10),
        (b"scenario 1\ninterface a:b\n", 2, 10),
        (b"scenario 1\ndatabase a\xC3\n", 2, 10),
        (b"scenario 1\npicks 1 4294967296\n", 2, 11),
        (b"scenario 1\nkey 1 ab\n", 2, 11),
        (b"scenario 1\nkey 86400001 a\n", 2, 11),
        (b"scenario 1\nkey 1 \x7F\n", 2, 11),
        (b"scenario 1", 2, 12),
        (b"scenario 1\n\n", 3, 12),
    ];
    for (text, line, number) in rows {
        assert!(rt; text.len() < 100);
        assert!(rt; is_refused_at(rt.alloc(), text, line, number));
    }
}

#[test]
fn values_at_their_edges_are_taken(rt: HostRuntime) {
    let rows: [&[u8]; 15] = [
        b"scenario 1\nnode A a\nbitrate 10000\n",
        b"scenario 1\nnode A a\nbitrate 1000000\n",
        b"scenario 1\nnode A a\nuntil 0\n",
        b"scenario 1\nnode A a\nuntil 00000000000086400000\n",
        b"scenario 1\nnode A a\nturns 1\n",
        b"scenario 1\nnode A a\nturns 10000000\n",
        b"scenario 1\nnode A a\nepoch 0\n",
        b"scenario 1\nnode A a\nepoch 4294967295\n",
        b"scenario 1\nnode A a\ninterface .\n",
        b"scenario 1\nnode A a\ninterface aZ09_-.89012345\n",
        b"scenario 1\nnode A a\npicks 0\n",
        b"scenario 1\nnode A a\npicks 4294967295\n",
        b"scenario 1\nnode A a\nkey 0 !\n",
        b"scenario 1\nnode A a\nkey 86400000 ~\n",
        b"scenario 1\nnode a2345678901234567890123456789012 !~\n",
    ];
    for text in rows {
        assert!(rt; text.len() < 100);
        assert!(rt; read(rt.alloc(), text).is_ok());
    }
}

/// A scenario with a file name of so many bytes.
fn with_long_name(alloc: Global, count: u32) -> Result<String, Fail> {
    let mut text = String::from_str(alloc, "scenario 1\nnode A a\nreplay ")?;
    for _ in 0..count {
        text.push('~')?;
    }
    Ok(text)
}

#[test]
fn a_file_name_has_255_bytes_at_most(rt: HostRuntime) -> Result<(), Fail> {
    for (count, good) in [(255, true), (256, false)] {
        let text = with_long_name(rt.alloc(), count)?;
        assert!(rt; text.len() < 2_000);
        assert_eq!(rt; read(rt.alloc(), text.as_bytes()).is_ok(), good);
        assert_eq!(rt; is_refused_at(rt.alloc(), text.as_bytes(), 3, 10), !good);
    }
    Ok(())
}

/// A scenario with so many nodes.
fn with_nodes(alloc: Global, count: u32) -> Result<String, Fail> {
    let mut text = String::from_str(alloc, "scenario 1\n")?;
    for number in 0..count {
        text.push_str(format!(in alloc; "node N{number} n.can\n")?.as_str())?;
    }
    Ok(text)
}

#[test]
fn a_scenario_has_64_nodes_at_most(rt: HostRuntime) -> Result<(), Fail> {
    for (count, good) in [(64, true), (65, false)] {
        let text = with_nodes(rt.alloc(), count)?;
        assert!(rt; text.len() < 2_000);
        assert_eq!(rt; read(rt.alloc(), text.as_bytes()).is_ok(), good);
        assert_eq!(rt; is_refused_at(rt.alloc(), text.as_bytes(), 66, 5), !good);
    }
    Ok(())
}
