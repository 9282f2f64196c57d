// Sources that have no tree, and those that nest too deep for one.

use super::sources::parsed;
use capl_parser::ParseRefusal;
use std::alloc::Global;
use std::test::Fail;

/// Sources that spell no tree, with the number of their first wrong token.
static UNSPELLED: [(&str, u32); 68] = [
    ("a", 1),
    ("{}", 0),
    (";", 0),
    ("includes { \"a.cin\" }", 2),
    ("includes { #include \"a.cin\"; }", 3),
    ("includes { #include \"a.cin\"", 3),
    ("variables { a; }", 2),
    ("variables { byte a }", 4),
    ("variables { byte a[]; }", 5),
    ("variables { byte a = b = 1; }", 6),
    ("variables { byte a = {}; }", 6),
    ("variables { const timer t; }", 3),
    ("variables { message m; }", 4),
    ("variables { void v; }", 2),
    ("variables { f(); }", 2),
    ("on start", 2),
    ("on start {", 3),
    ("on start { } }", 4),
    ("on started {}", 1),
    ("on key a {}", 2),
    ("on timer {}", 2),
    ("on message {}", 2),
    ("on message 1 - {}", 4),
    ("on message Lamp - 1 {}", 3),
    ("on message *, {}", 4),
    ("on message CAN1. {}", 4),
    ("on message CAN1.CAN2.1 {}", 5),
    ("on message CAN1 - 1 {}", 3),
    ("on message CAN2.1 - {}", 6),
    ("on message CAN3.1 {}", 3),
    ("on message can1.1 {}", 3),
    ("on message Lamp.1 {}", 3),
    ("variables { message CAN1.1 m; }", 4),
    ("f {}", 1),
    ("f(a) {}", 2),
    ("f(byte) {}", 3),
    ("f(byte a,) {}", 5),
    ("f(void, byte a) {}", 3),
    ("const byte f() {}", 0),
    ("on f() {}", 1),
    ("f() { a }", 5),
    ("f() { if (1) }", 8),
    ("f() { if 1; }", 5),
    ("f() { if (1) ; else }", 10),
    ("f() { else ; }", 4),
    ("f() { while (1) byte a; }", 8),
    ("f() { do ; while (1) }", 10),
    ("f() { for (;) ; }", 7),
    ("f() { for (byte a;;) ; }", 6),
    ("f() { switch (a) { b; } }", 9),
    ("f() { switch (a) { case b = 1: } }", 11),
    ("f() { switch (a) ; }", 8),
    ("f() { case 1: ; }", 4),
    ("f() { break }", 5),
    ("f() { continue 1; }", 5),
    ("f() { return 1 }", 6),
    ("f() { a + ; }", 6),
    ("f() { a b; }", 5),
    ("f() { (byte a); }", 6),
    ("f() { (timer) a; }", 5),
    ("f() { f()(); }", 7),
    ("f() { f(,); }", 6),
    ("f() { a[]; }", 6),
    ("f() { a.1; }", 6),
    ("f() { a ? b; }", 7),
    ("f() { a ? b : ; }", 8),
    ("f() { #include \"a\"; }", 4),
    ("f() { 1.5; }", 4),
];

/// A source of 60 lines.
static SIXTY_LINES: &str = "\
includes {
  #include \"common/lamp.cin\"
}
variables {
  message 0x100 request = { dlc = 2, byte(0) = 1, word(0) = 0x1234 };
  message Lamp lamp;
  const byte limit = 3;
  int64 total = 0, last[4] = { 1, 2, 3, 4 };
  msTimer tick;
  timer late;
}
void show(int value, char mark) {
  write(\"%d %c\", value, mark);
  return;
}
dword sum(int first, int second) {
  return (dword)(first + second) % 7;
}
on preStart {
  last[0] = -1;
}
on start {
  int i;
  setTimer(tick, 20); /* in milliseconds */
  for (i = 0; i < elCount(last); i++)
    total += last[i] << 2 & 0xFF;
  while (i > 0) { i--; if (i == 2) continue; }
}
on timer tick {
  request.byte(1) = request.byte(1) + 1;
  output(request);
  if (total >= limit)
    setTimer(late, 1);
  else if (total == 0 || !isTimerActive(late))
    total = total ? total : 1;
  else {
    // nothing to do
  }
}
on timer late {
  do {
    total /= 2;
  } while (total > limit);
  stop();
}
on message 0x200, 0x300 - 0x3FF, Lamp {
  switch (this.dlc) {
    case 0:
    case 1:
      show(this.id, 'a');
      break;
    default:
      show(sum(this.byte(0), this.byte(1)), '+');
  }
}
on key 'q' { stop(); }
on key * {}
on stopMeasurement {
  write(\"end of \\\"run\\\": %d\", total);
}
";

/// The first wrong token of these bytes, where their tokens spell no tree.
fn wrong_token(alloc: Global, source: &[u8]) -> Result<Option<u32>, Fail> {
    match parsed(alloc, source)? {
        Some(Err(ParseRefusal::NotSpelled { token })) => Ok(Some(token)),
        _ => Ok(None),
    }
}

#[test]
fn other_sources_are_refused(rt: HostRuntime) -> Result<(), Fail> {
    for (source, wrong) in &UNSPELLED {
        let found = wrong_token(rt.alloc(), source.as_bytes())?;
        assert_eq!(rt; found, Some(*wrong), "{source}");
    }
    Ok(())
}

#[test]
fn each_front_of_a_source_is_parsed_or_refused(rt: HostRuntime) -> Result<(), Fail> {
    let bytes = SIXTY_LINES.as_bytes();
    let mut trees = 0u32;
    for end in 0..=bytes.len() {
        if let Some(Ok(_)) = parsed(rt.alloc(), &bytes[..end])? {
            trees = trees.saturating_add(1);
        }
    }
    assert_eq!(rt; trees, 25);
    Ok(())
}

/// A source with so many of these openings and closings.
fn nested(alloc: Global, row: (&str, &str, &str, &str), count: u32) -> Result<String, Fail> {
    let (before, opening, inside, closing) = row;
    let mut source = format!(in alloc; "f() {{ {before}")?;
    for _ in 0..count {
        source.push_str(opening)?;
    }
    source.push_str(inside)?;
    for _ in 0..count {
        source.push_str(closing)?;
    }
    source.push_str("; }")?;
    Ok(source)
}

#[test]
fn sources_nest_at_most_200_deep(rt: HostRuntime) -> Result<(), Fail> {
    let rows = [
        ("a = ", "(", "1", ")"),
        ("a = ", "(byte) ", "1", ""),
        ("a = ", "b[", "1", "]"),
        ("", "while (1) ", "", ""),
        ("", "if (1) ; else ", "", ""),
    ];
    for row in rows {
        let source = nested(rt.alloc(), row, 198)?;
        let answer = parsed(rt.alloc(), source.as_bytes())?;
        assert!(rt; matches!(answer, Some(Ok(_))), "{}", row.1);
        let source = nested(rt.alloc(), row, 199)?;
        let answer = parsed(rt.alloc(), source.as_bytes())?;
        assert!(rt;
            matches!(answer, Some(Err(ParseRefusal::Deep))),
            "{}",
            row.1
        );
    }
    Ok(())
}
