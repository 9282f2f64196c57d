// Forms of statements and expressions, and what they leave behind: worked out by hand from what each means.

use node_run::Round;
use run_bench::Bench;
use run_records::Noted;
use std::alloc::Global;
use std::test::Fail;

/// What the sources of all forms declare. The cells behind the event's are, from 15 on, `a` to `e`, from 20
/// on those of `list`, from 24 on those of `pair`, from 26 and from 40 on those of the messages, and from 54
/// on the parameters of the functions.
static DECLARED: &str =
    "variables { long a; byte b; int64 c; dword d; int e; long list[4]; byte pair[2]; \
    message 0x0 m = {dlc = 0, can = 0}; message 0x0 n = {dlc = 0, can = 0}; timer t; } \
    long less(long p, long q) { return p - 10 * q; } count() { a++; } long endless() { a++; while (1) ; } \
    long search(long p) { while (1) { do { for (;;) { a++; if (a == p) return a + 100; } } while (1); } \
    return 0; } long nothing() { a = 7; } long store(long p) { list[p] = 9; return 5; } ";

/// The turns that the procedure may take, its statements, and what they leave behind: the turns that it took,
/// the cells that do not hold 0, whether it asked to stop, and its lines.
type Form = (u64, &'static str, &'static str);

/// Places, and what is stored in them.
const PLACES: [Form; 14] = [
    (0, ";", "0: | "),
    (0, "a = -7;", "0: 15=-7 | "),
    (0, "c = b = 300;", "0: 16=44 17=44 | "),
    (0, "list[2] = 9; a = list[2];", "0: 15=9 22=9 | "),
    (0, "list[4] = 9;", "0: | trap index;"),
    (0, "list[4] = a = 1;", "0: | trap index;"),
    (0, "list[++a] = 1 / d;", "0: 15=1 | trap zero divisor;"),
    (0, "a = list[-1];", "0: | trap index;"),
    (0, "m.dlc = 9; a = m.dlc;", "0: 15=8 27=8 | "),
    (0, "m.id = 4095;", "0: 26=2047 | "),
    (0, "m.word(1) = 258; a = m.byte(2);", "0: 15=1 33=2 34=1 | "),
    (0, "m.long(5) = 1;", "0: | trap index;"),
    (0, "a = 1; return; a = 2;", "0: 15=1 | "),
    (0, "stop(); a++;", "0: 15=1 stop | "),
];

/// Updates, and steps by 1.
const STEPS: [Form; 10] = [
    (0, "b = 255; b += 1;", "0: | "),
    (0, "a = 5; a += a = 10;", "0: 15=15 | "),
    (0, "list[1] = 6; list[1] *= 7;", "0: 21=42 | "),
    (0, "b += 300;", "0: 16=44 | "),
    (0, "a = 3; a /= b;", "0: 15=3 | trap zero divisor;"),
    (0, "a = ++c;", "0: 15=1 17=1 | "),
    (0, "a = c++;", "0: 17=1 | "),
    (0, "a = list[3]--;", "0: 23=-1 | "),
    (0, "pair[0] = 255; a = pair[0]++;", "0: 15=255 | "),
    (0, "--b;", "0: 16=255 | "),
];

/// Operators.
const OPERATORS: [Form; 9] = [
    (
        0,
        "a = -5; b = !0; c = ~0; d = +3;",
        "0: 15=-5 16=1 17=-1 18=3 | ",
    ),
    (0, "c = e = 40000;", "0: 17=-25536 19=-25536 | "),
    (
        0,
        "a = -7 / 2; b = 7 % 3; c = 1 << 4; d = 256 >> 2; e = 6 ^ 3;",
        "0: 15=-3 16=1 17=16 18=64 19=5 | ",
    ),
    (
        0,
        "a = 1 < 2; b = 1 >= 2; c = -1 == 4294967295; d = 3 != 3; e = 12 & 10;",
        "0: 15=1 17=1 19=8 | ",
    ),
    (0, "a = 12 | 10; b = 2 <= 2; c = 2 > 2;", "0: 15=14 16=1 | "),
    (0, "a = 0 && ++c;", "0: | "),
    (0, "a = 2 && ++c;", "0: 15=1 17=1 | "),
    (0, "a = 3 || ++c; b = 0 || ++d;", "0: 15=1 16=1 18=1 | "),
    (0, "a = b ? ++c : --d;", "0: 15=-1 18=4294967295 | "),
];

/// Loops and choices.
const LOOPS: [Form; 15] = [
    (3, "while (1) ;", "3: | turn limit;"),
    (0, "while (1) ++a;", "0: | turn limit;"),
    (0, "do ++a; while (0);", "0: | turn limit;"),
    (1, "do ++a; while (0);", "1: 15=1 | "),
    (9, "do ++a; while (a < 3);", "3: 15=3 | "),
    (9, "for (b = 0; b < 4; b++) a += b;", "4: 15=6 16=4 | "),
    (
        9,
        "while (++a < 5) { if (a == 2) continue; c += a; }",
        "4: 15=5 17=8 | ",
    ),
    (
        9,
        "while (a < 2) { a++; while (1) { b++; break; } }",
        "4: 15=2 16=2 | ",
    ),
    (
        9,
        "for (a = 0; a < 5; a++) { switch (a) { case 1: continue; case 2: case 3: c++; break; \
         default: c += 10; } d++; }",
        "5: 15=5 17=22 18=4 | ",
    ),
    (
        0,
        "switch (1) { case 1: a++; case 2: a++; case 3: a++; break; }",
        "0: 15=3 | ",
    ),
    (
        0,
        "switch (9) { case 1: a = 1; default: b = 2; case 3: c = 3; }",
        "0: 16=2 17=3 | ",
    ),
    (0, "switch (9) { case 1: a = 1; } b = 1;", "0: 16=1 | "),
    (
        0,
        "b = 2; if (b == 1) a = 10; else if (b == 2) a = 20; else if (1) a = 30; else a = 40;",
        "0: 15=20 16=2 | ",
    ),
    (0, "if (b) a = 1; else { a = 2; c = 3; }", "0: 15=2 17=3 | "),
    (0, "if (!b) { if (1 && b) a = 1; c = 3; }", "0: 17=3 | "),
];

/// Calls and effects.
const CALLS: [Form; 10] = [
    (5, "a = less(less(9, 2), 3);", "2: 15=-41 54=-11 55=3 | "),
    (5, "count(); count();", "2: 15=2 | "),
    (3, "endless(); c++;", "3: 15=1 | turn limit;"),
    (20, "c = search(4);", "7: 15=4 17=104 56=4 | "),
    (1, "b = 3; b = nothing();", "1: 15=7 | "),
    (1, "a = 1; a = store(4);", "1: 15=1 57=4 | trap index;"),
    (1, "a = store(1);", "1: 15=5 21=9 57=1 | "),
    (
        0,
        "a = isTimerActive(t); setTimer(t, 5); b = isTimerActive(t); cancelTimer(t); \
         c = isTimerActive(t); d = timeNow();",
        "0: 16=1 18=125 | ",
    ),
    (
        0,
        "write(\"%d %d\", ++a, ++a); write(\"go\");",
        "0: 15=2 | 1 2;go;",
    ),
    (
        0,
        "m.id = 2147483649; m.dlc = 2; m.word(0) = 513; n = m; output(n);",
        "0: 26=2147483649 27=2 32=1 33=2 40=2147483649 41=2 46=1 47=2 | ",
    ),
];

/// Writes the cells behind the event's that do not hold 0, each as ` cell=number`.
fn show_cells(alloc: Global, text: &mut String, cells: &[i128]) -> Result<(), Fail> {
    for (place, number) in cells.iter().enumerate() {
        if place >= 15 && *number != 0 {
            text.push_str(&format!(in alloc; " {place}={number}")?)?;
        }
    }
    Ok(())
}

/// Writes the lines of a record, each with a `;` behind it.
fn show_lines(text: &mut String, record: &[Noted]) -> Result<(), Fail> {
    for noted in record {
        if let Noted::Line { text: line, .. } = noted {
            text.push_str(str::from_utf8(line.bytes())?)?;
            text.push(';')?;
        }
    }
    Ok(())
}

/// What a node leaves behind, and whether it asked to stop.
fn shown(alloc: Global, bench: &Bench, stop: bool) -> Result<String, Fail> {
    let taken = bench.meter.row(0).map_or(0, |row| row.turns);
    let mut text = format!(in alloc; "{taken}:")?;
    show_cells(alloc, &mut text, bench.node.cells())?;
    text.push_str(if stop { " stop | " } else { " | " })?;
    show_lines(&mut text, bench.into.noted())?;
    Ok(text)
}

/// A node with these statements for the start, which may take so many turns.
fn bench_of(alloc: Global, body: &str, turns: u64) -> Result<Bench, Fail> {
    let source = format!(in alloc; "{DECLARED} on start {{ {body} }}")?;
    Bench::make(alloc, &source, turns)
}

/// Starts a node at 1250 microseconds, and tells whether it asks to stop.
fn start(bench: &mut Bench) -> Result<bool, Fail> {
    bench.begin(Round::Start, 1250, None, b"")?;
    Ok(bench.step()? == Some(true))
}

/// What these statements leave behind at the start, where they may take so many turns.
fn left_by(alloc: Global, body: &str, turns: u64) -> Result<String, Fail> {
    let mut bench = bench_of(alloc, body, turns)?;
    let stop = start(&mut bench)?;
    shown(alloc, &bench, stop)
}

#[test]
fn forms_leave_behind_what_they_mean(rt: HostRuntime) -> Result<(), Fail> {
    for forms in [PLACES.as_slice(), &STEPS, &OPERATORS, &LOOPS, &CALLS] {
        for (turns, body, left) in forms {
            let answer = left_by(rt.alloc(), body, *turns)?;
            assert_eq!(rt; answer.as_str(), *left, "of {body}");
        }
    }
    Ok(())
}
