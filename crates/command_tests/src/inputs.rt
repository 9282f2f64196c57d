// Inputs that are read, and the first blames of others.

use crate::files::add_file;
use input_refusals::InputRefusal;
use sim_inputs::{Inputs, read_inputs};
use sim_outside::MemFiles;
use std::alloc::Global;
use std::process::Abort;
use std::test::Fail;
use texts::{Blame, Text};

/// Files with their names, of which the first is the scenario.
type Files = &'static [(&'static [u8], &'static [u8])];

/// A blame: the file, the line and the column, and the letter and number of the rule.
type Place = (&'static [u8], Option<u32>, Option<u32>, u8, u8);

/// A program of 900,000 cells.
const LARGE: &[u8] = b"variables { byte a[900000]; }";

/// A program of as many cells as one may have.
const LARGEST: &[u8] = b"variables { byte a[1000000]; }";

/// Files of a scenario that is taken, and how many event procedures each of its nodes has.
static TAKEN: [(Files, &[usize]); 3] = [
    (
        &[
            (b"d/s", b"scenario 1\nnode N n.can\ndatabase b.dbc"),
            (
                b"d/b.dbc",
                b"BO_ 1 Engine: 1 N\n SG_ Speed : 0|8@1+ (1,0) [0|0] \"\" N",
            ),
            (
                b"d/n.can",
                b"includes { #include \"u.cin\" } on start { f(); }",
            ),
            (b"d/u.cin", b"void f() { write(\"f\"); }"),
        ],
        &[1],
    ),
    // Two nodes may have one name for different things, and one file may be that of two nodes.
    (
        &[
            (b"d/s", b"scenario 1\nnode N n\nnode M m\nnode O n\npicks 1"),
            (b"d/n", b"variables { int x; } on start { x = 1; }"),
            (b"d/m", b"on start { } void x() { } on key 'a' { x(); }"),
        ],
        &[1, 2, 1],
    ),
    // All programs together may have 4,000,000 cells.
    (
        &[
            (
                b"d/s",
                b"scenario 1\nnode A n\nnode B n\nnode C n\nnode D n\nnode E m",
            ),
            (b"d/n", LARGEST),
            (b"d/m", b""),
        ],
        &[0, 0, 0, 0, 0],
    ),
];

static BLAMES: [(Files, Place); 19] = [
    (&[(b"t", b"")], (b"s", None, None, b'F', 1)),
    (
        &[(b"s", b"scenario 1\nnode N n\nuntil x")],
        (b"s", Some(3), None, b'S', 7),
    ),
    (
        &[(b"s", b"scenario 1\nnode N n\nreplay r"), (b"n", b"")],
        (b"r", None, None, b'F', 1),
    ),
    (
        &[
            (b"s", b"scenario 1\nnode N n\nreplay r"),
            (b"n", b""),
            (b"r", b"(1.000000) can0 123#\n(1.000000) can0 #\n"),
        ],
        (b"r", Some(2), None, b'L', 1),
    ),
    (
        &[(b"s", b"scenario 1\nnode N n\ndatabase b")],
        (b"b", None, None, b'F', 1),
    ),
    (
        &[
            (b"s", b"scenario 1\nnode N n\ndatabase b"),
            (b"b", b"\nBO_"),
        ],
        (b"b", Some(2), None, b'D', 1),
    ),
    (
        &[
            (b"s", b"scenario 1\nnode N n\ndatabase b"),
            (b"b", b"BO_ 1 A: 1 N\nBO_ 1 B: 1 N"),
        ],
        (b"b", Some(2), None, b'D', 2),
    ),
    (
        &[(b"s", b"scenario 1\nnode N n")],
        (b"n", None, None, b'E', 7),
    ),
    (
        &[(b"s", b"scenario 1\nnode N n"), (b"n", b"\n `")],
        (b"n", Some(2), Some(2), b'E', 1),
    ),
    // The tokens of all files come before the trees of any.
    (
        &[
            (b"s", b"scenario 1\nnode N n"),
            (b"n", b"#include \"u\"\nfloat"),
            (b"u", b"on on"),
        ],
        (b"n", Some(2), Some(1), b'E', 5),
    ),
    (
        &[(b"s", b"scenario 1\nnode N n"), (b"n", b"on"), (b"u", b"")],
        (b"n", Some(1), Some(3), b'E', 2),
    ),
    (
        &[
            (b"s", b"scenario 1\nnode N n"),
            (b"n", b"includes { #include \"u\" } on"),
            (b"u", b"\non start {"),
        ],
        (b"u", Some(2), Some(11), b'E', 2),
    ),
    (
        &[
            (b"s", b"scenario 1\nnode N n"),
            (b"n", b"includes { #include \"u\" } void f() { }"),
            (b"u", b"\nvoid g() {\n  f(1); }"),
        ],
        (b"u", Some(3), Some(3), b'E', 16),
    ),
    // The sources of the nodes come one after another, each whole before the next is read.
    (
        &[
            (b"s", b"scenario 1\nnode N n\nnode M m\ndatabase b"),
            (b"n", b""),
            (b"m", b"`"),
        ],
        (b"b", None, None, b'F', 1),
    ),
    (
        &[(b"s", b"scenario 1\nnode N n\nnode M m"), (b"n", b"")],
        (b"m", None, None, b'E', 7),
    ),
    (
        &[
            (b"s", b"scenario 1\nnode N n\nnode M m"),
            (b"n", b""),
            (b"m", b"\n\non start { x = 1; }"),
        ],
        (b"m", Some(3), Some(12), b'E', 9),
    ),
    (
        &[
            (b"s", b"scenario 1\nnode N n\nnode M m"),
            (b"n", b"\non start { x = 1; }"),
            (b"m", b"`"),
        ],
        (b"n", Some(2), Some(12), b'E', 9),
    ),
    // The file of the node with which the programs are too large together is to blame, once nothing of it is.
    (
        &[
            (
                b"s",
                b"scenario 1\nnode A n\nnode B n\nnode C n\nnode D n\nnode E m\nnode F o",
            ),
            (b"n", LARGE),
            (b"m", LARGE),
        ],
        (b"m", None, None, b'E', 29),
    ),
    (
        &[
            (
                b"s",
                b"scenario 1\nnode A n\nnode B n\nnode C n\nnode D n\nnode E m",
            ),
            (b"n", LARGEST),
            (b"m", b"variables { int i; }"),
        ],
        (b"m", None, None, b'E', 29),
    ),
];

/// These files.
fn held_by(alloc: Global, files: Files) -> Result<MemFiles, Fail> {
    let mut held = Vec::new(alloc);
    for (name, bytes) in files {
        add_file(alloc, &mut held, name, bytes)?;
    }
    Ok(MemFiles::new(held, Vec::new(alloc)))
}

/// What the inputs of this name are in these files.
fn read(alloc: Global, name: &[u8], files: Files) -> Result<Result<Inputs, InputRefusal>, Fail> {
    let name = Text::make(alloc, name)?;
    let mut files = held_by(alloc, files)?;
    Ok(read_inputs(alloc, &name, &mut files))
}

/// Inputs have nodes with so many procedures each.
fn check_inputs(rt: &impl Abort, inputs: &Inputs, procedures: &[usize]) {
    assert_eq!(rt; inputs.scenario.nodes.len(), procedures.len());
    assert_eq!(rt; inputs.codes.len(), procedures.len());
    for (code, count) in inputs.codes.iter().zip(procedures) {
        assert_eq!(rt; code.code().handlers.len(), *count);
    }
}

#[test]
fn inputs_are_read(rt: HostRuntime) -> Result<(), Fail> {
    for (files, procedures) in &TAKEN {
        match read(rt.alloc(), b"d/s", files)? {
            Ok(inputs) => check_inputs(&rt, &inputs, procedures),
            Err(_) => return Err(Fail::new("they are refused")),
        }
    }
    Ok(())
}

/// Whether the blame is of this place.
fn is_blame(blame: &Blame, place: &Place) -> bool {
    blame.file.bytes() == place.0
        && blame.line == place.1
        && blame.column == place.2
        && blame.rule.group == place.3
        && blame.rule.number == place.4
}

/// The answer blames this place.
fn check_blame(rt: &impl Abort, answer: &Result<Inputs, InputRefusal>, place: &Place) {
    assert!(rt;
        matches!(answer, Err(InputRefusal::Blamed(blame)) if is_blame(blame, place)),
        "{place:?}"
    );
}

#[test]
fn the_first_broken_rule_is_to_blame(rt: HostRuntime) -> Result<(), Fail> {
    for (files, place) in &BLAMES {
        let answer = read(rt.alloc(), b"s", files)?;
        check_blame(&rt, &answer, place);
    }
    Ok(())
}

#[test]
fn inputs_have_one_reading() {
    sim_inputs::laws::one_reading();
}
