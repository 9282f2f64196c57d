// A simulation of code that has no source.

ghost use Rattle.std.specs.Prelude.{IfOk};
ghost use Rattle.bytecode.specs.Verified.{IsShortCode};

use bytecode::{Code, Fun, Handler, Instr, Verified, verify};
use int_kinds::Kind;
use items::Items;
use message_cells::MESSAGE_KINDS;
use play_tests::shown::played;
use run_bench::{Course, has_rows, start_of};
use run_effects::Event;
use sim_play::Show;
use std::alloc::Global;
use std::test::Fail;
use write_format::Format;

/// Code of one procedure for the start, in line 4 of its file, which writes the line `x`.
fn code(alloc: Global) -> Result<Code, Fail>
    ensures { IfOk result IsShortCode }
{
    let mut cells = MESSAGE_KINDS.to_vec(alloc)?;
    cells.push(Kind::Char)?;
    let handler = Handler {
        event: Event::Start,
        function: 0,
        file: 0,
        line: 4,
    };
    let function = Fun {
        start: 0,
        end: 2,
        gives: false,
    };
    let format = Format::read(alloc, b"x", &[])?;
    if cells.len() != 15 || !format.is_short() {
        return Err("too long".into());
    }
    Ok(Code {
        instrs: Items::from_list(vec![in alloc; Instr::Write(0), Instr::Ret]?),
        depths: Items::from_list(vec![in alloc; 0, 0]?),
        functions: Items::from_list(vec![in alloc; function]?),
        handlers: Items::from_list(vec![in alloc; handler]?),
        cells: Items::from_list(cells),
        starts: Items::new(alloc),
        timers: Items::new(alloc),
        formats: Items::from_list(vec![in alloc; format]?),
    })
}

/// That code, verified.
fn verified(alloc: Global) -> Result<Verified, Fail> {
    Ok(verify(alloc, code(alloc)?)?)
}

/// What is shown of the run, and what is written.
const TEXTS: [(Show, &str); 5] = [
    (Show::Window, "w 0.000000 N x\n"),
    (Show::Log, ""),
    (Show::Both, "w 0.000000 N x\n"),
    (Show::Profile, "p N N.can:4 start 1 0\n"),
    (Show::Summary, "gen 1 frames 0 lines 1 turns 0\n"),
];

#[test]
fn code_without_a_source_runs(rt: HostRuntime) -> Result<(), Fail> {
    let alloc = rt.alloc();
    for (show, written) in TEXTS {
        let course = Course {
            codes: vec![in alloc; verified(alloc)?]?,
            keys: Vec::new(alloc),
            picks: Vec::new(alloc),
            bit: 2,
            turns: 1,
            until: 0,
        };
        let shown = played(alloc, start_of(alloc, course)?, &["N"], show, 0, &[])?;
        assert_eq!(rt; shown.out.sink().written(), written.as_bytes());
        assert!(rt; shown.is_whole);
        assert!(rt; has_rows(&shown.meter, &[(1, 0)]));
    }
    Ok(())
}
