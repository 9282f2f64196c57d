// What no contract says of bytecode's verifier: which place it gives for some codes.

use super::codes::{code, is_short};
use bytecode::{Code, Instr, VerifyRefusal, laws, verify};
use int_kinds::{BinOp, Kind};
use items::Items;
use run_effects::{Event, Selector};
use std::alloc::{AllocError, Global};
use std::test::Fail;

/// The place of a refusal.
fn place_of(refusal: &VerifyRefusal) -> Result<u32, Fail> {
    match refusal {
        VerifyRefusal::Unverified { place, .. } => Ok(*place),
        VerifyRefusal::NoMemory => Err("memory".into()),
    }
}

/// The first place whose rule fails, where one does.
fn first_failure(alloc: Global, code: Code) -> Result<Option<u32>, Fail> {
    if !is_short(&code) {
        return Err("it is long".into());
    }
    match verify(alloc, code) {
        Ok(_) => Ok(None),
        Err(refusal) => Ok(Some(place_of(&refusal)?)),
    }
}

#[test]
fn verify_finds_the_first_place_that_fails(rt: HostRuntime) -> Result<(), Fail> {
    let rows: [(&[Instr], &[u32], Option<u32>); 8] = [
        (
            &[
                Instr::Push(2147483647),
                Instr::Push(1),
                Instr::Bin(BinOp::Add, Kind::Long),
                Instr::Store(15),
                Instr::Drop,
                Instr::Ret,
            ],
            &[0, 1, 2, 1, 1, 0],
            None,
        ),
        (
            &[Instr::Push(1), Instr::Back(0), Instr::Ret],
            &[0, 1, 0],
            None,
        ),
        (
            &[Instr::Turn, Instr::Jump(0), Instr::Ret],
            &[0, 0, 0],
            Some(1),
        ),
        (&[Instr::Jump(1), Instr::Ret], &[0, 0], None),
        // A depth is missing, and the last function has no end.
        (&[Instr::Turn, Instr::Ret], &[0], Some(2)),
        (&[Instr::Turn], &[0], Some(0)),
        (&[Instr::Bytes(Kind::Byte, 2), Instr::Ret], &[0, 0], Some(0)),
        (
            &[Instr::Send(0), Instr::Send(1), Instr::Ret],
            &[0, 0, 0],
            Some(1),
        ),
    ];
    for (instrs, depths, place) in rows {
        let code = code(rt.alloc(), instrs, depths, Vec::new(rt.alloc()))?;
        assert_eq!(rt; first_failure(rt.alloc(), code)?, place, "{instrs:?}");
    }
    Ok(())
}

/// What a procedure is for.
#[derive(Clone, Copy, Debug)]
enum For {
    /// A timer of this number.
    Timer(u32),
    /// This key, or any.
    Key(Option<u8>),
    /// The messages of this selector.
    Message(u8, u32, u32),
    /// Those of the selectors of rank 1 of 3 to 5 and of 6, and of rank 0 of 4.
    Messages,
}

/// A selector.
fn selector(rank: u8, low: u32, high: u32) -> Selector {
    Selector { rank, low, high }
}

/// The event that a procedure is for.
fn event_of(alloc: Global, what: For) -> Result<Event, AllocError> {
    Ok(match what {
        For::Timer(timer) => Event::Timer(timer),
        For::Key(key) => Event::Key(key),
        For::Message(rank, low, high) => {
            Event::Message(Items::from_list(vec![in alloc; selector(rank, low, high)]?))
        }
        For::Messages => Event::Message(Items::from_list(vec![in alloc;
            selector(1, 3, 5),
            selector(1, 6, 6),
            selector(0, 4, 4),
        ]?)),
    })
}

/// The events that procedures are for.
fn events_of(alloc: Global, all: &[For]) -> Result<Vec<Event>, AllocError> {
    let mut events = Vec::new(alloc);
    for what in all {
        events.push(event_of(alloc, *what)?)?;
    }
    Ok(events)
}

#[test]
fn handlers_share_nothing(rt: HostRuntime) -> Result<(), Fail> {
    let rows: [(&[For], Option<u32>); 9] = [
        (&[For::Timer(0), For::Timer(1)], None),
        (&[For::Timer(1), For::Timer(1)], Some(1)),
        (&[For::Timer(2)], Some(1)),
        (&[For::Key(None), For::Key(Some(0))], None),
        (&[For::Key(None), For::Key(None)], Some(1)),
        (&[For::Messages], None),
        (&[For::Message(1, 6, 6), For::Message(1, 3, 6)], Some(1)),
        (&[For::Message(1, 6, 5), For::Message(1, 3, 9)], None),
        (&[For::Message(3, 0, 0)], Some(1)),
    ];
    for (all, place) in rows {
        let events = events_of(rt.alloc(), all)?;
        let code = code(rt.alloc(), &[Instr::Ret], &[0], events)?;
        assert_eq!(rt; first_failure(rt.alloc(), code)?, place, "{all:?}");
    }
    Ok(())
}

#[test]
fn laws_can_be_called() {
    laws::a_run_has_one_end();
    laws::a_run_keeps_its_effects();
    laws::verified_code_runs_to_its_end();
    laws::each_step_of_verified_code();
}
