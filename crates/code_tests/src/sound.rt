// Programs that sound_check tells to be sound, and others.

use int_kinds::Kind;
use items::Items;
use message_cells::MESSAGE_KINDS;
use run_effects::Event;
use sound_check::is_sound;
use std::alloc::Global;
use std::test::Fail;
use texts::NoMemory;
use typed_tree::{Place, TExpr, THandler, TStmt, Typed};

/// The kinds of the event's cells, and of a byte cell 15.
fn cells(alloc: Global) -> Result<Items<Kind>, NoMemory> {
    let mut cells = MESSAGE_KINDS.to_vec(alloc)?;
    cells.extend_from_slice(&[Kind::Char, Kind::Byte])?;
    Ok(Items::from_list(cells))
}

/// An event procedure with this statement.
fn handlers(alloc: Global, statement: TStmt) -> Result<Items<THandler>, NoMemory> {
    let handler = THandler {
        event: Event::Start,
        body: Items::from_list(vec![in alloc; statement]?),
        file: 0,
        line: 1,
    };
    Ok(Items::from_list(vec![in alloc; handler]?))
}

/// A program of an event procedure with this statement, and a cell 15 with this initial value.
fn program(alloc: Global, statement: TStmt, start: i128) -> Result<Typed, NoMemory> {
    Ok(Typed {
        functions: Items::new(alloc),
        handlers: handlers(alloc, statement)?,
        cells: cells(alloc)?,
        starts: Items::from_list(vec![in alloc; (15u32, start)]?),
        timers: Items::new(alloc),
        formats: Items::new(alloc),
    })
}

/// A statement that reads a cell, or a `break`.
fn statement(slot: Option<u32>) -> TStmt {
    match slot {
        Some(slot) => TStmt::Eval(TExpr::Load(Place::Cell { slot })),
        None => TStmt::Break,
    }
}

#[test]
fn soundness_is_answered(rt: HostRuntime) -> Result<(), Fail> {
    for (slot, start, sound) in [
        (Some(15), 255, true),
        (Some(16), 255, false),
        (Some(15), 256, false),
        (None, 0, false),
    ] {
        let typed = program(rt.alloc(), statement(slot), start)?;
        assert_eq!(rt; is_sound(rt.alloc(), &typed)?, sound);
    }
    Ok(())
}
