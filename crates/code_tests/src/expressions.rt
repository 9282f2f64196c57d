// Code of expressions.

use bytecode::Instr;
use gen_expr::{Emitter, Exit, emit, emit_dropped, emit_test, emit_values};
use items::Items;
use std::alloc::Global;
use std::test::Fail;
use texts::NoMemory;
use typed_tree::{TExpr, Typed};

/// A program without procedures and cells.
fn no_program(alloc: Global) -> Typed {
    Typed {
        functions: Items::new(alloc),
        handlers: Items::new(alloc),
        cells: Items::new(alloc),
        starts: Items::new(alloc),
        timers: Items::new(alloc),
        formats: Items::new(alloc),
    }
}

/// The code of a number, of values above it, of a dropped number, and of a test that goes back where its
/// number is not 0.
fn emitted(alloc: Global, typed: &Typed) -> Result<Emitter, NoMemory> {
    let mut code = Emitter::new(alloc);
    code.reserve(5)?;
    emit(&TExpr::Const(5), typed, 0, &mut code)?;
    emit_values(&[TExpr::Now], typed, 1, &mut code)?;
    emit_dropped(&TExpr::Now, typed, &mut code)?;
    emit_test(&TExpr::Now, typed, true, Exit::Backward(0), 0, &mut code)?;
    Ok(code)
}

#[test]
fn expressions_have_their_code(rt: HostRuntime) -> Result<(), Fail> {
    let typed = no_program(rt.alloc());
    let code = emitted(rt.alloc(), &typed)?;
    let instrs = [
        Instr::Push(5),
        Instr::Now,
        Instr::Now,
        Instr::Now,
        Instr::Back(0),
    ];
    assert_eq!(rt; code.instrs(), instrs.as_slice());
    assert_eq!(rt; code.depths(), [0, 1, 0, 0, 1].as_slice());
    Ok(())
}

/// A jump, which goes to place 7.
fn jump(alloc: Global) -> Result<Emitter, NoMemory> {
    let mut code = Emitter::new(alloc);
    code.add(Instr::Jump(0), 0)?;
    code.aim(0, 7);
    Ok(code)
}

#[test]
fn a_jump_gets_its_target(rt: HostRuntime) -> Result<(), Fail> {
    let (instrs, depths) = jump(rt.alloc())?.take();
    assert_eq!(rt; instrs.as_slice(), [Instr::Jump(7)].as_slice());
    assert_eq!(rt; depths.as_slice(), [0].as_slice());
    Ok(())
}
