// A program that is compiled, and one that is not.

ghost use Rattle.std.specs.Prelude.{◌≡◌, ◌≤◌, [], ◌∷◌, IfOk};
ghost use Rattle.capl_tree.specs.Weight.{weight};
ghost use Rattle.typed_tree.specs.Size.{size};
ghost use Rattle.typed_tree.specs.Sound.{IsSound};
ghost use Rattle.code_meaning.specs.Example.{endless_loop};
ghost use Rattle.gen_stmt.specs.Example.{on_start};

use crate::{CheckedRefusal, compile_checked};
use bytecode::{Code, Instr, Verified};
use capl_tree::{FileTree, Head, Proc, Program, Stmt, TopItem};
use gen_stmt::{compile, compile_weighed, make_code};
use int_kinds::Kind;
use items::{Boxed, Items};
use message_cells::MESSAGE_KINDS;
use run_effects::Event;
use std::alloc::{AllocError, Global};
use std::test::Fail;
use typed_tree::{TExpr, THandler, TStmt, Typed};

/// The tree of `on start { ; }`, which weighs 16.
fn source(alloc: Global) -> Result<Program, AllocError>
    ensures { IfOk result (λ program. weight program ≡ 16) }
{
    let procedure = Proc {
        head: Head::Start,
        body: Items::from_list(vec![in alloc; Stmt::Empty]?),
        at: 0,
    };
    let items = Items::from_list(vec![in alloc; TopItem::Proc(procedure)]?);
    Ok(Program {
        files: Items::from_list(vec![in alloc; FileTree { items }]?),
    })
}

/// The cells of the program `byte b = 255; on start { .. }`, and what is in them at first.
fn cells(alloc: Global) -> Result<(Vec<Kind>, Vec<(u32, i128)>), AllocError>
    ensures kinds { IfOk result (λ cells. cells.0.items ≡ (on_start []).cells) }
    ensures starts { IfOk result (λ cells. cells.1.items ≡ (on_start []).starts) }
{
    let mut kinds = MESSAGE_KINDS.to_vec(alloc)?;
    kinds.extend_from_slice(&[Kind::Char, Kind::Byte])?;
    let starts = vec![in alloc; (15u32, 255i128)]?;
    Ok((kinds, starts))
}

/// An event procedure for the start with this statement.
fn handlers(alloc: Global, statement: TStmt) -> Result<Vec<THandler>, AllocError>
    ensures { IfOk result (λ handlers. handlers.items ≡ (on_start (statement ∷ [])).handlers) }
{
    let body = vec![in alloc; statement]?;
    let handler = THandler {
        event: Event::Start,
        body: Items::from_list(body),
        file: 0,
        line: 1,
    };
    Ok(vec![in alloc; handler]?)
}

/// The program `byte b = 255; on start { .. }` with this statement, where cell 15 is `b`.
fn on_start(alloc: Global, statement: TStmt) -> Result<Typed, AllocError>
    ensures { IfOk result (λ typed. typed ≡ on_start (statement ∷ [])) }
{
    let (kinds, starts) = cells(alloc)?;
    let handlers = handlers(alloc, statement)?;
    Ok(Typed {
        functions: Items::new(alloc),
        handlers: Items::from_list(handlers),
        cells: Items::from_list(kinds),
        starts: Items::from_list(starts),
        timers: Items::new(alloc),
        formats: Items::new(alloc),
    })
}

/// `while (1) ;`
#[tactic(auto, unfolding(gen_stmt::proofs::By::tree, gen_stmt::proofs::By::row))]
fn endless_loop(alloc: Global) -> Result<TStmt, AllocError>
    ensures { IfOk result (λ statement. statement ∷ [] ≡ endless_loop) }
{
    Ok(TStmt::While {
        test: Boxed::new(alloc, TExpr::Const(1))?,
        body: Boxed::new(alloc, TStmt::Empty)?,
    })
}

/// The program that goes round without an end.
fn endless_program(alloc: Global) -> Result<Typed, AllocError>
    ensures sound { IfOk result IsSound }
    ensures small { IfOk result (λ typed. size typed ≤ 16) }
{
    let statement = endless_loop(alloc)?;
    let typed = on_start(alloc, statement)?;
    Ok(typed)
}

/// The code of that program.
fn compiled(alloc: Global) -> Result<Verified, Fail> {
    let typed = endless_program(alloc)?;
    let source = source(alloc)?;
    Ok(compile(alloc, &source, &typed)?)
}

/// The code of that program, of which only the weight is known.
fn compiled_weighed(alloc: Global) -> Result<Verified, Fail> {
    let typed = endless_program(alloc)?;
    Ok(compile_weighed(alloc, 16, &typed)?)
}

#[test]
fn the_weight_is_enough(rt: HostRuntime) -> Result<(), Fail> {
    let code = compiled_weighed(rt.alloc())?;
    assert_eq!(rt; code.code().instrs.as_slice().len(), 3);
    Ok(())
}

#[test]
fn a_loop_is_compiled(rt: HostRuntime) -> Result<(), Fail> {
    let code = compiled(rt.alloc())?;
    let instrs = [Instr::Push(1), Instr::Back(0), Instr::Ret];
    assert_eq!(rt; code.code().instrs.as_slice(), instrs.as_slice());
    Ok(())
}

/// That code before it is verified.
fn listed(alloc: Global) -> Result<Code, Fail> {
    let typed = endless_program(alloc)?;
    Ok(make_code(alloc, &typed)?)
}

#[test]
fn a_loop_tests_behind_its_body(rt: HostRuntime) -> Result<(), Fail> {
    let code = listed(rt.alloc())?;
    assert_eq!(rt; code.depths.as_slice(), [0, 1, 0].as_slice());
    Ok(())
}

/// Why a program with this statement is not compiled, if it is not.
fn refusal_of(alloc: Global, statement: TStmt) -> Result<Option<CheckedRefusal>, Fail> {
    let typed = on_start(alloc, statement)?;
    let source = source(alloc)?;
    Ok(compile_checked(alloc, &source, &typed).err())
}

#[test]
fn soundness_is_asked_for(rt: HostRuntime) -> Result<(), Fail> {
    let refusal = refusal_of(rt.alloc(), TStmt::Empty)?;
    assert_eq!(rt; refusal, None);
    let refusal = refusal_of(rt.alloc(), TStmt::Break)?;
    assert_eq!(rt; refusal, Some(CheckedRefusal::Unsound));
    Ok(())
}
