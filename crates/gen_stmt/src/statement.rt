// The code of a statement.

ghost use Rattle.std.specs.Prelude.{◌≡◌, ℕ, ◌+◌, ◌<◌, ◌≤◌, ◌^◌, ◌++◌, List, length, sum, sum_by, take, true, All, IfSome, OnOk};
ghost use Rattle.typed_tree.specs.Size.{for_test_size, one_if, returned_size, stmt_size, test_size, value_size};
ghost use Rattle.code_listing.specs.Expression.{value_code};
ghost use Rattle.code_listing.specs.Listing.{Listing, instr_if};
ghost use Rattle.code_listing.specs.Program.{body_code};
ghost use Rattle.code_listing.specs.Statement.{for_test_code, return_code, stmt_code};
ghost use Rattle.code_size.specs.declared.extent.Extent.{Extent};
ghost use Rattle.code_size.specs.Notes.{StandLast, all_notes, arms_notes_of, extent_of, groups_notes_of, inside_notes, part_notes_of, switch_notes_of};
ghost use Rattle.code_size.specs.Rows.{arms_size_of, group_sizes_of, part_size_of, switch_size_of};
ghost use Rattle.gen_expr.specs.Fields.{HasFieldCells};
ghost use Rattle.gen_stmt.specs.Inside.Exits.{exits_of};
ghost use Rattle.gen_stmt.specs.Inside.Fields.{ArmHasFieldCells, BodyHasFieldCells, GroupHasFieldCells, OptionHasFieldCells, StmtHasFieldCells};
ghost use Rattle.gen_stmt.specs.Inside.Rows.{arm_code, arms_code_of, behind_arm, groups_code_of, part_code_of, switch_code_of, turn_code};

use crate::cases::add_choice;
use crate::exits::Exits;
use crate::jump::{add_jump, jump_size};
use crate::notes::{take, take_group, take_size};
use bytecode::Instr;
use code_size::{Extent, kept_len, leaves_number};
use gen_expr::{Emitter, Exit, emit, emit_dropped, emit_test, emit_values, test_size};
use items::Boxed;
use texts::NoMemory;
use typed_tree::{TArm, TExpr, TGroup, TStmt, Typed};

/// Appends a `return`.
fn emit_return(
    value: &Option<Boxed<TExpr>>,
    typed: &Typed,
    into: &mut Emitter,
) -> Result<(), NoMemory>
    requires fields { OptionHasFieldCells value.now }
    requires room { length into.old + (returned_size typed.now value.now + 1) < 2 ^ 32 }
    ensures grows { OnOk result
        (length into.new ≡ length into.old + (returned_size typed.now value.now + 1)) }
    ensures code { OnOk result (into.new ≡ into.old ++ return_code typed.now value.now (length into.old)) }
{
    match value {
        None => {
            into.add(Instr::Ret, 0)?;
            Ok(())
        }
        Some(e) => {
            emit(e.get(), typed, 0, into)?;
            into.add(Instr::Ret, 1)?;
            Ok(())
        }
    }
}

/// Appends the test of a `for`, which goes back to a place. Without one, a number that is not 0 goes
/// back.
fn emit_for_test(
    test: &Option<Boxed<TExpr>>,
    target: u32,
    typed: &Typed,
    into: &mut Emitter,
) -> Result<(), NoMemory>
    requires fields { OptionHasFieldCells test.now }
    requires room { length into.old + for_test_size typed.now test.now < 2 ^ 32 }
    ensures grows { OnOk result (length into.new ≡ length into.old + for_test_size typed.now test.now) }
    ensures code { OnOk result
        (into.new ≡ into.old ++ for_test_code typed.now test.now target (length into.old)) }
{
    match test {
        None => {
            into.add(Instr::Push(1), 0)?;
            into.add(Instr::Back(target), 1)?;
            Ok(())
        }
        Some(e) => {
            emit_test(e.get(), typed, true, Exit::Backward(target), 0, into)?;
            Ok(())
        }
    }
}

/// Appends an instruction where it is needed.
fn add_if(needed: bool, instr: Instr, depth: u32, into: &mut Emitter) -> Result<(), NoMemory>
    ensures grows { OnOk result (length into.new ≡ length into.old + one_if needed) }
    ensures code { OnOk result (into.new ≡ into.old ++ instr_if needed (instr, depth)) }
{
    if needed {
        into.add(instr, depth)?;
    }
    Ok(())
}

/// Appends the code of statements in a row, whose notes stand last, and takes these.
pub(crate) fn emit_stmts(
    all: &[TStmt],
    typed: &Typed,
    exits: Exits,
    notes: &mut Vec<Extent>,
    into: &mut Emitter,
) -> Result<(), NoMemory>
    requires fields { BodyHasFieldCells all.now }
    requires room { length into.old + sum_by (stmt_size typed.now) all.now < 2 ^ 32 }
    requires noted { StandLast (all_notes typed.now all.now) notes.old.items }
    ensures grows { OnOk result (length into.new ≡ length into.old + sum_by (stmt_size typed.now) all.now) }
    ensures taken { OnOk result ((rest : List Extent)
        → notes.old.items ≡ rest ++ all_notes typed.now all.now → notes.new.items ≡ rest) }
    ensures code { OnOk result
        (into.new ≡ into.old ++ body_code typed.now (exits_of exits) all.now (length into.old)) }
{
    emit_first(all, all.len(), typed, exits, notes, into)?;
    Ok(())
}

/// Appends the code of a statement of this size, in which `break` and `continue` lead to these exits. The
/// notes of what is in it stand last, and are taken.
#[cycle(statement)]
#[tactic(auto, using(crate::proofs::By::form), unfolding(crate::proofs::By::tree, crate::proofs::By::row))]
fn emit_stmt(
    s: &TStmt,
    size: u32,
    typed: &Typed,
    exits: Exits,
    notes: &mut Vec<Extent>,
    into: &mut Emitter,
) -> Result<(), NoMemory>
    requires fields { StmtHasFieldCells s.now }
    requires size { size ≡ stmt_size typed.now s.now }
    requires room { length into.old + stmt_size typed.now s.now < 2 ^ 32 }
    requires noted { StandLast (inside_notes typed.now s.now) notes.old.items }
    ensures grows { OnOk result (length into.new ≡ length into.old + stmt_size typed.now s.now) }
    ensures taken { OnOk result ((rest : List Extent)
        → notes.old.items ≡ rest ++ inside_notes typed.now s.now → notes.new.items ≡ rest) }
    ensures code { OnOk result
        (into.new ≡ into.old ++ stmt_code typed.now (exits_of exits) s.now (length into.old)) }
{
    let end = into.place() + size;
    match s {
        TStmt::Empty => Ok(()),
        TStmt::Block(all) => {
            let all = all.as_slice();
            emit_first(all, all.len(), typed, exits, notes, into)?;
            Ok(())
        }
        TStmt::If { arms, other } => {
            emit_arms(arms.as_slice(), end, typed, exits, notes, into)?;
            emit_part(other, typed, exits, notes, into)?;
            Ok(())
        }
        TStmt::While { test, body } => {
            let body_size = take_size(notes);
            add_jump(body_size, into)?;
            emit_loop(body.get(), test.get(), body_size, end, typed, notes, into)?;
            Ok(())
        }
        TStmt::Do { body, test } => {
            let body_size = take_size(notes);
            into.add(Instr::Turn, 0)?;
            emit_loop(body.get(), test, body_size, end, typed, notes, into)?;
            Ok(())
        }
        TStmt::For {
            init,
            test,
            step,
            body,
        } => {
            let body = body.get();
            let step_size = take_size(notes);
            emit_part(init, typed, exits, notes, into)?;
            let body_size = take_size(notes);
            let body_at = into.place() + jump_size(body_size + step_size);
            let step_at = body_at + body_size;
            let inner = Exits {
                break_at: end,
                continue_at: step_at,
            };
            add_jump(body_size + step_size, into)?;
            emit_stmt(body, body_size, typed, inner, notes, into)?;
            emit_part(step, typed, exits, notes, into)?;
            emit_for_test(test, body_at, typed, into)?;
            Ok(())
        }
        TStmt::Switch { on, groups } => {
            emit_switch(groups.as_slice(), on.get(), end, typed, exits, notes, into)?;
            Ok(())
        }
        TStmt::Break => {
            into.add(Instr::Jump(exits.break_at), 0)?;
            Ok(())
        }
        TStmt::Continue => {
            into.add(Instr::Jump(exits.continue_at), 0)?;
            Ok(())
        }
        TStmt::Return { value } => {
            emit_return(value, typed, into)?;
            Ok(())
        }
        TStmt::Eval(e) => {
            emit_dropped(e, typed, into)?;
            add_if(leaves_number(e, typed), Instr::Drop, 1, into)?;
            Ok(())
        }
        TStmt::Write { format, args } => {
            emit_values(args.as_slice(), typed, 0, into)?;
            into.add(Instr::Write(*format), args.len() as u32)?;
            Ok(())
        }
        TStmt::Send { msg } => {
            into.add(Instr::Send(*msg), 0)?;
            Ok(())
        }
        TStmt::Copy { to, from } => {
            into.add(Instr::Copy(*to, *from), 0)?;
            Ok(())
        }
        TStmt::Halt => {
            into.add(Instr::Stop, 0)?;
            Ok(())
        }
        TStmt::Set {
            timer,
            cyclic,
            value,
        } => {
            emit(value, typed, 0, into)?;
            into.add(Instr::Set(*timer, *cyclic), 1)?;
            Ok(())
        }
        TStmt::Cancel { timer } => {
            into.add(Instr::Cancel(*timer), 0)?;
            Ok(())
        }
    }
}

/// Appends the code of the first so many statements in a row.
#[cycle(statement)]
fn emit_first(
    all: &[TStmt],
    count: usize,
    typed: &Typed,
    exits: Exits,
    notes: &mut Vec<Extent>,
    into: &mut Emitter,
) -> Result<(), NoMemory>
    requires fields { BodyHasFieldCells all.now }
    requires within { count ≤ length all.now }
    requires room { length into.old + sum_by (stmt_size typed.now) (take count all.now) < 2 ^ 32 }
    requires noted { StandLast (all_notes typed.now (take count all.now)) notes.old.items }
    ensures grows { OnOk result
        (length into.new ≡ length into.old + sum_by (stmt_size typed.now) (take count all.now)) }
    ensures taken { OnOk result ((rest : List Extent)
        → notes.old.items ≡ rest ++ all_notes typed.now (take count all.now) → notes.new.items ≡ rest) }
    ensures code { OnOk result (into.new ≡ into.old
        ++ body_code typed.now (exits_of exits) (take count all.now) (length into.old)) }
{
    for i in 0..count {
        let s = &all[i];
        let size = take_size(notes);
        emit_stmt(s, size, typed, exits, notes, into)?;
    }
    Ok(())
}

/// Appends the code of the arms of an `if`, which ends at a place. An arm jumps over all that is behind it,
/// but where its body does not go on or nothing is behind it.
#[cycle(statement)]
fn emit_arms(
    arms: &[TArm],
    end: u32,
    typed: &Typed,
    exits: Exits,
    notes: &mut Vec<Extent>,
    into: &mut Emitter,
) -> Result<(), NoMemory>
    requires fields { All ArmHasFieldCells arms.now }
    requires end { (other : ℕ) × (end ≡ length into.old + arms_size_of typed.now arms.now other) }
    requires noted { StandLast (arms_notes_of typed.now arms.now) notes.old.items }
    ensures grows { OnOk result ((other : ℕ)
        → end ≡ length into.old + arms_size_of typed.now arms.now other → length into.new + other ≡ end) }
    ensures taken { OnOk result ((rest : List Extent)
        → notes.old.items ≡ rest ++ arms_notes_of typed.now arms.now → notes.new.items ≡ rest) }
    ensures code { OnOk result ((other : ℕ) (behind : ℕ → Listing)
        → end ≡ length into.old + arms_size_of typed.now arms.now other
        → into.new ++ behind (length into.new)
        ≡ into.old ++ arms_code_of typed.now (exits_of exits) arms.now other behind (length into.old)) }
{
    for arm in arms {
        let body = take(notes);
        emit_arm(arm, body, end, typed, exits, notes, into)?;
    }
    Ok(())
}

/// Appends the code of an arm of an `if` which ends at a place; its body has this extent.
#[cycle(statement)]
fn emit_arm(
    arm: &TArm,
    body: Extent,
    end: u32,
    typed: &Typed,
    exits: Exits,
    notes: &mut Vec<Extent>,
    into: &mut Emitter,
) -> Result<(), NoMemory>
    requires fields { ArmHasFieldCells arm.now }
    requires body { body ≡ extent_of typed.now arm.now.body }
    requires room { behind_arm typed.now arm.now end (length into.old) < 2 ^ 32 }
    requires noted { StandLast (inside_notes typed.now arm.now.body) notes.old.items }
    ensures grows { OnOk result (length into.new ≡ behind_arm typed.now arm.now end (length into.old)) }
    ensures taken { OnOk result ((rest : List Extent)
        → notes.old.items ≡ rest ++ inside_notes typed.now arm.now.body → notes.new.items ≡ rest) }
    ensures code { OnOk result
        (into.new ≡ into.old ++ arm_code typed.now (exits_of exits) arm.now end (length into.old)) }
{
    let size = body.size as u32;
    let jump_at = into.place() + test_size(&arm.test, typed, false, false) + size;
    let jumps = body.goes_on && jump_at < end;
    let next = jump_at + u32::from(jumps);
    emit_test(&arm.test, typed, false, Exit::Forward(next), 0, into)?;
    emit_stmt(&arm.body, size, typed, exits, notes, into)?;
    add_if(jumps, Instr::Jump(end), 0, into)?;
    Ok(())
}

/// Appends the body and the test of a loop, which ends at a place; the body has this size.
#[cycle(statement)]
fn emit_loop(
    body: &TStmt,
    test: &TExpr,
    size: u32,
    end: u32,
    typed: &Typed,
    notes: &mut Vec<Extent>,
    into: &mut Emitter,
) -> Result<(), NoMemory>
    requires fields { HasFieldCells test.now }
    requires body { StmtHasFieldCells body.now }
    requires size { size ≡ stmt_size typed.now body.now }
    requires end { end ≡ length into.old
        + (stmt_size typed.now body.now + test_size typed.now true true test.now) }
    requires noted { StandLast (inside_notes typed.now body.now) notes.old.items }
    ensures grows { OnOk result (length into.new ≡ end) }
    ensures taken { OnOk result ((rest : List Extent)
        → notes.old.items ≡ rest ++ inside_notes typed.now body.now → notes.new.items ≡ rest) }
    ensures code { OnOk result
        (into.new ≡ into.old ++ turn_code typed.now test.now body.now (length into.old)) }
{
    let body_at = into.place();
    let inner = Exits {
        break_at: end,
        continue_at: body_at + size,
    };
    emit_stmt(body, size, typed, inner, notes, into)?;
    emit_test(test, typed, true, Exit::Backward(body_at), 0, into)?;
    Ok(())
}

/// Appends the code of a part that may be missing, whose notes stand last, and takes these.
#[cycle(statement)]
fn emit_part(
    part: &Option<Boxed<TStmt>>,
    typed: &Typed,
    exits: Exits,
    notes: &mut Vec<Extent>,
    into: &mut Emitter,
) -> Result<(), NoMemory>
    requires fields { IfSome part.now StmtHasFieldCells }
    requires room { length into.old + part_size_of typed.now part.now < 2 ^ 32 }
    requires noted { StandLast (part_notes_of typed.now part.now) notes.old.items }
    ensures grows { OnOk result (length into.new ≡ length into.old + part_size_of typed.now part.now) }
    ensures taken { OnOk result ((rest : List Extent)
        → notes.old.items ≡ rest ++ part_notes_of typed.now part.now → notes.new.items ≡ rest) }
    ensures code { OnOk result
        (into.new ≡ into.old ++ part_code_of typed.now (exits_of exits) part.now (length into.old)) }
{
    match part {
        None => Ok(()),
        Some(part) => {
            let size = take_size(notes);
            emit_stmt(part.get(), size, typed, exits, notes, into)?;
            Ok(())
        }
    }
}

/// Appends the code of a `switch`, which ends at a place.
#[cycle(statement)]
fn emit_switch(
    groups: &[TGroup],
    on: &TExpr,
    end: u32,
    typed: &Typed,
    exits: Exits,
    notes: &mut Vec<Extent>,
    into: &mut Emitter,
) -> Result<(), NoMemory>
    requires on { HasFieldCells on.now }
    requires fields { All GroupHasFieldCells groups.now }
    requires end { end ≡ length into.old
        + (value_size typed.now on.now + switch_size_of typed.now groups.now) }
    requires noted { StandLast (switch_notes_of typed.now groups.now) notes.old.items }
    ensures grows { OnOk result (length into.new ≡ end) }
    ensures taken { OnOk result ((rest : List Extent)
        → notes.old.items ≡ rest ++ switch_notes_of typed.now groups.now → notes.new.items ≡ rest) }
    ensures code { OnOk result (into.new ≡ into.old ++ (value_code typed.now on.now (length into.old) 0
        ++ switch_code_of typed.now (exits_of exits) groups.now
        (length into.old + value_size typed.now on.now))) }
{
    let over = take_size(notes);
    let inner = Exits {
        break_at: end,
        continue_at: exits.continue_at,
    };
    add_choice(on, groups, over, typed, notes.as_slice(), into)?;
    emit_groups(groups, typed, inner, notes, into)?;
    Ok(())
}

/// Appends the code of the groups of a `switch`.
#[cycle(statement)]
fn emit_groups(
    groups: &[TGroup],
    typed: &Typed,
    exits: Exits,
    notes: &mut Vec<Extent>,
    into: &mut Emitter,
) -> Result<(), NoMemory>
    requires fields { All GroupHasFieldCells groups.now }
    requires room { length into.old + sum (group_sizes_of typed.now groups.now) < 2 ^ 32 }
    requires noted { StandLast (groups_notes_of typed.now groups.now) notes.old.items }
    ensures grows { OnOk result
        (length into.new ≡ length into.old + sum (group_sizes_of typed.now groups.now)) }
    ensures taken { OnOk result ((rest : List Extent)
        → notes.old.items ≡ rest ++ groups_notes_of typed.now groups.now → notes.new.items ≡ rest) }
    ensures code { OnOk result
        (into.new ≡ into.old ++ groups_code_of typed.now (exits_of exits) groups.now (length into.old)) }
{
    for (i, group) in groups.iter().enumerate() {
        let body = group.body.as_slice();
        let last = i + 1 == groups.len();
        take_group(notes);
        emit_first(body, kept_len(body, last), typed, exits, notes, into)?;
    }
    Ok(())
}
