// The code of an expression.

ghost use Rattle.std.specs.Prelude.{◌≡◌, ◌+◌, ◌<◌, ◌^◌, ◌++◌, length, sum_by, All, OnOk};
ghost use Rattle.typed_tree.specs.Size.{dropped_size, index_size, test_size, value_size};
ghost use Rattle.code_listing.specs.Exit.{own_truth};
ghost use Rattle.code_listing.specs.Expression.{index_code, test_code, value_code};
ghost use Rattle.code_listing.specs.Statement.{dropped_code, values_code};
ghost use Rattle.gen_expr.specs.Exit.{exit_of};
ghost use Rattle.gen_expr.specs.Fields.{HasFieldCells, PlaceHasFieldCells};
ghost use Rattle.gen_expr.specs.Meaning.{MeansValue};

use crate::emitter::Emitter;
use crate::exit::{Exit, exit_instr, own_truth};
use crate::parts::{
    Bump, Update, add_bump, add_check, add_exit, add_params, add_read, add_read_again, add_truth,
    add_update, index_depth, prefix_instr, test_op, write_instr,
};
use crate::size::{test_size, value_size};
use bytecode::Instr;
use code_listing::laws::expressions_do_what_they_mean;
use code_size::{is_comparison, is_not, params_of, truth_size};
use texts::NoMemory;
use typed_tree::{Place, TExpr, Typed};

/// Appends the code of an expression as a value, of which the first instruction has this depth.
///
/// After an error, what was appended is a beginning of the code.
pub fn emit(e: &TExpr, typed: &Typed, depth: u32, into: &mut Emitter) -> Result<(), NoMemory>
    requires fields { HasFieldCells e.now }
    requires room { length into.old + value_size typed.now e.now < 2 ^ 32 }
    requires depth { depth + value_size typed.now e.now < 2 ^ 32 }
    ensures grows { OnOk result (length into.new ≡ length into.old + value_size typed.now e.now) }
    ensures code { OnOk result
        (into.new ≡ into.old ++ value_code typed.now e.now (length into.old) depth) }
    ensures means { OnOk result (MeansValue typed.now e.now into.old into.new) }
{
    expressions_do_what_they_mean();
    emit_value(e, typed, depth, into)?;
    Ok(())
}

/// Appends the code of an expression as a value.
#[cycle(expression)]
fn emit_value(e: &TExpr, typed: &Typed, depth: u32, into: &mut Emitter) -> Result<(), NoMemory>
    requires fields { HasFieldCells e.now }
    requires room { length into.old + value_size typed.now e.now < 2 ^ 32 }
    requires depth { depth + value_size typed.now e.now < 2 ^ 32 }
    ensures grows { OnOk result (length into.new ≡ length into.old + value_size typed.now e.now) }
    ensures code { OnOk result
        (into.new ≡ into.old ++ value_code typed.now e.now (length into.old) depth) }
{
    match e {
        TExpr::Const(n) => {
            into.add(Instr::Push(*n), depth)?;
            Ok(())
        }
        TExpr::Load(place) => {
            emit_index(place, typed, depth, into)?;
            add_read(place, depth + index_depth(place), into)?;
            Ok(())
        }
        TExpr::Store { place, value } => {
            let value = value.get();
            emit_index(place, typed, depth, into)?;
            let inner = depth + index_depth(place);
            add_check(place, value, inner, into)?;
            emit_value(value, typed, inner, into)?;
            into.add(write_instr(place), inner + 1)?;
            Ok(())
        }
        TExpr::Update {
            op,
            kind,
            back,
            place,
            value,
        } => {
            let value = value.get();
            let update = Update {
                op: *op,
                kind: *kind,
                back: *back,
            };
            emit_index(place, typed, depth, into)?;
            add_read_again(place, depth, into)?;
            emit_value(value, typed, depth + index_depth(place) + 1, into)?;
            add_update(update, place, typed, depth, into)?;
            Ok(())
        }
        TExpr::Bump {
            place,
            kind,
            up,
            post,
        } => {
            let bump = Bump {
                kind: *kind,
                up: *up,
                post: *post,
            };
            emit_index(place, typed, depth, into)?;
            add_bump(bump, place, typed, depth, into)?;
            Ok(())
        }
        TExpr::Unary { op, kind, inner } => {
            let inner = inner.get();
            emit_value(inner, typed, depth, into)?;
            into.add(prefix_instr(*op, *kind), depth + 1)?;
            Ok(())
        }
        TExpr::Binary {
            op,
            kind,
            left,
            right,
        } => {
            let left = left.get();
            let right = right.get();
            emit_value(left, typed, depth, into)?;
            emit_value(right, typed, depth + 1, into)?;
            into.add(Instr::Bin(*op, *kind), depth + 2)?;
            Ok(())
        }
        TExpr::Both { left, right } => {
            let left = left.get();
            let right = right.get();
            let right_at = into.place() + test_size(left, typed, false, false);
            let size = value_size(right, typed) + truth_size(right);
            let zero_at = right_at + size + 1;
            emit_test(left, typed, false, Exit::Forward(zero_at), depth, into)?;
            emit_value(right, typed, depth, into)?;
            add_truth(right, depth + 1, into)?;
            into.add(Instr::Jump(zero_at + 1), depth + 1)?;
            into.add(Instr::Push(0), depth)?;
            Ok(())
        }
        TExpr::Either { left, right } => {
            let left = left.get();
            let right = right.get();
            let right_at = into.place() + test_size(left, typed, false, false) + 2;
            let size = value_size(right, typed) + truth_size(right);
            emit_test(left, typed, false, Exit::Forward(right_at), depth, into)?;
            into.add(Instr::Push(1), depth)?;
            into.add(Instr::Jump(right_at + size), depth + 1)?;
            emit_value(right, typed, depth, into)?;
            add_truth(right, depth + 1, into)?;
            Ok(())
        }
        TExpr::Cond { test, yes, no } => {
            let test = test.get();
            let yes = yes.get();
            let no = no.get();
            let first_at = into.place() + test_size(test, typed, false, false);
            let second_at = first_at + value_size(yes, typed) + 1;
            let end = second_at + value_size(no, typed);
            emit_test(test, typed, false, Exit::Forward(second_at), depth, into)?;
            emit_value(yes, typed, depth, into)?;
            into.add(Instr::Jump(end), depth + 1)?;
            emit_value(no, typed, depth, into)?;
            Ok(())
        }
        TExpr::Convert { kind, inner } => {
            let inner = inner.get();
            emit_value(inner, typed, depth, into)?;
            into.add(Instr::Conv(*kind), depth + 1)?;
            Ok(())
        }
        TExpr::Call { function, args } => {
            emit_values(args.as_slice(), typed, depth, into)?;
            add_params(params_of(*function, typed), depth, into)?;
            into.add(Instr::Call(*function), depth)?;
            Ok(())
        }
        TExpr::Active { timer } => {
            into.add(Instr::Active(*timer), depth)?;
            Ok(())
        }
        TExpr::Now => {
            into.add(Instr::Now, depth)?;
            Ok(())
        }
    }
}

/// Appends the code of an expression whose value is dropped, with nothing on the stack. It need not be
/// what a place held before, and the drop itself is not appended.
///
/// After an error, what was appended is a beginning of the code.
pub fn emit_dropped(e: &TExpr, typed: &Typed, into: &mut Emitter) -> Result<(), NoMemory>
    requires fields { HasFieldCells e.now }
    requires room { length into.old + dropped_size typed.now e.now < 2 ^ 32 }
    ensures grows { OnOk result (length into.new ≡ length into.old + dropped_size typed.now e.now) }
    ensures code { OnOk result (into.new ≡ into.old ++ dropped_code typed.now e.now (length into.old)) }
{
    match e {
        TExpr::Bump {
            place,
            kind,
            up,
            ..
        } => {
            let bump = Bump {
                kind: *kind,
                up: *up,
                post: false,
            };
            emit_index(place, typed, 0, into)?;
            add_bump(bump, place, typed, 0, into)?;
            Ok(())
        }
        TExpr::Const(_)
        | TExpr::Load(_)
        | TExpr::Store { .. }
        | TExpr::Update { .. }
        | TExpr::Unary { .. }
        | TExpr::Binary { .. }
        | TExpr::Both { .. }
        | TExpr::Either { .. }
        | TExpr::Cond { .. }
        | TExpr::Convert { .. }
        | TExpr::Call { .. }
        | TExpr::Active { .. }
        | TExpr::Now => {
            emit_value(e, typed, 0, into)?;
            Ok(())
        }
    }
}

/// Appends the code of an expression as a test, of which the first instruction has this depth. It
/// leaves nothing on the stack: where the expression's truth is `when` it goes to the exit, and
/// otherwise on to its end.
///
/// After an error, what was appended is a beginning of the code.
#[cycle(expression)]
pub fn emit_test(
    e: &TExpr,
    typed: &Typed,
    when: bool,
    exit: Exit,
    depth: u32,
    into: &mut Emitter,
) -> Result<(), NoMemory>
    requires fields { HasFieldCells e.now }
    requires room { length into.old + test_size typed.now when (own_truth (exit_of exit)) e.now < 2 ^ 32 }
    requires depth { depth + test_size typed.now when (own_truth (exit_of exit)) e.now < 2 ^ 32 }
    ensures grows { OnOk result (length into.new
        ≡ length into.old + test_size typed.now when (own_truth (exit_of exit)) e.now) }
    ensures code { OnOk result
        (into.new ≡ into.old ++ test_code typed.now when (exit_of exit) e.now (length into.old) depth) }
{
    match e {
        TExpr::Unary { op, inner, .. } if is_not(*op) => {
            emit_test(inner.get(), typed, !when, exit, depth, into)?;
            Ok(())
        }
        TExpr::Binary {
            op,
            kind,
            left,
            right,
        } if is_comparison(*op) => {
            emit_value(left.get(), typed, depth, into)?;
            emit_value(right.get(), typed, depth + 1, into)?;
            into.add(Instr::Bin(test_op(when, exit, *op), *kind), depth + 2)?;
            into.add(exit_instr(exit), depth + 1)?;
            Ok(())
        }
        TExpr::Both { left, right } => {
            let own = own_truth(exit);
            let first = test_size(left.get(), typed, false, if when { false } else { own });
            let end = into.place() + first + test_size(right.get(), typed, when, own);
            let over = if when { Exit::Forward(end) } else { exit };
            emit_test(left.get(), typed, false, over, depth, into)?;
            emit_test(right.get(), typed, when, exit, depth, into)?;
            Ok(())
        }
        TExpr::Either { left, right } => {
            let own = own_truth(exit);
            let first = test_size(left.get(), typed, true, if when { own } else { false });
            let end = into.place() + first + test_size(right.get(), typed, when, own);
            let over = if when { exit } else { Exit::Forward(end) };
            emit_test(left.get(), typed, true, over, depth, into)?;
            emit_test(right.get(), typed, when, exit, depth, into)?;
            Ok(())
        }
        TExpr::Const(_)
        | TExpr::Load(_)
        | TExpr::Store { .. }
        | TExpr::Update { .. }
        | TExpr::Bump { .. }
        | TExpr::Unary { .. }
        | TExpr::Binary { .. }
        | TExpr::Cond { .. }
        | TExpr::Convert { .. }
        | TExpr::Call { .. }
        | TExpr::Active { .. }
        | TExpr::Now => {
            emit_value(e, typed, depth, into)?;
            add_exit(when, exit, depth + 1, into)?;
            Ok(())
        }
    }
}

/// Appends the code of a place's index, if it has one.
#[cycle(expression)]
fn emit_index(place: &Place, typed: &Typed, depth: u32, into: &mut Emitter) -> Result<(), NoMemory>
    requires fields { PlaceHasFieldCells place.now }
    requires room { length into.old + index_size typed.now place.now < 2 ^ 32 }
    requires depth { depth + index_size typed.now place.now < 2 ^ 32 }
    ensures grows { OnOk result (length into.new ≡ length into.old + index_size typed.now place.now) }
    ensures code { OnOk result
        (into.new ≡ into.old ++ index_code typed.now place.now (length into.old) depth) }
{
    match place {
        Place::Elem { index, .. } | Place::Bytes { index, .. } => {
            emit_value(index.get(), typed, depth, into)?;
            Ok(())
        }
        Place::Cell { .. } | Place::Set { .. } | Place::Signal { .. } => Ok(()),
    }
}

/// Appends the codes of expressions in order, each as a value and each a number deeper.
///
/// After an error, what was appended is a beginning of the code.
#[cycle(expression)]
#[tactic(auto, using(crate::proofs::By::form), unfolding(crate::proofs::By::tree, crate::proofs::By::row))]
pub fn emit_values(
    all: &[TExpr],
    typed: &Typed,
    depth: u32,
    into: &mut Emitter,
) -> Result<(), NoMemory>
    requires fields { All HasFieldCells all.now }
    requires room { length into.old + sum_by (value_size typed.now) all.now < 2 ^ 32 }
    requires depth { depth + sum_by (value_size typed.now) all.now < 2 ^ 32 }
    ensures grows { OnOk result (length into.new ≡ length into.old + sum_by (value_size typed.now) all.now) }
    ensures code { OnOk result
        (into.new ≡ into.old ++ values_code typed.now all.now (length into.old) depth) }
{
    let mut below = depth;
    for e in all {
        emit_value(e, typed, below, into)?;
        below += 1;
    }
    Ok(())
}
