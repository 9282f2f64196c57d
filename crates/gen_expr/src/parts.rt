// The parts of an expression's code that hold no code of another expression.

ghost use Rattle.std.specs.Prelude.{◌≡◌, ◌+◌, ◌*◌, ◌<◌, ◌^◌, if◌then◌else◌, [], ◌∷◌, ◌++◌, length, OnOk};
ghost use Rattle.bytecode.specs.declared.instr.Instr.TheVariants as instr;
ghost use Rattle.typed_tree.specs.Shape.{has_index, is_checked_first, is_wrapped_first};
ghost use Rattle.typed_tree.specs.Size.{bump_size, exit_size, one_if, truth_size};
ghost use Rattle.code_listing.specs.Exit.{exit_code, own_truth};
ghost use Rattle.code_listing.specs.Expression.{opposite_op, params_code, prefix_instr, test_op, truth_code};
ghost use Rattle.code_listing.specs.Listing.{instr_if};
ghost use Rattle.code_listing.specs.Place.{bump_at_index_code, bump_code, bump_in_place_code, bump_op, index_count, index_depth, kind_at_index, read_instr, write_instr};
ghost use Rattle.gen_expr.specs.Exit.{exit_of};
ghost use Rattle.gen_expr.specs.Fields.{PlaceHasFieldCells};

use crate::emitter::Emitter;
use crate::exit::{Exit, exit_instr, own_truth};
use bytecode::Instr;
use code_size::{has_index, is_checked_first, is_truth, is_wrapped_first, kind_of};
use int_kinds::{BinOp, Kind, UnOp, bits};
use texts::NoMemory;
use typed_tree::{Place, TExpr, Typed};

/// The instruction that reads a place. Its index, if it has one, is on top.
fn read_instr(place: &Place) -> Instr
    requires { PlaceHasFieldCells place.now }
    ensures { result ≡ read_instr place.now }
{
    match place {
        Place::Cell { slot } => Instr::Load(*slot),
        Place::Elem { base, len, .. } => Instr::Elem(*base, *len),
        Place::Set { msg, field } => Instr::Load(*msg + u32::from(*field)),
        Place::Bytes { msg, kind, .. } => Instr::Bytes(*kind, *msg),
        Place::Signal { msg, layout } => Instr::Sig(*layout, *msg),
    }
}

/// The instruction that stores the top in a place. Its index, if it has one, is below.
pub(crate) fn write_instr(place: &Place) -> Instr
    ensures { result ≡ write_instr place.now }
{
    match place {
        Place::Cell { slot } => Instr::Store(*slot),
        Place::Elem { base, len, .. } => Instr::SetElem(*base, *len),
        Place::Set { msg, field } => Instr::SetField(*field, *msg),
        Place::Bytes { msg, kind, .. } => Instr::SetBytes(*kind, *msg),
        Place::Signal { msg, layout } => Instr::SetSig(*layout, *msg),
    }
}

/// The instruction of a prefix operator. `++` and `--` are none.
pub(crate) fn prefix_instr(op: UnOp, kind: Kind) -> Instr
    ensures { result ≡ prefix_instr op kind }
{
    match op {
        UnOp::Minus => Instr::Neg(kind),
        UnOp::Not => Instr::Not,
        UnOp::Inv => Instr::Inv(kind),
        UnOp::Plus | UnOp::Up | UnOp::Down => Instr::Conv(kind),
    }
}

/// The comparison that gives the opposite truth.
fn opposite_op(op: BinOp) -> BinOp
    ensures { result ≡ opposite_op op }
{
    match op {
        BinOp::Equal => BinOp::NotEqual,
        BinOp::NotEqual => BinOp::Equal,
        BinOp::Less => BinOp::GreaterEqual,
        BinOp::LessEqual => BinOp::Greater,
        BinOp::Greater => BinOp::LessEqual,
        BinOp::GreaterEqual => BinOp::Less,
        BinOp::OrElse
        | BinOp::AndAlso
        | BinOp::Or
        | BinOp::Xor
        | BinOp::And
        | BinOp::Shl
        | BinOp::Shr
        | BinOp::Add
        | BinOp::Sub
        | BinOp::Mul
        | BinOp::Div
        | BinOp::Rem => op,
    }
}

/// The operator of a comparison that goes to an exit for a truth: itself where the exit's own
/// instruction goes there for this truth, and else its opposite.
pub(crate) fn test_op(when: bool, exit: Exit, op: BinOp) -> BinOp
    ensures { result ≡ test_op when (exit_of exit) op }
{
    if when == own_truth(exit) {
        op
    } else {
        opposite_op(op)
    }
}

/// How many numbers a place has on the stack while it is used.
pub(crate) fn index_depth(place: &Place) -> u32
    ensures { result ≡ index_depth place.now }
{
    u32::from(has_index(place))
}

/// How many indices a place has: an index counts from 0 on and is below this.
fn index_count(place: &Place) -> u32
    ensures { result ≡ index_count place.now }
{
    match place {
        Place::Elem { len, .. } => *len,
        Place::Bytes { kind, .. } => 9 - bits(*kind) / 8,
        Place::Cell { .. } | Place::Set { .. } | Place::Signal { .. } => 0,
    }
}

/// The kind of the number at an index of a place.
fn kind_at_index(place: &Place, typed: &Typed) -> Kind
    ensures { result ≡ kind_at_index typed.now place.now }
{
    match place {
        Place::Elem { base, .. } => kind_of(typed.cells.as_slice(), *base),
        Place::Bytes { kind, .. } => *kind,
        Place::Cell { .. } | Place::Set { .. } | Place::Signal { .. } => Kind::Long,
    }
}

/// The operator that adds 1, or that takes 1.
fn bump_op(up: bool) -> BinOp
    ensures { result ≡ bump_op up }
{
    if up { BinOp::Add } else { BinOp::Sub }
}

/// Appends the exit of a test for a truth, behind the number that decides, which is on top at this
/// depth.
pub(crate) fn add_exit(
    when: bool,
    exit: Exit,
    depth: u32,
    into: &mut Emitter,
) -> Result<(), NoMemory>
    ensures grows { OnOk result
        (length into.new ≡ length into.old + exit_size when (own_truth (exit_of exit))) }
    ensures code { OnOk result (into.new ≡ into.old ++ exit_code when (exit_of exit) depth) }
{
    if when != own_truth(exit) {
        into.add(Instr::Not, depth)?;
    }
    into.add(exit_instr(exit), depth)?;
    Ok(())
}

/// Appends what brings the number on top to 0 or 1, where it may be another.
pub(crate) fn add_truth(e: &TExpr, depth: u32, into: &mut Emitter) -> Result<(), NoMemory>
    ensures grows { OnOk result (length into.new ≡ length into.old + truth_size e.now) }
    ensures code { OnOk result (into.new ≡ into.old ++ truth_code e.now depth) }
{
    if !is_truth(e) {
        into.add(Instr::Not, depth)?;
        into.add(Instr::Not, depth)?;
    }
    Ok(())
}

/// Appends the check of an index before the right side of an assignment, where it has to stand.
pub(crate) fn add_check(
    place: &Place,
    value: &TExpr,
    depth: u32,
    into: &mut Emitter,
) -> Result<(), NoMemory>
    ensures grows { OnOk result
        (length into.new ≡ length into.old + one_if (is_checked_first place.now value.now)) }
    ensures code { OnOk result (into.new ≡ into.old
        ++ instr_if (is_checked_first place.now value.now) (instr.Check (index_count place.now), depth)) }
{
    if is_checked_first(place, value) {
        into.add(Instr::Check(index_count(place)), depth)?;
    }
    Ok(())
}

/// Appends what reads a place. Its index, if it has one, is on top.
pub(crate) fn add_read(place: &Place, depth: u32, into: &mut Emitter) -> Result<(), NoMemory>
    requires { PlaceHasFieldCells place.now }
    ensures grows { OnOk result (length into.new ≡ length into.old + 1) }
    ensures code { OnOk result (into.new ≡ into.old ++ (read_instr place.now, depth) ∷ []) }
{
    into.add(read_instr(place), depth)?;
    Ok(())
}

/// Appends what reads a place, whose index, if it has one, stays below the number. The depth is that
/// without the index.
pub(crate) fn add_read_again(place: &Place, depth: u32, into: &mut Emitter) -> Result<(), NoMemory>
    requires fields { PlaceHasFieldCells place.now }
    requires depth { depth + 2 < 2 ^ 32 }
    ensures grows { OnOk result (length into.new ≡ length into.old + (one_if (has_index place.now) + 1)) }
    ensures code { OnOk result (into.new ≡ into.old
        ++ (instr_if (has_index place.now) (instr.Dup, depth + 1)
        ++ (read_instr place.now, depth + index_depth place.now + index_depth place.now) ∷ [])) }
{
    if has_index(place) {
        into.add(Instr::Dup, depth + 1)?;
    }
    add_read(place, depth + index_depth(place) + index_depth(place), into)?;
    Ok(())
}

/// Appends the operator of an update, behind its operands, and what stores its result in the place.
/// The depth is that without the index.
pub(crate) fn add_update(
    update: Update,
    place: &Place,
    typed: &Typed,
    depth: u32,
    into: &mut Emitter,
) -> Result<(), NoMemory>
    requires { depth + 3 < 2 ^ 32 }
    ensures grows { OnOk result (length into.new
        ≡ length into.old + (1 + (one_if (is_wrapped_first typed.now place.now update.back) + 1))) }
    ensures code { OnOk result (into.new ≡ into.old
        ++ (instr.Bin update.op update.kind, depth + index_depth place.now + 2)
        ∷ (instr_if (is_wrapped_first typed.now place.now update.back)
        (instr.Conv update.back, depth + index_depth place.now + 1)
        ++ (write_instr place.now, depth + index_depth place.now + 1) ∷ [])) }
{
    let inner = depth + index_depth(place);
    into.add(Instr::Bin(update.op, update.kind), inner + 2)?;
    if is_wrapped_first(place, update.back, typed) {
        into.add(Instr::Conv(update.back), inner + 1)?;
    }
    into.add(write_instr(place), inner + 1)?;
    Ok(())
}

/// The operator of an update.
#[derive(Clone, Copy)]
pub(crate) struct Update {
    /// The operator.
    pub op: BinOp,
    /// The kind in which it works.
    pub kind: Kind,
    /// The kind to which its result is wrapped before it is stored.
    pub back: Kind,
}

/// How 1 is added to a place, or taken from it.
#[derive(Clone, Copy)]
pub(crate) struct Bump {
    /// The kind in which this is done.
    pub kind: Kind,
    /// Whether 1 is added.
    pub up: bool,
    /// Whether the number as it was is given.
    pub post: bool,
}

/// Appends what adds 1 to the number at a place, or takes 1 from it, behind the code of its index.
pub(crate) fn add_bump(
    bump: Bump,
    place: &Place,
    typed: &Typed,
    depth: u32,
    into: &mut Emitter,
) -> Result<(), NoMemory>
    requires fields { PlaceHasFieldCells place.now }
    requires depth { depth + 3 < 2 ^ 32 }
    ensures grows { OnOk result (length into.new ≡ length into.old + bump_size place.now bump.post) }
    ensures code { OnOk result (into.new ≡ into.old
        ++ bump_code typed.now place.now bump.kind bump.up bump.post depth) }
{
    if has_index(place) {
        add_bump_at_index(bump, place, typed, depth, into)?;
    } else {
        add_bump_in_place(bump, place, depth, into)?;
    }
    Ok(())
}

/// The same at an index, which is below the number.
fn add_bump_at_index(
    bump: Bump,
    place: &Place,
    typed: &Typed,
    depth: u32,
    into: &mut Emitter,
) -> Result<(), NoMemory>
    requires fields { PlaceHasFieldCells place.now }
    requires depth { depth + 3 < 2 ^ 32 }
    ensures grows { OnOk result
        (length into.new ≡ length into.old + (1 + (4 + (if bump.post then 2 else 0)))) }
    ensures code { OnOk result (into.new ≡ into.old
        ++ bump_at_index_code typed.now place.now bump.kind bump.up bump.post depth) }
{
    into.add(Instr::Dup, depth + 1)?;
    add_read(place, depth + 2, into)?;
    into.add(Instr::Push(1), depth + 2)?;
    into.add(Instr::Bin(bump_op(bump.up), bump.kind), depth + 3)?;
    into.add(write_instr(place), depth + 2)?;
    if bump.post {
        into.add(Instr::Push(1), depth + 1)?;
        into.add(
            Instr::Bin(bump_op(!bump.up), kind_at_index(place, typed)),
            depth + 2,
        )?;
    }
    Ok(())
}

/// The same at a place without an index.
fn add_bump_in_place(
    bump: Bump,
    place: &Place,
    depth: u32,
    into: &mut Emitter,
) -> Result<(), NoMemory>
    requires fields { PlaceHasFieldCells place.now }
    requires depth { depth + 3 < 2 ^ 32 }
    ensures grows { OnOk result (length into.new ≡ length into.old + (4 + (if bump.post then 2 else 0))) }
    ensures code { OnOk result (into.new ≡ into.old
        ++ bump_in_place_code place.now bump.kind bump.up bump.post depth) }
{
    add_read(place, depth, into)?;
    let operands = if bump.post { depth + 1 } else { depth };
    if bump.post {
        into.add(Instr::Dup, depth + 1)?;
    }
    into.add(Instr::Push(1), operands + 1)?;
    into.add(Instr::Bin(bump_op(bump.up), bump.kind), operands + 2)?;
    into.add(write_instr(place), operands + 1)?;
    if bump.post {
        into.add(Instr::Drop, depth + 2)?;
    }
    Ok(())
}

/// Appends what stores arguments in parameters, the last one first, which is on top. Below the
/// arguments there are `depth` numbers.
pub(crate) fn add_params(params: &[u32], depth: u32, into: &mut Emitter) -> Result<(), NoMemory>
    requires { depth + length params.now < 2 ^ 32 }
    ensures grows { OnOk result (length into.new ≡ length into.old + 2 * length params.now) }
    ensures code { OnOk result (into.new ≡ into.old ++ params_code params.now depth) }
{
    let mut left = params.len();
    while left > 0 {
        let param = params[left - 1];
        into.add(Instr::Store(param), depth + left as u32)?;
        into.add(Instr::Drop, depth + left as u32)?;
        left -= 1;
    }
    Ok(())
}
