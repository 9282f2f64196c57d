// Whether expressions are sound.

ghost use Rattle.std.specs.Prelude.{◌≡◌, ◌↔◌, ◌<◌, ◌^◌, All, IsSome, IsSomeAnd, IsTrue, length, slice_get};
ghost use Rattle.std.specs.List.{AllByRecursion};
ghost use Rattle.typed_tree.specs.Memory.{kind_of};
ghost use Rattle.typed_tree.specs.SoundExpression.{CallsEarlier, CanGiveBack, GivesNumber, HasConstantInRange, HasFewArguments, HasOperation, HasSoundIndex, IsNoWider, IsOperation, IsPrefixOperation, IsSoundAlone, IsSoundExpr, IsSoundNode, IsUniformArray, NamesWhatExists, PlaceExists};

use int_kinds::{BinOp, Kind, UnOp, bits, is_number};
use message_cells::is_message;
use signal_codec::usable;
use typed_tree::{Place, TExpr, Typed};

/// The kind of a cell, which is long where there is no such cell.
fn kind_of(kinds: &[Kind], cell: u32) -> Kind
    ensures { result ≡ kind_of kinds.now cell }
{
    kinds.get(cell as usize).copied().unwrap_or(Kind::Long)
}

/// Whether all cells of an array have the kind of its first one.
fn are_of_kind(cells: &[Kind], kind: Kind) -> bool
    ensures { IsTrue result ↔ All (λ k. k ≡ kind) cells.now }
{
    cells.iter().all(|k| *k == kind)
}

/// Whether an array has a cell and all its cells are there and of one kind.
fn is_uniform_array(kinds: &[Kind], base: u32, len: u32) -> bool
    ensures { IsTrue result ↔ IsUniformArray kinds.now base len }
{
    let from = base as usize;
    let end = from + len as usize;
    if len == 0 || end > kinds.len() {
        return false;
    }
    are_of_kind(&kinds[from..end], kind_of(kinds, base))
}

/// Whether all that a place names exists.
fn place_exists(place: &Place, typed: &Typed) -> bool
    ensures { IsTrue result ↔ PlaceExists typed.now place.now }
{
    let kinds = typed.cells.as_slice();
    match place {
        Place::Cell { slot } => (*slot as usize) < kinds.len(),
        Place::Elem { base, len, .. } => is_uniform_array(kinds, *base, *len),
        Place::Set { msg, field } => *field <= 3 && is_message(kinds, *msg),
        Place::Bytes { msg, .. } => is_message(kinds, *msg),
        Place::Signal { msg, layout } => usable(layout) && is_message(kinds, *msg),
    }
}

/// Whether all that an expression names, but for the function of a call, exists.
fn names_what_exists(e: &TExpr, typed: &Typed) -> bool
    ensures { IsTrue result ↔ NamesWhatExists typed.now e.now }
{
    match e {
        TExpr::Load(place)
        | TExpr::Store { place, .. }
        | TExpr::Update { place, .. }
        | TExpr::Bump { place, .. } => place_exists(place, typed),
        TExpr::Active { timer } => (*timer as usize) < typed.timers.len(),
        TExpr::Const(_)
        | TExpr::Unary { .. }
        | TExpr::Binary { .. }
        | TExpr::Both { .. }
        | TExpr::Either { .. }
        | TExpr::Cond { .. }
        | TExpr::Convert { .. }
        | TExpr::Call { .. }
        | TExpr::Now => true,
    }
}

/// Whether an expression is no constant that is out of range.
fn has_constant_in_range(e: &TExpr) -> bool
    ensures { IsTrue result ↔ HasConstantInRange e.now }
{
    match e {
        TExpr::Const(n) => is_number(*n),
        TExpr::Load(_)
        | TExpr::Store { .. }
        | TExpr::Update { .. }
        | TExpr::Bump { .. }
        | TExpr::Unary { .. }
        | TExpr::Binary { .. }
        | TExpr::Both { .. }
        | TExpr::Either { .. }
        | TExpr::Cond { .. }
        | TExpr::Convert { .. }
        | TExpr::Call { .. }
        | TExpr::Active { .. }
        | TExpr::Now => true,
    }
}

/// Whether an operator is one on two numbers.
fn is_operation(op: BinOp) -> bool
    ensures { IsTrue result ↔ IsOperation op }
{
    !matches!(op, BinOp::OrElse | BinOp::AndAlso)
}

/// Whether an operator is one on one number.
fn is_prefix_operation(op: UnOp) -> bool
    ensures { IsTrue result ↔ IsPrefixOperation op }
{
    !matches!(op, UnOp::Up | UnOp::Down)
}

/// Whether the operator of an expression, if it has one, is one on numbers.
fn has_operation(e: &TExpr) -> bool
    ensures { IsTrue result ↔ HasOperation e.now }
{
    match e {
        TExpr::Update { op, .. } | TExpr::Binary { op, .. } => is_operation(*op),
        TExpr::Unary { op, .. } => is_prefix_operation(*op),
        TExpr::Const(_)
        | TExpr::Load(_)
        | TExpr::Store { .. }
        | TExpr::Bump { .. }
        | TExpr::Both { .. }
        | TExpr::Either { .. }
        | TExpr::Cond { .. }
        | TExpr::Convert { .. }
        | TExpr::Call { .. }
        | TExpr::Active { .. }
        | TExpr::Now => true,
    }
}

/// Whether there is a function of a number, and it has so many parameters.
fn takes(function: u32, count: usize, typed: &Typed) -> bool
    ensures { IsTrue result ↔ IsSomeAnd (slice_get typed.now.functions function)
        (λ function. count ≡ length function.params) }
{
    match typed.functions.as_slice().get(function as usize) {
        Some(called) => count == called.params.len(),
        None => false,
    }
}

/// Whether a call in the procedure of a number is of an earlier function, with as many arguments as it
/// has parameters.
fn calls_earlier(e: &TExpr, typed: &Typed, number: usize) -> bool
    ensures { IsTrue result ↔ CallsEarlier typed.now number e.now }
{
    match e {
        TExpr::Call { function, args } => {
            (*function as usize) < number && takes(*function, args.len(), typed)
        }
        TExpr::Const(_)
        | TExpr::Load(_)
        | TExpr::Store { .. }
        | TExpr::Update { .. }
        | TExpr::Bump { .. }
        | TExpr::Unary { .. }
        | TExpr::Binary { .. }
        | TExpr::Both { .. }
        | TExpr::Either { .. }
        | TExpr::Cond { .. }
        | TExpr::Convert { .. }
        | TExpr::Active { .. }
        | TExpr::Now => true,
    }
}

/// Whether there is a function of a number, and it gives a number.
fn gives_number(function: u32, typed: &Typed) -> bool
    ensures { IsTrue result ↔ GivesNumber typed.now function }
{
    match typed.functions.as_slice().get(function as usize) {
        Some(called) => called.gives.is_some(),
        None => false,
    }
}

/// Whether a call has fewer than 2^32 arguments.
fn has_few_arguments(e: &TExpr) -> bool
    ensures { IsTrue result ↔ HasFewArguments e.now }
{
    match e {
        TExpr::Call { args, .. } => args.len() <= u32::MAX as usize,
        TExpr::Const(_)
        | TExpr::Load(_)
        | TExpr::Store { .. }
        | TExpr::Update { .. }
        | TExpr::Bump { .. }
        | TExpr::Unary { .. }
        | TExpr::Binary { .. }
        | TExpr::Both { .. }
        | TExpr::Either { .. }
        | TExpr::Cond { .. }
        | TExpr::Convert { .. }
        | TExpr::Active { .. }
        | TExpr::Now => true,
    }
}

/// Whether what stands at an index is no wider than a kind.
fn is_no_wider(place: &Place, kind: Kind, typed: &Typed) -> bool
    ensures { IsTrue result ↔ IsNoWider typed.now place.now kind }
{
    match place {
        Place::Elem { base, .. } => bits(kind_of(typed.cells.as_slice(), *base)) <= bits(kind),
        Place::Bytes { kind: of, .. } => bits(*of) <= bits(kind),
        Place::Cell { .. } | Place::Set { .. } | Place::Signal { .. } => true,
    }
}

/// Whether the number as it was, where it is given, can be had from what is stored.
fn can_give_back(e: &TExpr, typed: &Typed) -> bool
    ensures { IsTrue result ↔ CanGiveBack typed.now e.now }
{
    match e {
        TExpr::Bump {
            place,
            kind,
            post,
            ..
        } => !*post || is_no_wider(place, *kind, typed),
        TExpr::Const(_)
        | TExpr::Load(_)
        | TExpr::Store { .. }
        | TExpr::Update { .. }
        | TExpr::Unary { .. }
        | TExpr::Binary { .. }
        | TExpr::Both { .. }
        | TExpr::Either { .. }
        | TExpr::Cond { .. }
        | TExpr::Convert { .. }
        | TExpr::Call { .. }
        | TExpr::Active { .. }
        | TExpr::Now => true,
    }
}

/// Whether an expression itself is sound in the procedure of a number.
fn is_sound_node(e: &TExpr, typed: &Typed, number: usize) -> bool
    ensures { IsTrue result ↔ IsSoundNode typed.now number e.now }
{
    names_what_exists(e, typed)
        && has_constant_in_range(e)
        && has_operation(e)
        && calls_earlier(e, typed, number)
        && has_few_arguments(e)
        && can_give_back(e, typed)
}

/// Whether an expression whose number is used is sound in the procedure of a number, with all in it.
/// Takes time linear in the expression.
#[cycle(expression)]
pub(crate) fn is_sound_expr(e: &TExpr, typed: &Typed, number: usize) -> bool
    ensures { IsTrue result ↔ IsSoundExpr typed.now number e.now }
{
    if !is_sound_node(e, typed, number) {
        return false;
    }
    match e {
        TExpr::Const(_) | TExpr::Active { .. } | TExpr::Now => true,
        TExpr::Load(place) | TExpr::Bump { place, .. } => has_sound_index(place, typed, number),
        TExpr::Store { place, value } | TExpr::Update { place, value, .. } => {
            has_sound_index(place, typed, number) && is_sound_expr(value.get(), typed, number)
        }
        TExpr::Unary { inner, .. } | TExpr::Convert { inner, .. } => {
            is_sound_expr(inner.get(), typed, number)
        }
        TExpr::Binary { left, right, .. }
        | TExpr::Both { left, right }
        | TExpr::Either { left, right } => {
            is_sound_expr(left.get(), typed, number) && is_sound_expr(right.get(), typed, number)
        }
        TExpr::Cond { test, yes, no } => {
            is_sound_expr(test.get(), typed, number)
                && is_sound_expr(yes.get(), typed, number)
                && is_sound_expr(no.get(), typed, number)
        }
        TExpr::Call { function, args } => {
            gives_number(*function, typed) && are_sound_exprs(args.as_slice(), typed, number)
        }
    }
}

/// Whether the index of a place, if it has one, is sound.
#[cycle(expression)]
fn has_sound_index(place: &Place, typed: &Typed, number: usize) -> bool
    ensures { IsTrue result ↔ HasSoundIndex typed.now number place.now }
{
    match place {
        Place::Elem { index, .. } | Place::Bytes { index, .. } => {
            is_sound_expr(index.get(), typed, number)
        }
        Place::Cell { .. } | Place::Set { .. } | Place::Signal { .. } => true,
    }
}

/// Whether expressions are sound.
#[cycle(expression)]
pub(crate) fn are_sound_exprs(all: &[TExpr], typed: &Typed, number: usize) -> bool
    ensures { IsTrue result ↔ AllByRecursion (IsSoundExpr typed.now number) all.now }
{
    for e in all {
        if !is_sound_expr(e, typed, number) {
            return false;
        }
    }
    true
}

/// Whether an expression that stands alone in a statement is sound.
pub(crate) fn is_sound_alone(e: &TExpr, typed: &Typed, number: usize) -> bool
    ensures { IsTrue result ↔ IsSoundAlone typed.now number e.now }
{
    match e {
        TExpr::Call { args, .. } => {
            is_sound_node(e, typed, number) && are_sound_exprs(args.as_slice(), typed, number)
        }
        TExpr::Const(_)
        | TExpr::Load(_)
        | TExpr::Store { .. }
        | TExpr::Update { .. }
        | TExpr::Bump { .. }
        | TExpr::Unary { .. }
        | TExpr::Binary { .. }
        | TExpr::Both { .. }
        | TExpr::Either { .. }
        | TExpr::Cond { .. }
        | TExpr::Convert { .. }
        | TExpr::Active { .. }
        | TExpr::Now => is_sound_expr(e, typed, number),
    }
}
