// What decides which instructions are made of an expression, read from its tree alone.

ghost use Rattle.std.specs.Prelude.{◌≡◌, true, is_some, slice_get};
ghost use Rattle.std.specs.Option.{option_map_or};
ghost use Rattle.typed_tree.specs.Expression.{params_of};
ghost use Rattle.typed_tree.specs.Memory.{kind_of};
ghost use Rattle.typed_tree.specs.Shape.{divides, has_index, has_plain_index, is_checked_first, is_comparison, is_not, is_plain, is_truth, is_wrapped_first, leaves_number, stored_width};

use int_kinds::{BinOp, Kind, UnOp, bits};
use message_cells::MESSAGE_KINDS;
use typed_tree::{Place, TExpr, Typed};

/// Whether a place has an index, which stands on the stack while it is used.
pub fn has_index(place: &Place) -> bool
    ensures { result ≡ has_index place.now }
{
    match place {
        Place::Elem { .. } | Place::Bytes { .. } => true,
        Place::Cell { .. } | Place::Set { .. } | Place::Signal { .. } => false,
    }
}

/// The kind of a cell.
pub fn kind_of(kinds: &[Kind], cell: u32) -> Kind
    ensures { result ≡ kind_of kinds.now cell }
{
    kinds.get(cell as usize).copied().unwrap_or(Kind::Long)
}

/// On how many low bits of a number it depends what a store to a place leaves there.
fn stored_width(place: &Place, typed: &Typed) -> u32
    ensures { result ≡ stored_width typed.now place.now }
{
    match place {
        Place::Cell { slot } => bits(kind_of(typed.cells.as_slice(), *slot)),
        Place::Elem { base, .. } => bits(kind_of(typed.cells.as_slice(), *base)),
        Place::Set { field, .. } => bits(kind_of(&MESSAGE_KINDS, u32::from(*field))),
        Place::Bytes { kind, .. } => bits(*kind),
        Place::Signal { layout, .. } => u32::from(layout.len),
    }
}

/// Whether the result of an operator is wrapped to a kind by an instruction of its own, since the
/// store alone would keep more of it.
pub fn is_wrapped_first(place: &Place, back: Kind, typed: &Typed) -> bool
    ensures { result ≡ is_wrapped_first typed.now place.now back }
{
    bits(back) < stored_width(place, typed)
}

/// Whether an operator compares, so that it gives 0 or 1 and has an opposite.
pub fn is_comparison(op: BinOp) -> bool
    ensures { result ≡ is_comparison op }
{
    match op {
        BinOp::Equal
        | BinOp::NotEqual
        | BinOp::Less
        | BinOp::LessEqual
        | BinOp::Greater
        | BinOp::GreaterEqual => true,
        BinOp::OrElse
        | BinOp::AndAlso
        | BinOp::Or
        | BinOp::Xor
        | BinOp::And
        | BinOp::Shl
        | BinOp::Shr
        | BinOp::Add
        | BinOp::Sub
        | BinOp::Mul
        | BinOp::Div
        | BinOp::Rem => false,
    }
}

/// Whether an operator's right operand may not be 0.
fn divides(op: BinOp) -> bool
    ensures { result ≡ divides op }
{
    matches!(op, BinOp::Div | BinOp::Rem)
}

/// Whether an operator is `!`.
pub fn is_not(op: UnOp) -> bool
    ensures { result ≡ is_not op }
{
    matches!(op, UnOp::Not)
}

/// Whether an expression gives 0 or 1 and nothing else.
pub fn is_truth(e: &TExpr) -> bool
    ensures { result ≡ is_truth e.now }
{
    match e {
        TExpr::Unary { op, .. } => is_not(*op),
        TExpr::Binary { op, .. } => is_comparison(*op),
        TExpr::Both { .. } | TExpr::Either { .. } | TExpr::Active { .. } => true,
        TExpr::Const(_)
        | TExpr::Load(_)
        | TExpr::Store { .. }
        | TExpr::Update { .. }
        | TExpr::Bump { .. }
        | TExpr::Cond { .. }
        | TExpr::Convert { .. }
        | TExpr::Call { .. }
        | TExpr::Now => false,
    }
}

/// Whether an expression changes nothing, and no trap ends it but that of an index.
#[cycle(plain)]
fn is_plain(e: &TExpr) -> bool
    ensures { result ≡ is_plain e.now }
{
    match e {
        TExpr::Const(_) | TExpr::Active { .. } | TExpr::Now => true,
        TExpr::Load(place) => has_plain_index(place),
        TExpr::Unary { inner, .. } | TExpr::Convert { inner, .. } => is_plain(inner.get()),
        TExpr::Binary {
            op,
            left,
            right,
            ..
        } => !divides(*op) && is_plain(left.get()) && is_plain(right.get()),
        TExpr::Both { left, right } | TExpr::Either { left, right } => {
            is_plain(left.get()) && is_plain(right.get())
        }
        TExpr::Cond { test, yes, no } => {
            is_plain(test.get()) && is_plain(yes.get()) && is_plain(no.get())
        }
        TExpr::Store { .. } | TExpr::Update { .. } | TExpr::Bump { .. } | TExpr::Call { .. } =>
            false,
    }
}

/// Whether the index of a place, if it has one, is such an expression.
#[cycle(plain)]
fn has_plain_index(place: &Place) -> bool
    ensures { result ≡ has_plain_index place.now }
{
    match place {
        Place::Elem { index, .. } | Place::Bytes { index, .. } => is_plain(index.get()),
        Place::Cell { .. } | Place::Set { .. } | Place::Signal { .. } => true,
    }
}

/// Whether the index of a place is checked before the right side of an assignment is evaluated.
pub fn is_checked_first(place: &Place, value: &TExpr) -> bool
    ensures { result ≡ is_checked_first place.now value.now }
{
    has_index(place) && !is_plain(value)
}

/// The parameters of a function, none where there is no such function.
pub fn params_of(function: u32, typed: &Typed) -> &[u32]
    ensures { result.now ≡ params_of typed.now function }
{
    match typed.functions.as_slice().get(function as usize) {
        Some(called) => called.params.as_slice(),
        None => &[],
    }
}

/// Whether an expression leaves a number on the stack. Each does but for a call of a function that
/// gives none.
pub fn leaves_number(e: &TExpr, typed: &Typed) -> bool
    ensures { result ≡ leaves_number typed.now e.now }
{
    match e {
        TExpr::Call { function, .. } => gives_number(*function, typed),
        TExpr::Const(_)
        | TExpr::Load(_)
        | TExpr::Store { .. }
        | TExpr::Update { .. }
        | TExpr::Bump { .. }
        | TExpr::Unary { .. }
        | TExpr::Binary { .. }
        | TExpr::Both { .. }
        | TExpr::Either { .. }
        | TExpr::Cond { .. }
        | TExpr::Convert { .. }
        | TExpr::Active { .. }
        | TExpr::Now => true,
    }
}

/// Whether a function gives a number. One that is not there is said to.
fn gives_number(function: u32, typed: &Typed) -> bool
    ensures { result ≡ option_map_or (λ function. is_some function.gives)
        (slice_get typed.now.functions function) true }
{
    match typed.functions.as_slice().get(function as usize) {
        Some(called) => called.gives.is_some(),
        None => true,
    }
}
