// The typed forms of expressions, from the trees of their parts.

ghost use Rattle.std.specs.Prelude.{◌≡◌, pos, IfOk};
ghost use Rattle.typed_tree.specs.Forms.{Convert, Unary};
ghost use Rattle.typed_tree.specs.declared.expression.TExpr.TheVariants.{Const};
ghost use Rattle.typed_tree.specs.Forms as typed;
ghost use Rattle.capl_meaning.specs.Inside.Expression.{step_operator};
ghost use Rattle.typed_source.specs.Expression.{loaded, operation, stepping, storing, updating};

use int_kinds::{BinOp, Kind, UnOp, join};
use items::Boxed;
use std::alloc::Global;
use texts::NoMemory;
use typed_tree::{Place, TExpr};

/// The number at a place, and 0 where there is none.
pub(crate) fn loaded(place: Option<Place>) -> TExpr
    ensures { result ≡ loaded place }
{
    match place {
        Some(place) => TExpr::Load(place),
        None => TExpr::Const(0),
    }
}

/// A number wrapped to a kind.
pub(crate) fn converted(kind: Kind, inner: Boxed<TExpr>) -> TExpr
    ensures { result ≡ Convert kind inner }
{
    TExpr::Convert { kind, inner }
}

/// A prefix operator, which works in a kind.
pub(crate) fn prefixed(op: UnOp, kind: Kind, inner: Boxed<TExpr>) -> TExpr
    ensures { result ≡ Unary op kind inner }
{
    TExpr::Unary { op, kind, inner }
}

/// An assignment. Where there is no place it gives its right side.
pub(crate) fn storing(place: Option<Place>, value: Boxed<TExpr>) -> TExpr
    ensures { result ≡ storing place value }
{
    match place {
        None => value.into_inner(),
        Some(place) => TExpr::Store { place, value },
    }
}

/// An assignment with an operator, which works in a kind. Where there is no place it works on 0.
pub(crate) fn updating(
    alloc: Global,
    op: BinOp,
    kind: Kind,
    place: Option<Place>,
    value: Boxed<TExpr>,
) -> Result<TExpr, NoMemory>
    ensures { IfOk result (λ tree. tree ≡ updating op kind place value) }
{
    match place {
        None => {
            let left = Boxed::new(alloc, TExpr::Const(0))?;
            Ok(TExpr::Binary {
                op,
                kind,
                left,
                right: value,
            })
        }
        Some(place) => Ok(TExpr::Update {
            op,
            kind,
            back: kind,
            place,
            value,
        }),
    }
}

/// 1 added to 0 in a kind, or taken from it.
fn one_step(alloc: Global, kind: Kind, up: bool) -> Result<TExpr, NoMemory>
    ensures { IfOk result (λ tree.
        tree ≡ typed.Binary (step_operator up) kind (Const (pos 0)) (Const (pos 1))) }
{
    let left = Boxed::new(alloc, TExpr::Const(0))?;
    let right = Boxed::new(alloc, TExpr::Const(1))?;
    let op = if up { BinOp::Add } else { BinOp::Sub };
    Ok(TExpr::Binary {
        op,
        kind,
        left,
        right,
    })
}

/// `++` or `--` before a place of a kind, or behind it. Where there is no place, 1 is added to 0 or
/// taken from it.
pub(crate) fn stepping(
    alloc: Global,
    kind: Kind,
    up: bool,
    post: bool,
    place: Option<Place>,
) -> Result<TExpr, NoMemory>
    ensures { IfOk result (λ tree. tree ≡ stepping kind up post place) }
{
    let kind = join(kind, Kind::Long);
    match place {
        Some(place) => Ok(TExpr::Bump {
            place,
            kind,
            up,
            post,
        }),
        None if post => Ok(TExpr::Const(0)),
        None => one_step(alloc, kind, up),
    }
}

/// A binary operator, which works in a kind.
pub(crate) fn operation(op: BinOp, kind: Kind, left: Boxed<TExpr>, right: Boxed<TExpr>) -> TExpr
    ensures { result ≡ operation op kind left right }
{
    match op {
        BinOp::AndAlso => TExpr::Both { left, right },
        BinOp::OrElse => TExpr::Either { left, right },
        _ => TExpr::Binary {
            op,
            kind,
            left,
            right,
        },
    }
}
