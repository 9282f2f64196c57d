// How many instructions the code of an expression has.

ghost use Rattle.std.specs.Prelude.{◌≡◌, ◌-◌, ◌^◌, min, sum_by};
ghost use Rattle.typed_tree.specs.Size.{bump_size, dropped_size, exit_size, index_size, test_size, truth_size, value_size};

use crate::shape::{
    has_index, is_checked_first, is_comparison, is_not, is_truth, is_wrapped_first, params_of,
};
use typed_tree::{Place, TExpr, Typed};

/// The size of an exit for a truth, behind the number that decides, where the exit's own instruction
/// goes there for the truth `fires`.
fn exit_size(when: bool, fires: bool) -> u64
    ensures { result ≡ exit_size when fires }
{
    if when == fires { 1 } else { 2 }
}

/// The size of what brings a number to 0 or 1.
pub fn truth_size(e: &TExpr) -> u32
    ensures { result ≡ truth_size e.now }
{
    if is_truth(e) { 0 } else { 2 }
}

/// The size of what adds 1 to a place, or takes 1 from it, behind the code of its index.
fn bump_size(place: &Place, post: bool) -> u64
    ensures { result ≡ bump_size place.now post }
{
    u64::from(has_index(place)) + 4 + if post { 2 } else { 0 }
}

/// How many instructions the code of an expression has as a value, or 2^64 - 1 where it has more. Takes
/// time linear in the expression.
#[cycle(sizes)]
#[tactic(auto, using(crate::proofs::By::form), unfolding(crate::proofs::By::held, crate::proofs::By::row))]
pub fn value_size(e: &TExpr, typed: &Typed) -> u64
    ensures { result ≡ min (value_size typed.now e.now) (2 ^ 64 - 1) }
{
    match e {
        TExpr::Const(_) | TExpr::Active { .. } | TExpr::Now => 1,
        TExpr::Load(place) => index_size(place, typed).saturating_add(1),
        TExpr::Store { place, value } => {
            let check = u64::from(is_checked_first(place, value.get()));
            index_size(place, typed)
                .saturating_add(check)
                .saturating_add(value_size(value.get(), typed))
                .saturating_add(1)
        }
        TExpr::Update {
            back,
            place,
            value,
            ..
        } => {
            let again = u64::from(has_index(place));
            let wrapped = u64::from(is_wrapped_first(place, *back, typed));
            index_size(place, typed)
                .saturating_add(value_size(value.get(), typed))
                .saturating_add(again + wrapped + 3)
        }
        TExpr::Bump { place, post, .. } => {
            index_size(place, typed).saturating_add(bump_size(place, *post))
        }
        TExpr::Unary { inner, .. } => value_size(inner.get(), typed).saturating_add(1),
        TExpr::Binary { left, right, .. } => value_size(left.get(), typed)
            .saturating_add(value_size(right.get(), typed))
            .saturating_add(1),
        TExpr::Both { left, right } => {
            let truth = u64::from(truth_size(right.get()));
            test_size(left.get(), typed, false, false)
                .saturating_add(value_size(right.get(), typed))
                .saturating_add(truth + 2)
        }
        TExpr::Either { left, right } => {
            let truth = u64::from(truth_size(right.get()));
            test_size(left.get(), typed, false, false)
                .saturating_add(value_size(right.get(), typed))
                .saturating_add(truth + 2)
        }
        TExpr::Cond { test, yes, no } => test_size(test.get(), typed, false, false)
            .saturating_add(value_size(yes.get(), typed))
            .saturating_add(value_size(no.get(), typed))
            .saturating_add(1),
        TExpr::Convert { inner, .. } => value_size(inner.get(), typed).saturating_add(1),
        TExpr::Call { function, args } => {
            let params = params_of(*function, typed).len() as u64;
            values_size(args.as_slice(), typed).saturating_add(2 * params + 1)
        }
    }
}

/// How many instructions the code of an expression has as a test that goes to an exit where the
/// expression's truth is `when`, and whose own instruction goes there for the truth `fires`: not 0 for
/// an exit back, and 0 for one forward; or 2^64 - 1 where it has more. Takes time linear in the
/// expression.
#[cycle(sizes)]
pub fn test_size(e: &TExpr, typed: &Typed, when: bool, fires: bool) -> u64
    ensures { result ≡ min (test_size typed.now when fires e.now) (2 ^ 64 - 1) }
{
    match e {
        TExpr::Unary { op, inner, .. } if is_not(*op) => {
            test_size(inner.get(), typed, !when, fires)
        }
        TExpr::Binary { op, .. } if is_comparison(*op) => { value_size(e, typed).saturating_add(1) }
        TExpr::Both { left, right } => {
            let goes = if when { false } else { fires };
            test_size(left.get(), typed, false, goes).saturating_add(test_size(
                right.get(),
                typed,
                when,
                fires,
            ))
        }
        TExpr::Either { left, right } => {
            let goes = if when { fires } else { false };
            test_size(left.get(), typed, true, goes).saturating_add(test_size(
                right.get(),
                typed,
                when,
                fires,
            ))
        }
        TExpr::Const(_)
        | TExpr::Load(_)
        | TExpr::Store { .. }
        | TExpr::Update { .. }
        | TExpr::Bump { .. }
        | TExpr::Unary { .. }
        | TExpr::Binary { .. }
        | TExpr::Cond { .. }
        | TExpr::Convert { .. }
        | TExpr::Call { .. }
        | TExpr::Active { .. }
        | TExpr::Now => value_size(e, typed).saturating_add(exit_size(when, fires)),
    }
}

/// The size of a place's index.
#[cycle(sizes)]
fn index_size(place: &Place, typed: &Typed) -> u64
    ensures { result ≡ min (index_size typed.now place.now) (2 ^ 64 - 1) }
{
    match place {
        Place::Elem { index, .. } | Place::Bytes { index, .. } => value_size(index.get(), typed),
        Place::Cell { .. } | Place::Set { .. } | Place::Signal { .. } => 0,
    }
}

/// How many instructions the codes of expressions have together, each as a value, or 2^64 - 1 where
/// they have more.
#[cycle(sizes)]
pub fn values_size(all: &[TExpr], typed: &Typed) -> u64
    ensures { result ≡ min (sum_by (value_size typed.now) all.now) (2 ^ 64 - 1) }
{
    let mut size = 0u64;
    for e in all {
        size = size.saturating_add(value_size(e, typed));
    }
    size
}

/// How many instructions the code of an expression has whose value is dropped, without the drop, or
/// 2^64 - 1 where it has more.
#[tactic(auto, using(crate::proofs::By::form), unfolding(crate::proofs::By::held, crate::proofs::By::row))]
pub fn dropped_size(e: &TExpr, typed: &Typed) -> u64
    ensures { result ≡ min (dropped_size typed.now e.now) (2 ^ 64 - 1) }
{
    match e {
        TExpr::Bump { place, .. } => {
            index_size(place, typed).saturating_add(bump_size(place, false))
        }
        TExpr::Const(_)
        | TExpr::Load(_)
        | TExpr::Store { .. }
        | TExpr::Update { .. }
        | TExpr::Unary { .. }
        | TExpr::Binary { .. }
        | TExpr::Both { .. }
        | TExpr::Either { .. }
        | TExpr::Cond { .. }
        | TExpr::Convert { .. }
        | TExpr::Call { .. }
        | TExpr::Active { .. }
        | TExpr::Now => value_size(e, typed),
    }
}
