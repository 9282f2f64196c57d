// The rules of operands. Each call notes what a form breaks by itself, given the sorts of its parts.

ghost use Rattle.std.specs.Prelude.{◌≡◌, ◌++◌};
ghost use Rattle.capl_meaning.specs.ExpressionRules.{index_rule, integer_needed, left_rule, number_rule, prefix_rule, right_rule, sides_rule, step_rule, this_rule};
ghost use Rattle.capl_meaning.specs.Message.{is_number_place};
ghost use Rattle.capl_meaning.specs.Sort.{sort_of, sort_of_number};
ghost use Rattle.check_names.specs.First.{noted};
ghost use Rattle.check_sorts.specs.Scope.{scope_in};
ghost use Rattle.check_sorts.specs.Message.{ArePlaces};
ghost use Rattle.check_expressions.specs.Judged.{IsJudged};

use crate::broken::note_broken;
use crate::judged::Judged;
use crate::sort::{is_array, is_message};
use capl_meaning::{Offence, Sort};
use capl_tree::Expr;
use check_sorts::{Places, Scope, ThisForm, is_bad, is_number};
use int_kinds::{BinOp, UnOp};

/// Notes that an integer is needed where an expression of this sort stands, if it is none.
pub fn note_integer_needed(scope: Scope, e: &Expr, sort: Sort, first: &mut Option<Offence>)
    requires { sort ≡ sort_of (scope_in scope) e.now }
    ensures { first.new ≡ noted first.old (integer_needed (scope_in scope.entry) e.now) }
{
    let broken = !is_number(sort) && !is_bad(sort);
    note_broken(scope, broken, e.place(), 13, first);
}

/// Notes that a number at a token is too great, if it is of this sort for that.
pub(crate) fn note_number(
    scope: Scope,
    at: u32,
    value: Option<u64>,
    extended: bool,
    sort: Sort,
    first: &mut Option<Offence>,
)
    requires { sort ≡ sort_of_number value extended }
    ensures { first.new ≡ noted first.old (number_rule (scope_in scope.entry) at value extended) }
{
    note_broken(scope, is_bad(sort), at, 18, first);
}

/// Notes that `this` stands at a token where it is nothing, if it is.
pub(crate) fn note_this(scope: Scope, at: u32, first: &mut Option<Offence>)
    ensures { let s = scope_in scope.entry in first.new ≡ noted first.old (this_rule s at s.this) }
{
    match scope.this {
        ThisForm::NoThis => note_broken(scope, true, at, 15, first),
        ThisForm::Frame(_) | ThisForm::Key => {}
    }
}

/// Notes that what has this sort and an index is no array, if it is none.
fn note_index(scope: Scope, at: u32, base: Sort, first: &mut Option<Offence>)
    ensures { first.new ≡ noted first.old (index_rule (scope_in scope.entry) at base) }
{
    let broken = !is_array(base) && !is_bad(base);
    note_broken(scope, broken, at, 28, first);
}

/// Notes what an element breaks by itself: an index of what is no array, or one that is no integer.
#[tactic(auto, using(crate::proofs::NotedLemmas::noted_both))]
pub(crate) fn note_element(
    scope: Scope,
    at: u32,
    base: Sort,
    index: Judged,
    first: &mut Option<Offence>,
)
    requires { IsJudged (scope_in scope) index }
    ensures { let s = scope_in scope.entry in
        first.new ≡ noted first.old (index_rule s at base ++ integer_needed s index.entry.e.now) }
{
    note_index(scope, at, base, first);
    note_integer_needed(scope, index.e, index.sort, first);
}

/// Notes that the operand of `++` or `--` is no assignable place of a number, if it is none.
pub(crate) fn note_step(scope: Scope, inner: Judged, is_place: bool, first: &mut Option<Offence>)
    requires sort { IsJudged (scope_in scope) inner }
    requires place { is_place ≡ is_number_place (scope_in scope) inner.e.now }
    ensures { first.new ≡ noted first.old (step_rule (scope_in scope.entry) inner.entry.e.now) }
{
    let broken = !is_bad(inner.sort) && !is_place;
    note_broken(scope, broken, inner.e.place(), 14, first);
}

/// Notes what a prefix operator breaks by itself: `++` and `--` need a place, all others an integer.
pub(crate) fn note_prefix(
    scope: Scope,
    operator: UnOp,
    inner: Judged,
    is_place: bool,
    first: &mut Option<Offence>,
)
    requires sort { IsJudged (scope_in scope) inner }
    requires place { is_place ≡ is_number_place (scope_in scope) inner.e.now }
    ensures { first.new ≡ noted first.old (prefix_rule (scope_in scope.entry) operator inner.entry.e.now) }
{
    match operator {
        UnOp::Up | UnOp::Down => note_step(scope, inner, is_place, first),
        UnOp::Plus | UnOp::Minus | UnOp::Not | UnOp::Inv => {
            note_integer_needed(scope, inner.e, inner.sort, first)
        }
    }
}

/// Notes that two operands are no integers, those that are none.
#[tactic(auto, using(crate::proofs::NotedLemmas::noted_both))]
pub(crate) fn note_operands(scope: Scope, left: Judged, right: Judged, first: &mut Option<Offence>)
    requires left { IsJudged (scope_in scope) left }
    requires right { IsJudged (scope_in scope) right }
    ensures { let s = scope_in scope.entry in
        first.new ≡
        noted first.old (integer_needed s left.entry.e.now ++ integer_needed s right.entry.e.now) }
{
    note_integer_needed(scope, left.e, left.sort, first);
    note_integer_needed(scope, right.e, right.sort, first);
}

/// Notes that the left of an assignment is no assignable place, if it is none.
fn note_left(
    scope: Scope,
    operator: Option<BinOp>,
    left: Judged,
    places: Places,
    first: &mut Option<Offence>,
)
    requires sort { IsJudged (scope_in scope) left }
    requires places { ArePlaces (scope_in scope) left.e.now places }
    ensures { first.new ≡ noted first.old (left_rule (scope_in scope.entry) operator left.entry.e.now) }
{
    let is_place = places.number || (operator.is_none() && places.message);
    let broken = !is_bad(left.sort) && !is_place;
    note_broken(scope, broken, left.e.place(), 14, first);
}

/// Notes that a message stands on one side only of an assignment, if one does.
fn note_sides(scope: Scope, at: u32, left: Sort, right: Sort, first: &mut Option<Offence>)
    ensures { first.new ≡ noted first.old (sides_rule (scope_in scope.entry) at left right) }
{
    let broken = if is_message(left) {
        !is_message(right) && !is_bad(right)
    } else {
        is_message(right) && !is_bad(left)
    };
    note_broken(scope, broken, at, 28, first);
}

/// Notes that the right of an assignment is no integer, if it is none and no side is a message.
fn note_right(scope: Scope, left: Judged, right: Judged, first: &mut Option<Offence>)
    requires left { IsJudged (scope_in scope) left }
    requires right { IsJudged (scope_in scope) right }
    ensures { first.new ≡
        noted first.old (right_rule (scope_in scope.entry) left.entry.e.now right.entry.e.now) }
{
    if !is_message(left.sort) && !is_message(right.sort) {
        note_integer_needed(scope, right.e, right.sort, first);
    }
}

/// Notes what an assignment breaks by itself: on its left, by a message on one side, and on its right.
#[tactic(auto, using(crate::proofs::NotedLemmas::noted_both))]
pub(crate) fn note_assignment(
    scope: Scope,
    operator: Option<BinOp>,
    at: u32,
    left: Judged,
    right: Judged,
    places: Places,
    first: &mut Option<Offence>,
)
    requires left { IsJudged (scope_in scope) left }
    requires right { IsJudged (scope_in scope) right }
    requires places { ArePlaces (scope_in scope) left.e.now places }
    ensures { let s = scope_in scope.entry in let l = left.entry.e.now in let r = right.entry.e.now in
        first.new ≡ noted first.old
        (left_rule s operator l ++ (sides_rule s at (sort_of s l) (sort_of s r) ++ right_rule s l r)) }
{
    note_left(scope, operator, left, places, first);
    note_sides(scope, at, left.sort, right.sort, first);
    note_right(scope, left, right, first);
}
