// Forms of expressions by themselves. Each call gives the sort of a form and notes what it breaks, given
// the sorts of its parts.

ghost use Rattle.std.specs.Prelude.{◌≡◌, ◌++◌, MatchOption, None};
ghost use Rattle.capl_tree.specs.declared.expr.Expr.TheVariants.{Name};
ghost use Rattle.capl_meaning.specs.ExpressionRules.{index_rule, integer_needed, left_rule, name_rule, number_rule, prefix_rule, right_rule, sides_rule, step_rule, this_rule};
ghost use Rattle.capl_meaning.specs.Message.{is_message_place, is_number_place};
ghost use Rattle.capl_meaning.specs.Names.{means};
ghost use Rattle.capl_meaning.specs.Sort.{number_from, sort_of, sort_of_assignment, sort_of_binary, sort_of_choice, sort_of_element, sort_of_name, sort_of_number, sort_of_prefix, sort_of_step, sort_of_this};
ghost use Rattle.check_names.specs.First.{noted};
ghost use Rattle.check_sorts.specs.Message.{ArePlaces};
ghost use Rattle.check_sorts.specs.Scope.{IsMeaning, scope_in};
ghost use Rattle.check_expressions.specs.Judged.{IsJudged};

use crate::broken::note_broken;
use crate::judged::{Judged, Target};
use crate::operand::{
    note_assignment, note_element, note_integer_needed, note_number, note_operands, note_prefix,
    note_step, note_this,
};
use capl_meaning::{Offence, Sort};
use check_sorts::{
    Meaning, Places, Scope, direction, number_from, places_of_meaning, sort_of_assignment,
    sort_of_binary, sort_of_choice, sort_of_element, sort_of_form, sort_of_number, sort_of_prefix,
    sort_of_step, sort_of_this,
};
use int_kinds::{BinOp, Kind, UnOp};

/// A number at a token, as it is spelled.
pub(crate) fn judge_number(
    scope: Scope,
    at: u32,
    value: Option<u64>,
    extended: bool,
    first: &mut Option<Offence>,
) -> Sort
    ensures sort { result ≡ sort_of_number value extended }
    ensures noted { first.new ≡ noted first.old (number_rule (scope_in scope.entry) at value extended) }
{
    let sort = sort_of_number(value, extended);
    note_number(scope, at, value, extended, sort, first);
    sort
}

/// `this` at a token.
pub(crate) fn judge_this(scope: Scope, at: u32, first: &mut Option<Offence>) -> Sort
    ensures sort { result ≡ sort_of_this (scope_in scope.entry).this }
    ensures noted { let s = scope_in scope.entry in first.new ≡ noted first.old (this_rule s at s.this) }
{
    note_this(scope, at, first);
    sort_of_this(scope.this)
}

/// A name at a token.
pub(crate) fn judge_name(scope: Scope, name: &[u8], at: u32, first: &mut Option<Offence>) -> Sort
    ensures sort { result ≡ sort_of_name name.now (means (scope_in scope.entry) name.now at) }
    ensures noted { let s = scope_in scope.entry in
        first.new ≡ noted first.old (name_rule s at name.now (means s name.now at)) }
{
    let meaning = scope.meaning(name, at);
    judge_meaning(scope, name, at, meaning, first)
}

/// A name at a token, with what it can be assigned.
pub(crate) fn judge_named(scope: Scope, name: &[u8], at: u32, first: &mut Option<Offence>) -> Target
    ensures sort { result.sort ≡ sort_of_name name.now (means (scope_in scope.entry) name.now at) }
    ensures places { ArePlaces (scope_in scope.entry) (Name name.now at) result.places }
    ensures noted { let s = scope_in scope.entry in
        first.new ≡ noted first.old (name_rule s at name.now (means s name.now at)) }
{
    let meaning = scope.meaning(name, at);
    let sort = judge_meaning(scope, name, at, meaning, first);
    Target {
        sort,
        places: places_of_meaning(meaning),
    }
}

/// A name at a token, by what it means there.
fn judge_meaning(
    scope: Scope,
    name: &[u8],
    at: u32,
    meaning: Option<Meaning>,
    first: &mut Option<Offence>,
) -> Sort
    requires { let means = means (scope_in scope) name.now at in
        MatchOption meaning (means ≡ None) (IsMeaning scope.names.now means) }
    ensures sort { result ≡ sort_of_name name.now (means (scope_in scope.entry) name.now at) }
    ensures noted { let s = scope_in scope.entry in
        first.new ≡ noted first.old (name_rule s at name.now (means s name.now at)) }
{
    if let Some(meaning) = meaning {
        return sort_of_form(meaning.form);
    }
    if direction(name).is_some() {
        return Sort::Number(Kind::Long);
    }
    note_broken(scope, true, at, 9, first);
    Sort::Bad
}

/// An element: of what, at which index.
pub(crate) fn judge_element(
    scope: Scope,
    at: u32,
    base: Judged,
    index: Judged,
    first: &mut Option<Offence>,
) -> Sort
    requires base { IsJudged (scope_in scope) base }
    requires index { IsJudged (scope_in scope) index }
    ensures sort { let s = scope_in scope.entry in
        result ≡ sort_of_element (sort_of s base.entry.e.now) (sort_of s index.entry.e.now) }
    ensures noted { let s = scope_in scope.entry in first.new ≡
        noted first.old (index_rule s at (sort_of s base.entry.e.now) ++ integer_needed s index.entry.e.now) }
{
    note_element(scope, at, base.sort, index, first);
    sort_of_element(base.sort, index.sort)
}

/// A cast to a kind.
pub(crate) fn judge_cast(
    scope: Scope,
    kind: Kind,
    inner: Judged,
    first: &mut Option<Offence>,
) -> Sort
    requires { IsJudged (scope_in scope) inner }
    ensures sort { result ≡ number_from (sort_of (scope_in scope.entry) inner.entry.e.now) kind }
    ensures noted { first.new ≡ noted first.old (integer_needed (scope_in scope.entry) inner.entry.e.now) }
{
    note_integer_needed(scope, inner.e, inner.sort, first);
    number_from(inner.sort, kind)
}

/// A prefix operator, before what is an assignable place of a number or not.
pub(crate) fn judge_prefix(
    scope: Scope,
    operator: UnOp,
    inner: Judged,
    is_place: bool,
    first: &mut Option<Offence>,
) -> Sort
    requires sort { IsJudged (scope_in scope) inner }
    requires place { is_place ≡ is_number_place (scope_in scope) inner.e.now }
    ensures sort { let s = scope_in scope.entry in let e = inner.entry.e.now in
        result ≡ sort_of_prefix operator (is_number_place s e) (sort_of s e) }
    ensures noted { first.new ≡
        noted first.old (prefix_rule (scope_in scope.entry) operator inner.entry.e.now) }
{
    note_prefix(scope, operator, inner, is_place, first);
    sort_of_prefix(operator, is_place, inner.sort)
}

/// `++` or `--` behind what is an assignable place of a number or not.
pub(crate) fn judge_step(
    scope: Scope,
    inner: Judged,
    is_place: bool,
    first: &mut Option<Offence>,
) -> Sort
    requires sort { IsJudged (scope_in scope) inner }
    requires place { is_place ≡ is_number_place (scope_in scope) inner.e.now }
    ensures sort { let s = scope_in scope.entry in let e = inner.entry.e.now in
        result ≡ sort_of_step (is_number_place s e) (sort_of s e) }
    ensures noted { first.new ≡ noted first.old (step_rule (scope_in scope.entry) inner.entry.e.now) }
{
    note_step(scope, inner, is_place, first);
    sort_of_step(is_place, inner.sort)
}

/// A binary operator.
pub(crate) fn judge_binary(
    scope: Scope,
    operator: BinOp,
    left: Judged,
    right: Judged,
    first: &mut Option<Offence>,
) -> Sort
    requires left { IsJudged (scope_in scope) left }
    requires right { IsJudged (scope_in scope) right }
    ensures sort { let s = scope_in scope.entry in
        result ≡ sort_of_binary operator (sort_of s left.entry.e.now) (sort_of s right.entry.e.now) }
    ensures noted { let s = scope_in scope.entry in
        first.new ≡
        noted first.old (integer_needed s left.entry.e.now ++ integer_needed s right.entry.e.now) }
{
    note_operands(scope, left, right, first);
    sort_of_binary(operator, left.sort, right.sort)
}

/// `TEST ? ONE : OTHER`
#[tactic(auto, using(crate::proofs::NotedLemmas::noted_both))]
pub(crate) fn judge_choice(
    scope: Scope,
    test: Judged,
    one: Judged,
    other: Judged,
    first: &mut Option<Offence>,
) -> Sort
    requires test { IsJudged (scope_in scope) test }
    requires one { IsJudged (scope_in scope) one }
    requires other { IsJudged (scope_in scope) other }
    ensures sort { let s = scope_in scope.entry in result ≡
        sort_of_choice (sort_of s test.entry.e.now) (sort_of s one.entry.e.now)
        (sort_of s other.entry.e.now) }
    ensures noted { let s = scope_in scope.entry in first.new ≡ noted first.old
        (integer_needed s test.entry.e.now
        ++ (integer_needed s one.entry.e.now ++ integer_needed s other.entry.e.now)) }
{
    note_integer_needed(scope, test.e, test.sort, first);
    note_operands(scope, one, other, first);
    sort_of_choice(test.sort, one.sort, other.sort)
}

/// An assignment at a token, by what its left can be assigned.
pub(crate) fn judge_assignment(
    scope: Scope,
    operator: Option<BinOp>,
    at: u32,
    left: Judged,
    right: Judged,
    places: Places,
    first: &mut Option<Offence>,
) -> Sort
    requires left { IsJudged (scope_in scope) left }
    requires right { IsJudged (scope_in scope) right }
    requires places { ArePlaces (scope_in scope) left.e.now places }
    ensures sort { let s = scope_in scope.entry in let l = left.entry.e.now in result ≡ sort_of_assignment
        operator (is_number_place s l) (is_message_place s l) (sort_of s l) (sort_of s right.entry.e.now) }
    ensures noted { let s = scope_in scope.entry in let l = left.entry.e.now in let r = right.entry.e.now in
        first.new ≡ noted first.old
        (left_rule s operator l ++ (sides_rule s at (sort_of s l) (sort_of s r) ++ right_rule s l r)) }
{
    note_assignment(scope, operator, at, left, right, places, first);
    sort_of_assignment(
        operator,
        places.number,
        places.message,
        left.sort,
        right.sort,
    )
}
