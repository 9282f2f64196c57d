// The walk over an expression and its parts.

ghost use Rattle.std.specs.Prelude.{◌≡◌, IfOk, OnOk, flat_map, true};
ghost use Rattle.capl_meaning.specs.ExpressionRules.{integer_offences, offences, offences_of_field};
ghost use Rattle.capl_meaning.specs.Sort.{sort_of};
ghost use Rattle.check_calls.specs.Calls.{AreCallsOf};
ghost use Rattle.check_names.specs.First.{noted};
ghost use Rattle.check_sorts.specs.Expression.{has_parts};
ghost use Rattle.check_sorts.specs.Message.{ArePlaces};
ghost use Rattle.check_sorts.specs.Scope.{scope_in};
ghost use Rattle.check_expressions.specs.Judged.{index_sort, sorts_in};

use crate::call::judge_call;
use crate::form::{
    judge_assignment, judge_binary, judge_cast, judge_choice, judge_element, judge_name,
    judge_named, judge_number, judge_prefix, judge_step, judge_this,
};
use crate::judged::{Judged, Target};
use crate::member::judge_member;
use crate::operand::note_integer_needed;
use capl_meaning::{Offence, Sort};
use capl_tree::{Expr, Field};
use check_calls::Calls;
use check_sorts::Scope;
use int_kinds::Kind;
use std::alloc::Global;
use texts::NoMemory;

/// The sort of an expression, once what it and its parts break is noted. Takes time linear in the
/// expression, but for names of one hash and for calls that go round.
#[cycle(expression)]
pub fn judge(
    alloc: Global,
    scope: Scope,
    calls: &Calls,
    e: &Expr,
    first: &mut Option<Offence>,
) -> Result<Sort, NoMemory>
    requires { AreCallsOf scope.names.now calls.now }
    ensures sort { IfOk result (λ sort. sort ≡ sort_of (scope_in scope.entry) e.now) }
    ensures noted { OnOk result (first.new ≡ noted first.old (offences (scope_in scope.entry) e.now)) }
{
    match e {
        Expr::Num { value, ext, at } => Ok(judge_number(scope, *at, *value, *ext, first)),
        Expr::Char { .. } => Ok(Sort::Number(Kind::Char)),
        Expr::Str { .. } => Ok(Sort::Text),
        Expr::This { at } => Ok(judge_this(scope, *at, first)),
        Expr::Name { name, at } => Ok(judge_name(scope, name.bytes(), *at, first)),
        _ => judge_whole(alloc, scope, calls, e, first),
    }
}

/// The sort of an expression with parts, once what it and they break is noted.
#[cycle(expression)]
fn judge_whole(
    alloc: Global,
    scope: Scope,
    calls: &Calls,
    e: &Expr,
    first: &mut Option<Offence>,
) -> Result<Sort, NoMemory>
    requires calls { AreCallsOf scope.names.now calls.now }
    requires parts { has_parts e.now ≡ true }
    ensures sort { IfOk result (λ sort. sort ≡ sort_of (scope_in scope.entry) e.now) }
    ensures noted { OnOk result (first.new ≡ noted first.old (offences (scope_in scope.entry) e.now)) }
{
    match e {
        Expr::Paren { inner, .. } => {
            let sort = judge(alloc, scope, calls, inner.get(), first)?;
            Ok(sort)
        }
        Expr::Call { name, args, at } => {
            let args = args.as_slice();
            let sorts = judge_row(alloc, scope, calls, args, first)?;
            let name = name.bytes();
            let sort = judge_call(
                alloc,
                scope,
                calls,
                name,
                *at,
                args,
                sorts.as_slice(),
                first,
            )?;
            Ok(sort)
        }
        Expr::Index { base, index, at } => {
            let base = base.get();
            let index = index.get();
            let base_sort = judge(alloc, scope, calls, base, first)?;
            let index_sort = judge(alloc, scope, calls, index, first)?;
            let base = Judged {
                e: base,
                sort: base_sort,
            };
            let index = Judged {
                e: index,
                sort: index_sort,
            };
            Ok(judge_element(scope, *at, base, index, first))
        }
        Expr::Member { base, field, at } => {
            let base = base.get();
            let base_sort = judge(alloc, scope, calls, base, first)?;
            let index = judge_field(alloc, scope, calls, field, first)?;
            let base = Judged {
                e: base,
                sort: base_sort,
            };
            Ok(judge_member(scope, *at, base, field, index, first))
        }
        Expr::Cast { kind, inner, .. } => {
            let inner = inner.get();
            let sort = judge(alloc, scope, calls, inner, first)?;
            Ok(judge_cast(scope, *kind, Judged { e: inner, sort }, first))
        }
        Expr::Unary { op, inner, .. } => {
            let inner = inner.get();
            let target = judge_target(alloc, scope, calls, inner, first)?;
            let sort = target.sort;
            let is_place = target.places.number;
            Ok(judge_prefix(scope, *op, Judged { e: inner, sort }, is_place, first))
        }
        Expr::Post { inner, .. } => {
            let inner = inner.get();
            let target = judge_target(alloc, scope, calls, inner, first)?;
            let sort = target.sort;
            let is_place = target.places.number;
            Ok(judge_step(scope, Judged { e: inner, sort }, is_place, first))
        }
        Expr::Binary {
            op,
            left,
            right,
            ..
        } => {
            let left = left.get();
            let right = right.get();
            let left_sort = judge(alloc, scope, calls, left, first)?;
            let right_sort = judge(alloc, scope, calls, right, first)?;
            let left = Judged {
                e: left,
                sort: left_sort,
            };
            let right = Judged {
                e: right,
                sort: right_sort,
            };
            Ok(judge_binary(scope, *op, left, right, first))
        }
        Expr::Cond { test, yes, no, .. } => {
            let test = test.get();
            let yes = yes.get();
            let no = no.get();
            let test_sort = judge(alloc, scope, calls, test, first)?;
            let yes_sort = judge(alloc, scope, calls, yes, first)?;
            let no_sort = judge(alloc, scope, calls, no, first)?;
            let test = Judged {
                e: test,
                sort: test_sort,
            };
            let yes = Judged {
                e: yes,
                sort: yes_sort,
            };
            let no = Judged {
                e: no,
                sort: no_sort,
            };
            Ok(judge_choice(scope, test, yes, no, first))
        }
        Expr::Assign {
            op,
            left,
            right,
            at,
        } => {
            let left = left.get();
            let right = right.get();
            let target = judge_target(alloc, scope, calls, left, first)?;
            let right_sort = judge(alloc, scope, calls, right, first)?;
            let places = target.places;
            let left = Judged {
                e: left,
                sort: target.sort,
            };
            let right = Judged {
                e: right,
                sort: right_sort,
            };
            Ok(judge_assignment(scope, *op, *at, left, right, places, first))
        }
        _ => unreachable!(),
    }
}

/// The sort of an expression and what it can be assigned, once what it and its parts break is noted.
#[cycle(expression)]
fn judge_target(
    alloc: Global,
    scope: Scope,
    calls: &Calls,
    e: &Expr,
    first: &mut Option<Offence>,
) -> Result<Target, NoMemory>
    requires { AreCallsOf scope.names.now calls.now }
    ensures sort { IfOk result (λ target. target.sort ≡ sort_of (scope_in scope.entry) e.now) }
    ensures places { IfOk result (λ target. ArePlaces (scope_in scope.entry) e.now target.places) }
    ensures noted { OnOk result (first.new ≡ noted first.old (offences (scope_in scope.entry) e.now)) }
{
    match e {
        Expr::Name { name, at } => Ok(judge_named(scope, name.bytes(), *at, first)),
        _ => {
            let sort = judge(alloc, scope, calls, e, first)?;
            let places = scope.places(e);
            Ok(Target { sort, places })
        }
    }
}

/// The sort of the index in a field, where it has one, once what that and its parts break is noted.
#[cycle(expression)]
pub fn judge_field(
    alloc: Global,
    scope: Scope,
    calls: &Calls,
    field: &Field,
    first: &mut Option<Offence>,
) -> Result<Option<Sort>, NoMemory>
    requires { AreCallsOf scope.names.now calls.now }
    ensures sort { IfOk result (λ sort. sort ≡ index_sort (scope_in scope.entry) field.now) }
    ensures noted { OnOk result (first.new ≡
        noted first.old (offences_of_field (scope_in scope.entry) field.now)) }
{
    match field {
        Field::Named { .. } => Ok(None),
        Field::Bytes { index, .. } => {
            let sort = judge(alloc, scope, calls, index.get(), first)?;
            Ok(Some(sort))
        }
    }
}

/// The sorts of expressions in order, once what they and their parts break is noted.
#[cycle(expression)]
fn judge_row(
    alloc: Global,
    scope: Scope,
    calls: &Calls,
    all: &[Expr],
    first: &mut Option<Offence>,
) -> Result<Vec<Sort>, NoMemory>
    requires { AreCallsOf scope.names.now calls.now }
    ensures sorts { IfOk result (λ sorts. sorts.items ≡ sorts_in (scope_in scope.entry) all.now) }
    ensures noted { OnOk result (first.new ≡
        noted first.old (flat_map (offences (scope_in scope.entry)) all.now)) }
{
    let mut sorts = Vec::new(alloc);
    for e in all {
        let sort = judge(alloc, scope, calls, e, first)?;
        sorts.push(sort)?;
    }
    Ok(sorts)
}

/// The sort of an expression of which an integer is needed, once what it and its parts break is noted.
/// Takes the time of [`judge`].
#[tactic(auto, using(crate::proofs::NotedLemmas::noted_both))]
pub fn judge_integer(
    alloc: Global,
    scope: Scope,
    calls: &Calls,
    e: &Expr,
    first: &mut Option<Offence>,
) -> Result<Sort, NoMemory>
    requires { AreCallsOf scope.names.now calls.now }
    ensures sort { IfOk result (λ sort. sort ≡ sort_of (scope_in scope.entry) e.now) }
    ensures noted { OnOk result (first.new ≡
        noted first.old (integer_offences (scope_in scope.entry) e.now)) }
{
    let sort = judge(alloc, scope, calls, e, first)?;
    note_integer_needed(scope, e, sort, first);
    Ok(sort)
}
