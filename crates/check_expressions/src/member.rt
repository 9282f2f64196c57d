// Members of messages.

ghost use Rattle.std.specs.Prelude.{◌≡◌, ◌++◌, Some};
ghost use Rattle.std.specs.Option.{option_map_or};
ghost use Rattle.capl_meaning.specs.declared.sort.Sort.TheVariants as sort;
ghost use Rattle.capl_meaning.specs.ExpressionRules.{index_needed, member_rules, name_of_member_rule, part_rules};
ghost use Rattle.capl_meaning.specs.Message as meant;
ghost use Rattle.capl_meaning.specs.Message.{member_named, message_in, signals_of};
ghost use Rattle.capl_meaning.specs.Names.{Names};
ghost use Rattle.capl_meaning.specs.Sort.{sort_of_member, sort_of_part};
ghost use Rattle.check_names.specs.First.{noted};
ghost use Rattle.check_sorts.specs.Form.{signals_in};
ghost use Rattle.check_sorts.specs.Message.{held_in, member_in};
ghost use Rattle.check_sorts.specs.Scope.{scope_in};
ghost use Rattle.check_expressions.specs.Judged.{IsJudged, index_sort};

use crate::broken::note_broken;
use crate::judged::Judged;
use crate::operand::note_integer_needed;
use capl_meaning::{Offence, Sort};
use capl_tree::Field;
use check_sorts::{
    DeclaredSignals, Held, Member, Scope, is_bad, member_named, number_from, sort_of_member,
};

/// Notes what a name behind the point of a message breaks, by what it is there.
fn note_member(scope: Scope, at: u32, name_at: u32, member: Member, first: &mut Option<Offence>)
    ensures { first.new ≡
        noted first.old (name_of_member_rule (scope_in scope.entry) at name_at (member_in member)) }
{
    match member {
        Member::Field(_) | Member::Signal(_) => {}
        Member::Unusable => note_broken(scope, true, name_at, 23, first),
        Member::Unknown { by_name: true } => note_broken(scope, true, name_at, 11, first),
        Member::Unknown { by_name: false } => note_broken(scope, true, at, 28, first),
    }
}

/// Notes that the index of payload bytes is no integer, if it is none; it has this sort.
fn note_index_needed(scope: Scope, field: &Field, index: Option<Sort>, first: &mut Option<Offence>)
    requires { index ≡ index_sort (scope_in scope) field.now }
    ensures { first.new ≡ noted first.old (index_needed (scope_in scope.entry) field.now) }
{
    match field {
        Field::Named { .. } => {}
        Field::Bytes { index: e, .. } => {
            let sort = index.unwrap_or(Sort::Bad);
            note_integer_needed(scope, e.get(), sort, first);
        }
    }
}

/// The signals of a message.
fn signals_of<'p>(held: Held<'p>) -> DeclaredSignals<'p>
    ensures { (names : Names) (m : meant.Held) →
        held_in names held.entry ≡ Some m → signals_in result ≡ signals_of m }
{
    match held {
        Held::Frame(signals) => signals,
        Held::Variable { signals, .. } => signals,
    }
}

/// What stands behind the point of a message with these signals, where an index has this sort.
fn judge_part(
    scope: Scope,
    at: u32,
    signals: DeclaredSignals,
    field: &Field,
    index: Option<Sort>,
    first: &mut Option<Offence>,
) -> Sort
    requires { index ≡ index_sort (scope_in scope) field.now }
    ensures sort { result ≡ sort_of_part (scope_in scope.entry) (signals_in signals.entry) field.now }
    ensures noted { (m : meant.Held) → signals_of m ≡ signals_in signals.entry →
        first.new ≡ noted first.old (part_rules (scope_in scope.entry) at field.now m) }
{
    match field {
        Field::Named { name, at: name_at } => {
            let member = member_named(signals, name.bytes());
            note_member(scope, at, *name_at, member, first);
            sort_of_member(member)
        }
        Field::Bytes { kind, .. } => number_from(index.unwrap_or(Sort::Bad), *kind),
    }
}

/// A member of an expression, where an index has this sort.
fn judge_behind(
    scope: Scope,
    at: u32,
    base: Judged,
    field: &Field,
    index: Option<Sort>,
    first: &mut Option<Offence>,
) -> Sort
    requires base { IsJudged (scope_in scope) base }
    requires index { index ≡ index_sort (scope_in scope) field.now }
    ensures sort { let s = scope_in scope.entry in result ≡ option_map_or
        (λ message. sort_of_part s (signals_of message) field.now) (message_in s base.entry.e.now) sort.Bad }
    ensures noted { first.new ≡
        noted first.old (member_rules (scope_in scope.entry) at base.entry.e.now field.now) }
{
    match scope.message_in(base.e) {
        Some(held) => judge_part(scope, at, signals_of(held), field, index, first),
        None => {
            note_broken(scope, !is_bad(base.sort), at, 28, first);
            Sort::Bad
        }
    }
}

/// A member of an expression, where an index has this sort.
#[tactic(auto, using(crate::proofs::NotedLemmas::noted_both))]
pub(crate) fn judge_member(
    scope: Scope,
    at: u32,
    base: Judged,
    field: &Field,
    index: Option<Sort>,
    first: &mut Option<Offence>,
) -> Sort
    requires base { IsJudged (scope_in scope) base }
    requires index { index ≡ index_sort (scope_in scope) field.now }
    ensures sort { let s = scope_in scope.entry in result ≡ option_map_or
        (λ message. sort_of_part s (signals_of message) field.now) (message_in s base.entry.e.now) sort.Bad }
    ensures noted { let s = scope_in scope.entry in first.new ≡ noted first.old
        (index_needed s field.now ++ member_rules s at base.entry.e.now field.now) }
{
    note_index_needed(scope, field, index, first);
    judge_behind(scope, at, base, field, index, first)
}
