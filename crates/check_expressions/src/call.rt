// Calls.

ghost use Rattle.std.specs.Prelude.{◌≡◌, ℕ, List, Option, IfOk, OnOk, flat_map, slice_get};
ghost use Rattle.capl_meaning.specs.ExpressionRules.{builtin_rules, call_rules, function_rules, integer_needed};
ghost use Rattle.std.specs.List.{list_all};
ghost use Rattle.std.specs.Option.{option_copied, option_map, option_map_or};
ghost use Rattle.capl_meaning.specs.Names as meant;
ghost use Rattle.capl_meaning.specs.Names.{callee};
ghost use Rattle.capl_meaning.specs.Sort.{is_number, is_recursive, sort_of_builtin, sort_of_call, sort_of_function};
ghost use Rattle.check_calls.specs.Calls.{AreCallsOf};
ghost use Rattle.check_names.specs.First.{noted};
ghost use Rattle.check_names.specs.Function.{function_in};
ghost use Rattle.check_sorts.specs.Scope.{scope_in};
ghost use Rattle.check_expressions.specs.Judged.{sorts_in, text_in_first};

use crate::argument::{Needed, note_none, note_one, note_set};
use crate::broken::note_broken;
use crate::operand::note_integer_needed;
use crate::write::note_write;
use capl_meaning::{Builtin, Offence, Sort};
use capl_tree::Expr;
use check_calls::Calls;
use check_names::{DeclaredFunction, Names};
use check_sorts::{Callee, Scope, is_number, sort_given, sort_of_builtin, text_in};
use std::alloc::Global;
use texts::NoMemory;

/// Notes what a call of a function of the language breaks by itself, whose arguments have these sorts.
pub(crate) fn note_builtin(
    alloc: Global,
    scope: Scope,
    at: u32,
    builtin: Builtin,
    args: &[Expr],
    sorts: &[Sort],
    first: &mut Option<Offence>,
) -> Result<(), NoMemory>
    requires { sorts.now ≡ sorts_in (scope_in scope) args.now }
    ensures { OnOk result (first.new ≡
        noted first.old (builtin_rules (scope_in scope.entry) at builtin args.now)) }
{
    match builtin {
        Builtin::Output => note_one(scope, at, Needed::Message, sorts, first),
        Builtin::Write => note_write(alloc, scope, at, args, sorts, first)?,
        Builtin::SetTimer | Builtin::SetTimerCyclic => note_set(scope, at, args, sorts, first),
        Builtin::CancelTimer | Builtin::IsTimerActive => {
            note_one(scope, at, Needed::Timer, sorts, first)
        }
        Builtin::Stop | Builtin::TimeNow => note_none(scope, at, args, first),
        Builtin::ElCount => note_one(scope, at, Needed::Array, sorts, first),
    }
    Ok(())
}

/// The bytes of the first of expressions, if it is a text.
fn text_in_first(args: &[Expr]) -> Option<&[u8]>
    ensures { option_copied result ≡ text_in_first args.now }
{
    text_in(args.first()?)
}

/// A call of a function of the language at a token, whose arguments have these sorts.
fn judge_builtin(
    alloc: Global,
    scope: Scope,
    at: u32,
    builtin: Builtin,
    args: &[Expr],
    sorts: &[Sort],
    first: &mut Option<Offence>,
) -> Result<Sort, NoMemory>
    requires { sorts.now ≡ sorts_in (scope_in scope) args.now }
    ensures sort { IfOk result (λ sort. sort ≡ sort_of_builtin builtin (text_in_first args.now) sorts.now) }
    ensures noted { OnOk result (first.new ≡
        noted first.old (builtin_rules (scope_in scope.entry) at builtin args.now)) }
{
    note_builtin(alloc, scope, at, builtin, args, sorts, first)?;
    Ok(sort_of_builtin(builtin, text_in_first(args), sorts))
}

/// Notes each of expressions, which have these sorts, that is no integer.
fn note_integers_needed(scope: Scope, args: &[Expr], sorts: &[Sort], first: &mut Option<Offence>)
    requires { sorts.now ≡ sorts_in (scope_in scope) args.now }
    ensures { first.new ≡ noted first.old (flat_map (integer_needed (scope_in scope.entry)) args.now) }
{
    for (i, e) in args.iter().enumerate() {
        note_integer_needed(scope, e, sorts[i], first);
    }
}

/// Whether all sorts are numbers.
fn are_numbers(sorts: &[Sort]) -> bool
    ensures { result ≡ list_all is_number sorts.now }
{
    sorts.iter().all(|sort| is_number(*sort))
}

/// The function of a number, or None where there is none.
fn function_at<'a, 'p>(names: &'a Names<'p>, number: u32) -> Option<&'a DeclaredFunction<'p>>
    ensures { option_map (λ f. function_in f.now) result ≡ slice_get names.now.functions number }
{
    names.functions().get(number as usize)
}

/// The sort of a call of a function of the program, whose arguments have these sorts; and whether it is
/// recursive.
fn sort_of_function(function: &DeclaredFunction, recursive: bool, sorts: &[Sort]) -> Sort
    ensures { (s : meant.Scope) → recursive ≡ is_recursive s (function_in function.now) →
        result ≡ sort_of_function s (function_in function.now) sorts.now }
{
    let fits = sorts.len() == function.parameters.len();
    if fits && are_numbers(sorts) && !recursive {
        sort_given(function.gives)
    } else {
        Sort::Bad
    }
}

/// Notes what a call of a function of the program breaks by itself, whose arguments have these sorts; and
/// whether it is recursive.
#[tactic(auto, using(crate::proofs::NotedLemmas::noted_both))]
fn note_function(
    scope: Scope,
    at: u32,
    function: &DeclaredFunction,
    recursive: bool,
    args: &[Expr],
    sorts: &[Sort],
    first: &mut Option<Offence>,
)
    requires sorts { sorts.now ≡ sorts_in (scope_in scope) args.now }
    requires recursive { recursive ≡ is_recursive (scope_in scope) (function_in function.now) }
    ensures { first.new ≡ noted first.old
        (function_rules (scope_in scope.entry) at (function_in function.now) args.now) }
{
    let fits = args.len() == function.parameters.len();
    note_broken(scope, !fits, at, 16, first);
    note_integers_needed(scope, args, sorts, first);
    note_broken(scope, recursive, at, 26, first);
}

/// A call, at a token, of the function of this number, whose arguments have these sorts.
fn judge_function(
    alloc: Global,
    scope: Scope,
    calls: &Calls,
    at: u32,
    number: u32,
    args: &[Expr],
    sorts: &[Sort],
    first: &mut Option<Offence>,
) -> Result<Sort, NoMemory>
    requires calls { AreCallsOf scope.names.now calls.now }
    requires sorts { sorts.now ≡ sorts_in (scope_in scope) args.now }
    ensures sort { let s = scope_in scope.entry in
        let f = option_map_or meant.OfProgram (slice_get s.names.functions number) meant.Unknown in
        (text : Option (List ℕ)) → IfOk result (λ sort. sort ≡ sort_of_call s f text sorts.now) }
    ensures noted { let s = scope_in scope.entry in
        let f = option_map_or meant.OfProgram (slice_get s.names.functions number) meant.Unknown in
        OnOk result (first.new ≡ noted first.old (call_rules s at f args.now)) }
{
    let Some(function) = function_at(scope.names, number) else {
        note_broken(scope, true, at, 9, first);
        return Ok(Sort::Bad);
    };
    let recursive = calls.is_recursive(alloc, scope.owner, number)?;
    note_function(scope, at, function, recursive, args, sorts, first);
    Ok(sort_of_function(function, recursive, sorts))
}

/// A call of a name at a token, whose arguments have these sorts.
pub(crate) fn judge_call(
    alloc: Global,
    scope: Scope,
    calls: &Calls,
    name: &[u8],
    at: u32,
    args: &[Expr],
    sorts: &[Sort],
    first: &mut Option<Offence>,
) -> Result<Sort, NoMemory>
    requires calls { AreCallsOf scope.names.now calls.now }
    requires sorts { sorts.now ≡ sorts_in (scope_in scope) args.now }
    ensures sort { let s = scope_in scope.entry in IfOk result (λ sort.
        sort ≡ sort_of_call s (callee s.names name.now) (text_in_first args.now) sorts.now) }
    ensures noted { let s = scope_in scope.entry in
        OnOk result (first.new ≡ noted first.old (call_rules s at (callee s.names name.now) args.now)) }
{
    match scope.callee(name) {
        Callee::Language(builtin) => {
            let sort = judge_builtin(alloc, scope, at, builtin, args, sorts, first)?;
            Ok(sort)
        }
        Callee::Program(number) => {
            let sort = judge_function(alloc, scope, calls, at, number, args, sorts, first)?;
            Ok(sort)
        }
        Callee::Unknown => {
            note_broken(scope, true, at, 9, first);
            Ok(Sort::Bad)
        }
    }
}
