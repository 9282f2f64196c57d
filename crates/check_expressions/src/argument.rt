// The arguments of calls of functions of the language.

ghost use Rattle.std.specs.Prelude.{◌≡◌, List};
ghost use Rattle.capl_tree.specs.declared.expr.Expr.{Expr};
ghost use Rattle.check_names.specs.First.{noted};
ghost use Rattle.check_sorts.specs.Scope.{scope_in};
ghost use Rattle.check_expressions.specs.Arguments.{is_needed, none_rules, one_rules, set_rules};
ghost use Rattle.check_expressions.specs.Judged.{sorts_in};

use crate::broken::note_broken;
use crate::operand::note_integer_needed;
use crate::sort::{is_array, is_message, is_timer};
use capl_meaning::{Offence, Sort};
use capl_tree::Expr;
use check_sorts::{Scope, is_bad};

/// What is needed of an argument.
#[derive(Clone, Copy)]
pub(crate) enum Needed {
    /// An array.
    Array,
    /// A message.
    Message,
    /// A timer.
    Timer,
}

/// Whether a sort is what is needed.
fn is_needed(needed: Needed, sort: Sort) -> bool
    ensures { result ≡ is_needed needed sort }
{
    match needed {
        Needed::Array => is_array(sort),
        Needed::Message => is_message(sort),
        Needed::Timer => is_timer(sort),
    }
}

/// Notes that a call at a token has arguments, if it has.
pub(crate) fn note_none(scope: Scope, at: u32, args: &[Expr], first: &mut Option<Offence>)
    ensures { first.new ≡ noted first.old (none_rules (scope_in scope.entry) at args.now) }
{
    note_broken(scope, !args.is_empty(), at, 16, first);
}

/// Notes what the arguments of these sorts break of a call at a token that takes one argument.
pub(crate) fn note_one(
    scope: Scope,
    at: u32,
    needed: Needed,
    sorts: &[Sort],
    first: &mut Option<Offence>,
)
    ensures { let s = scope_in scope.entry in (args : List Expr) → sorts.now ≡ sorts_in s args →
        first.new ≡ noted first.old (one_rules s at needed args) }
{
    let broken = match sorts {
        [sort] => !is_needed(needed, *sort) && !is_bad(*sort),
        _ => true,
    };
    note_broken(scope, broken, at, 16, first);
}

/// Notes what the arguments of these sorts break of a call at a token that sets a timer.
#[tactic(auto, using(crate::proofs::NotedLemmas::noted_both))]
pub(crate) fn note_set(
    scope: Scope,
    at: u32,
    args: &[Expr],
    sorts: &[Sort],
    first: &mut Option<Offence>,
)
    requires { sorts.now ≡ sorts_in (scope_in scope) args.now }
    ensures { first.new ≡ noted first.old (set_rules (scope_in scope.entry) at args.now) }
{
    match (args, sorts) {
        ([_, duration], [timer, sort]) => {
            let broken = !is_timer(*timer) && !is_bad(*timer);
            note_broken(scope, broken, at, 16, first);
            note_integer_needed(scope, duration, *sort, first);
        }
        _ => note_broken(scope, true, at, 16, first),
    }
}
