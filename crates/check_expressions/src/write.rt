// Calls of `write`.

ghost use Rattle.std.specs.Prelude.{◌≡◌, OnOk, Some, flat_map, length};
ghost use Rattle.std.specs.List.{zip};
ghost use Rattle.capl_meaning.specs.ExpressionRules.{codes_rules, format_rules, shown_rule};
ghost use Rattle.capl_meaning.specs.Format.{quoted_text};
ghost use Rattle.capl_meaning.specs.Sort.{sort_of};
ghost use Rattle.check_names.specs.First.{noted};
ghost use Rattle.check_sorts.specs.Scope.{scope_in};
ghost use Rattle.check_expressions.specs.Arguments.{shown_pair, write_rules};
ghost use Rattle.check_expressions.specs.Judged.{sorts_in};

use crate::broken::note_broken;
use capl_meaning::{Offence, Sort};
use capl_tree::Expr;
use check_sorts::{Scope, is_bad, read_codes, shows, text_in};
use std::alloc::Global;
use texts::NoMemory;
use write_format::Code;

/// Notes that a code does not show an argument, if it does not.
fn note_shown(scope: Scope, code: Code, e: &Expr, sort: Sort, first: &mut Option<Offence>)
    requires { sort ≡ sort_of (scope_in scope) e.now }
    ensures { first.new ≡ noted first.old (shown_rule (scope_in scope.entry) code e.now) }
{
    let broken = !shows(code, sort) && !is_bad(sort);
    note_broken(scope, broken, e.place(), 17, first);
}

/// Notes each argument, of these sorts, that its code does not show; there are as many codes.
fn note_each_shown(
    scope: Scope,
    codes: &[Code],
    args: &[Expr],
    sorts: &[Sort],
    first: &mut Option<Offence>,
)
    requires count { length codes.now ≡ length args.now }
    requires sorts { sorts.now ≡ sorts_in (scope_in scope) args.now }
    ensures { first.new ≡
        noted first.old (flat_map (shown_pair (scope_in scope.entry)) (zip codes.now args.now)) }
{
    for (i, e) in args.iter().enumerate() {
        let Some(code) = codes.get(i) else {
            return;
        };
        note_shown(scope, *code, e, sorts[i], first);
    }
}

/// Notes each argument, of these sorts, that its code does not show, or at the format's token that there
/// are more or fewer arguments than codes.
fn note_codes(
    scope: Scope,
    at: u32,
    codes: &[Code],
    args: &[Expr],
    sorts: &[Sort],
    first: &mut Option<Offence>,
)
    requires { sorts.now ≡ sorts_in (scope_in scope) args.now }
    ensures { first.new ≡ noted first.old (codes_rules (scope_in scope.entry) at (Some codes.now) args.now) }
{
    if codes.len() != args.len() {
        note_broken(scope, true, at, 17, first);
    } else {
        note_each_shown(scope, codes, args, sorts, first);
    }
}

/// Notes what a format and arguments, of these sorts, break.
fn note_format(
    alloc: Global,
    scope: Scope,
    format: &Expr,
    sort: Sort,
    args: &[Expr],
    sorts: &[Sort],
    first: &mut Option<Offence>,
) -> Result<(), NoMemory>
    requires format { sort ≡ sort_of (scope_in scope) format.now }
    requires sorts { sorts.now ≡ sorts_in (scope_in scope) args.now }
    ensures { OnOk result (first.new ≡
        noted first.old (format_rules (scope_in scope.entry) format.now (quoted_text format.now) args.now)) }
{
    let at = format.place();
    let Some(text) = text_in(format) else {
        note_broken(scope, !is_bad(sort), at, 17, first);
        return Ok(());
    };
    match read_codes(alloc, text)? {
        Some(codes) => note_codes(scope, at, codes.as_slice(), args, sorts, first),
        None => note_broken(scope, true, at, 17, first),
    }
    Ok(())
}

/// Notes what the arguments, of these sorts, of a call of `write` at a token break.
pub(crate) fn note_write(
    alloc: Global,
    scope: Scope,
    at: u32,
    args: &[Expr],
    sorts: &[Sort],
    first: &mut Option<Offence>,
) -> Result<(), NoMemory>
    requires { sorts.now ≡ sorts_in (scope_in scope) args.now }
    ensures { OnOk result (first.new ≡ noted first.old (write_rules (scope_in scope.entry) at args.now)) }
{
    match (args, sorts) {
        ([format, args @ ..], [sort, sorts @ ..]) => {
            note_format(alloc, scope, format, *sort, args, sorts, first)
        }
        _ => {
            note_broken(scope, true, at, 16, first);
            Ok(())
        }
    }
}
