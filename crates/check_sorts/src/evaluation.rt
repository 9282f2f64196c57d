// Constant expressions, evaluated in one pass.

ghost use Rattle.std.specs.Prelude.{◌≡◌, ℕ, ℤ, IfSome, None, Option, option_and_then, pos};
ghost use Rattle.std.specs.Option.{option_map};
ghost use Rattle.int_kinds.specs.Arithmetic.{value};
ghost use Rattle.int_kinds.specs.Kind.{IsNumber, join, wrap};
ghost use Rattle.capl_meaning.specs.Constant.{chosen, is_constant_prefix, operator_value};
ghost use Rattle.capl_meaning.specs.Variable.{identifier};
ghost use Rattle.capl_meaning.specs.Operator.{prefix_value, truth_of};
ghost use Rattle.check_sorts.specs.Constant.{HasNumber, binary_by, cast_by, choice_by, name_by, number_by, prefix_by};
ghost use Rattle.capl_meaning.specs.Sort.{kind_in};

use crate::sort::{
    is_bad, kind_in, number_from, sort_of_binary, sort_of_choice, sort_of_number, sort_of_prefix,
    working_kind,
};
use crate::words::direction;
use capl_meaning::Sort;
use int_kinds::{BinOp, Kind, UnOp, inv, is_equal, join, neg, truth, value, wrap};

/// A constant.
#[derive(Clone, Copy)]
pub(crate) struct Evaluated {
    /// Its sort.
    pub(crate) sort: Sort,
    /// Its value; None where it divides by zero.
    pub(crate) value: Option<i128>,
}

/// 1 for every number but 0.
fn truth_of(n: i128) -> i128
    ensures { result ≡ truth_of n }
{
    truth(!is_equal(n, 0))
}

/// The value of a number in the source.
fn number_value(n: u64, extended: bool) -> i128
    ensures { result ≡ pos (identifier n extended) }
{
    if extended {
        (1 << 31) + n as i128
    } else {
        n as i128
    }
}

/// A number in the source.
pub(crate) fn of_number(value: Option<u64>, extended: bool) -> Option<Evaluated>
    ensures same { result ≡ number_by value extended }
    ensures number { HasNumber result }
{
    let sort = sort_of_number(value, extended);
    match value {
        Some(n) if !is_bad(sort) => Some(Evaluated {
            sort,
            value: Some(number_value(n, extended)),
        }),
        _ => None,
    }
}

/// A number that is the value of a prefix operator in a kind.
fn prefix_value(op: UnOp, kind: Kind, n: i128) -> i128
    requires { IsNumber n }
    ensures { result ≡ prefix_value op kind n }
{
    match op {
        UnOp::Minus => neg(kind, n),
        UnOp::Plus => wrap(kind, n),
        UnOp::Not => truth(is_equal(n, 0)),
        UnOp::Inv => inv(kind, n),
        UnOp::Up | UnOp::Down => n,
    }
}

/// One of two numbers, by a third that is not 0 or is.
fn chosen(test: Option<i128>, one: Option<i128>, other: Option<i128>) -> Option<i128>
    ensures { result ≡ chosen test one other }
{
    match test {
        None => None,
        Some(n) => { if is_equal(n, 0) { other } else { one } }
    }
}

/// The truth of a number, if there is one.
fn truth_in(n: Option<i128>) -> Option<i128>
    ensures { result ≡ option_map truth_of n }
{
    match n {
        None => None,
        Some(n) => Some(truth_of(n)),
    }
}

/// The value of an operator of two numbers, if both are there and it has one.
fn value_of_both(op: BinOp, kind: Kind, left: Option<i128>, right: Option<i128>) -> Option<i128>
    requires left { IfSome left IsNumber }
    requires right { IfSome right IsNumber }
    ensures { result ≡ option_and_then (λ m. option_and_then (λ n. value op kind m n) right) left }
{
    match (left, right) {
        (Some(a), Some(b)) => value(op, kind, a, b),
        _ => None,
    }
}

/// The value of an operator, if there is one; `&&` and `||` evaluate only what they need.
fn operator_value(op: BinOp, kind: Kind, left: Option<i128>, right: Option<i128>) -> Option<i128>
    requires left { IfSome left IsNumber }
    requires right { IfSome right IsNumber }
    ensures { result ≡ operator_value op kind left right }
{
    match op {
        BinOp::AndAlso => chosen(left, truth_in(right), Some(0)),
        BinOp::OrElse => chosen(left, Some(1), truth_in(right)),
        _ => value_of_both(op, kind, left, right),
    }
}

/// A number wrapped to a kind, if there is one.
fn wrapped(kind: Kind, n: Option<i128>) -> Option<i128>
    requires { IfSome n IsNumber }
    ensures { result ≡ option_map (wrap kind) n }
{
    match n {
        None => None,
        Some(n) => Some(wrap(kind, n)),
    }
}

/// A cast.
pub(crate) fn of_cast(kind: Kind, inner: Option<Evaluated>) -> Option<Evaluated>
    requires { HasNumber inner }
    ensures { result ≡ cast_by kind inner }
{
    match inner {
        None => None,
        Some(found) => Some(Evaluated {
            sort: number_from(found.sort, kind),
            value: wrapped(kind, found.value),
        }),
    }
}

/// Whether a prefix operator is one of constants.
fn is_constant_prefix(op: UnOp) -> bool
    ensures { result ≡ is_constant_prefix op }
{
    match op {
        UnOp::Up | UnOp::Down => false,
        UnOp::Minus | UnOp::Plus | UnOp::Not | UnOp::Inv => true,
    }
}

/// A prefix operator.
pub(crate) fn of_prefix(op: UnOp, inner: Option<Evaluated>) -> Option<Evaluated>
    requires { HasNumber inner }
    ensures { result ≡ prefix_by op inner }
{
    match inner {
        Some(found) if is_constant_prefix(op) => Some(Evaluated {
            sort: sort_of_prefix(op, false, found.sort),
            value: prefix_of(op, found),
        }),
        _ => None,
    }
}

/// The value of a prefix operator, if its operand has one.
fn prefix_of(op: UnOp, inner: Evaluated) -> Option<i128>
    requires { IfSome inner.value IsNumber }
    ensures { result ≡ option_map (prefix_value op (join (kind_in inner.sort) (kind_in inner.sort)))
        inner.value }
{
    let kind = kind_in(inner.sort);
    match inner.value {
        None => None,
        Some(n) => Some(prefix_value(op, join(kind, kind), n)),
    }
}

/// A binary operator.
pub(crate) fn of_binary(
    op: BinOp,
    left: Option<Evaluated>,
    right: Option<Evaluated>,
) -> Option<Evaluated>
    requires left { HasNumber left }
    requires right { HasNumber right }
    ensures { result ≡ binary_by op left right }
{
    match (left, right) {
        (Some(left), Some(right)) => {
            let kind = working_kind(op, kind_in(left.sort), kind_in(right.sort));
            Some(Evaluated {
                sort: sort_of_binary(op, left.sort, right.sort),
                value: operator_value(op, kind, left.value, right.value),
            })
        }
        _ => None,
    }
}

/// The value of `?:` in a kind.
fn choice_value(kind: Kind, test: Option<i128>, yes: Option<i128>, no: Option<i128>) -> Option<i128>
    requires yes { IfSome yes IsNumber }
    requires no { IfSome no IsNumber }
    ensures { result ≡ option_map (wrap kind) (chosen test yes no) }
{
    match test {
        None => None,
        Some(n) => {
            if is_equal(n, 0) {
                wrapped(kind, no)
            } else {
                wrapped(kind, yes)
            }
        }
    }
}

/// `?:`.
pub(crate) fn of_choice(
    test: Option<Evaluated>,
    yes: Option<Evaluated>,
    no: Option<Evaluated>,
) -> Option<Evaluated>
    requires yes { HasNumber yes }
    requires no { HasNumber no }
    ensures { result ≡ choice_by test yes no }
{
    match (test, yes, no) {
        (Some(test), Some(yes), Some(no)) => {
            let kind = join(kind_in(yes.sort), kind_in(no.sort));
            Some(Evaluated {
                sort: sort_of_choice(test.sort, yes.sort, no.sort),
                value: choice_value(kind, test.value, yes.value, no.value),
            })
        }
        _ => None,
    }
}

/// A name that is that of no variable.
pub(crate) fn of_word(name: &[u8]) -> Option<Evaluated>
    ensures { (values : ℕ → ℕ → Option ℤ) → result ≡ name_by values name.now None }
{
    match direction(name) {
        None => None,
        Some(n) => Some(Evaluated {
            sort: Sort::Number(Kind::Long),
            value: Some(n as i128),
        }),
    }
}
