// Expressions that expr_parser reads from sources of one byte a token.

use super::tokens::tokens;
use capl_tree::Expr;
use expr_parser::{Cursor, read_expression};
use std::alloc::Global;
use std::test::Fail;

/// Each source with its outermost form, and the number of expressions in the first part of that; `x` where
/// the source is refused, or not all of it is read.
static ROWS: [(&str, u8, u64); 28] = [
    ("7", b'n', 0),
    ("C", b'c', 0),
    ("Q", b's', 0),
    ("T", b't', 0),
    ("a", b'a', 0),
    ("(a)", b'(', 1),
    ("f()", b'f', 0),
    ("f(a,b-c)", b'f', 2),
    ("a[b]", b'[', 1),
    ("T.a", b'.', 1),
    ("T.K(1)", b'.', 1),
    ("(K)a*b", b'b', 2),
    ("-a*b", b'b', 2),
    ("Ia", b'-', 1),
    ("aI", b'+', 1),
    ("a-b-c", b'b', 3),
    ("a-b*c", b'b', 1),
    ("a*b-c", b'b', 3),
    ("a&b|c", b'b', 3),
    ("a=b=c", b'=', 1),
    ("a?b:c?d:e", b'?', 1),
    ("a?b:c=d", b'=', 4),
    ("", b'x', 0),
    ("a+", b'x', 0),
    ("f(a,)", b'x', 0),
    ("f(1)(2)", b'x', 0),
    ("(a", b'x', 0),
    ("a.1", b'x', 0),
];

/// The number of expressions in an expression without calls, itself among them.
fn count(e: &Expr) -> u64 {
    match e {
        Expr::Paren { inner, .. }
        | Expr::Cast { inner, .. }
        | Expr::Unary { inner, .. }
        | Expr::Post { inner, .. } => count(inner.get()).saturating_add(1),
        Expr::Index { base, index, .. } => pair(count(base.get()), count(index.get())),
        Expr::Member { base, .. } => count(base.get()).saturating_add(1),
        Expr::Binary { left, right, .. } | Expr::Assign { left, right, .. } => {
            pair(count(left.get()), count(right.get()))
        }
        Expr::Cond { test, yes, no, .. } => {
            let rest = count(yes.get()).saturating_add(count(no.get()));
            pair(count(test.get()), rest)
        }
        _ => 1,
    }
}

/// An expression with two parts of these numbers.
fn pair(one: u64, other: u64) -> u64 {
    one.saturating_add(other).saturating_add(1)
}

/// The outermost form of an expression, and the number of expressions in its first part.
fn outermost(e: &Expr) -> (u8, u64) {
    match e {
        Expr::Num { .. } => (b'n', 0),
        Expr::Char { .. } => (b'c', 0),
        Expr::Str { .. } => (b's', 0),
        Expr::This { .. } => (b't', 0),
        Expr::Name { .. } => (b'a', 0),
        Expr::Paren { inner, .. } => (b'(', count(inner.get())),
        Expr::Call { args, .. } => (b'f', args.len() as u64),
        Expr::Index { base, .. } => (b'[', count(base.get())),
        Expr::Member { base, .. } => (b'.', count(base.get())),
        Expr::Cast { inner, .. } => (b'k', count(inner.get())),
        Expr::Unary { inner, .. } => (b'-', count(inner.get())),
        Expr::Post { inner, .. } => (b'+', count(inner.get())),
        Expr::Binary { left, .. } => (b'b', count(left.get())),
        Expr::Cond { test, .. } => (b'?', count(test.get())),
        Expr::Assign { left, .. } => (b'=', count(left.get())),
    }
}

/// What is read from a source.
fn read(alloc: Global, source: &str) -> Result<(u8, u64), Fail> {
    let all = tokens(alloc, source)?;
    let mut cursor = Cursor::new(alloc, all.as_slice());
    match read_expression(&mut cursor, 9, 99, 1) {
        Ok(e) if cursor.len() == 0 => Ok(outermost(&e)),
        _ => Ok((b'x', 0)),
    }
}

#[test]
fn sources_have_their_form(rt: HostRuntime) -> Result<(), Fail> {
    for (source, form, first) in &ROWS {
        let (found, count) = read(rt.alloc(), source)?;
        assert_eq!(rt; found, *form);
        assert_eq!(rt; count, *first);
    }
    Ok(())
}
