// The prelude of variables, and its tree.

use crate::variables::two_variables;
use capl_parser::parse;
use capl_tree::{Decl, DeclType, Expr, Init, TopItem};
use int_kinds::{Kind, UnOp};
use std::process::Abort;
use std::test::Fail;
use sys_vars::prelude;

/// The declaration is of one variable of this name and this value.
fn expect_variable(rt: &impl Abort, declaration: &Decl, name: &[u8], value: i128) {
    let long = matches!(
        declaration.what,
        DeclType::Number {
            kind: Kind::Long,
            fixed: false
        }
    );
    assert!(rt; long);
    match declaration.items.as_slice() {
        [one] => {
            assert!(rt; one.name.bytes() == name);
            assert!(rt; first_value(one.init.as_ref().map(|init| init.get())) == Some(value));
        }
        _ => assert!(rt; false),
    }
}

/// The number that an initialiser is.
fn first_value(init: Option<&Init>) -> Option<i128> {
    match init? {
        Init::One(Expr::Num { value, .. }) => Some(i128::from((*value)?)),
        Init::One(
            Expr::Unary {
                op: UnOp::Minus,
                inner,
                ..
            },
        ) => match inner.get() {
            Expr::Num { value, .. } => Some(-i128::from((*value)?)),
            _ => None,
        },
        _ => None,
    }
}

/// The declaration is of one timer of this name.
fn expect_timer(rt: &impl Abort, declaration: &Decl, name: &[u8]) {
    assert!(rt; matches!(declaration.what, DeclType::Millis));
    match declaration.items.as_slice() {
        [one] => assert!(rt; one.name.bytes() == name && one.init.is_none()),
        _ => assert!(rt; false),
    }
}

#[test]
fn variables_and_timers_are_declared_in_order(rt: HostRuntime) -> Result<(), Fail> {
    let alloc = rt.alloc();
    let items = two_variables(alloc, -2147483648, 7)?;
    let tokens = prelude(alloc, items.as_slice())?;
    assert_eq!(rt; tokens.len(), 20);
    let tree = parse(alloc, tokens.as_slice())?;
    match tree.items.as_slice() {
        [TopItem::Variables(declarations)] => match declarations.as_slice() {
            [x, y, first, second] => {
                expect_variable(&rt, x, b"A::x", -2147483648);
                expect_variable(&rt, y, b"B::y", 7);
                expect_timer(&rt, first, b"on A::x");
                expect_timer(&rt, second, b"on B::y");
            }
            _ => assert!(rt; false),
        },
        _ => assert!(rt; false),
    }
    Ok(())
}
