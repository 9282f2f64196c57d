// Sources with the names that their system variables become.

use crate::variables::variable;
use capl_lexer::{Tok, Token, Word, lex, screen};
use std::alloc::Global;
use std::process::Abort;
use std::test::Fail;
use sys_vars::lower;

/// The tokens of a short source in which `A::x` is declared, lowered.
fn lowered(alloc: Global, source: &[u8; 64]) -> Result<Vec<Token>, Fail> {
    let tokens = lex(alloc, source)?;
    let items = vec![in alloc; variable(alloc, b"A", b"x", 0)?]?;
    Ok(lower(alloc, tokens.as_slice(), items.as_slice())?)
}

/// The token at a place is this name, with the place of the token that it replaces.
fn expect_name(rt: &impl Abort, tokens: &[Token], place: usize, name: &[u8], from: u32, to: u32) {
    match tokens.get(place) {
        Some(
            Token {
                tok: Tok::Name(text),
                from: begin,
                to: end,
                ..
            },
        ) => assert!(rt; text.bytes() == name && *begin == from && *end == to),
        _ => assert!(rt; false),
    }
}

/// The token at a place is the word `timer`.
fn expect_timer(rt: &impl Abort, tokens: &[Token], place: usize) {
    match tokens.get(place) {
        Some(token) => assert!(rt; matches!(token.tok, Tok::Word(Word::Timer))),
        None => assert!(rt; false),
    }
}

#[test]
fn uses_become_names(rt: HostRuntime) -> Result<(), Fail> {
    let alloc = rt.alloc();
    let source = b"on start { @sysvar::A::x = 7; write(\"%d\", @A::x); }             ";
    let tokens = lowered(alloc, source)?;
    assert_eq!(rt; tokens.len(), 15);
    expect_name(&rt, tokens.as_slice(), 3, b"A::x", 11, 12);
    expect_name(&rt, tokens.as_slice(), 11, b"A::x", 42, 43);
    assert!(rt; screen(tokens.as_slice()).is_none());
    Ok(())
}

#[test]
fn heads_become_timers(rt: HostRuntime) -> Result<(), Fail> {
    let alloc = rt.alloc();
    let source = b"on sysvar A::x { } on sysvar sysvar::A::x { }                   ";
    let tokens = lowered(alloc, source)?;
    assert_eq!(rt; tokens.len(), 10);
    expect_timer(&rt, tokens.as_slice(), 1);
    expect_name(&rt, tokens.as_slice(), 2, b"on A::x", 3, 9);
    expect_timer(&rt, tokens.as_slice(), 6);
    expect_name(&rt, tokens.as_slice(), 7, b"on A::x", 22, 28);
    Ok(())
}

#[test]
fn an_undeclared_variable_stays(rt: HostRuntime) -> Result<(), Fail> {
    let alloc = rt.alloc();
    let source = b"on start { @A::y = 1; }                                         ";
    let tokens = lowered(alloc, source)?;
    assert_eq!(rt; tokens.len(), 11);
    match screen(tokens.as_slice()) {
        Some((place, rule)) => assert!(rt; place == 3 && rule.number == 6),
        None => assert!(rt; false),
    }
    Ok(())
}

#[test]
fn the_longer_form_alone_is_tried(rt: HostRuntime) -> Result<(), Fail> {
    let alloc = rt.alloc();
    let items = vec![in alloc; variable(alloc, b"sysvar", b"x", 0)?]?;
    let tokens = lex(alloc, b"@sysvar::x @sysvar::sysvar::x")?;
    let tokens = lower(alloc, tokens.as_slice(), items.as_slice())?;
    assert_eq!(rt; tokens.len(), 5);
    expect_name(&rt, tokens.as_slice(), 1, b"sysvar", 1, 7);
    expect_name(&rt, tokens.as_slice(), 4, b"sysvar::x", 11, 12);
    Ok(())
}
