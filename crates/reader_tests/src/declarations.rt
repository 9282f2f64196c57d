// Declarations that decl_parser reads from sources of one byte a token.

use super::tokens::tokens;
use capl_tree::{Decl, DeclType};
use decl_parser::read_declaration;
use expr_parser::Cursor;
use std::alloc::Global;
use std::test::Fail;

/// Each source with the form of its type and the number of its variables; `x` where the source is refused,
/// or not all of it is read.
static ROWS: [(&str, u8, u64); 14] = [
    ("Ka;", b'k', 1),
    ("XKa=1,b=2;", b'c', 2),
    ("M*m;", b'*', 1),
    ("M7m;", b'7', 1),
    ("Mnm;", b'n', 1),
    ("Wt;", b's', 1),
    ("Zt,u;", b'm', 2),
    ("Ka[3]={1,a=2,K(0)=3};", b'k', 1),
    ("Ka", b'x', 0),
    ("Ka,;", b'x', 0),
    ("Ka={};", b'x', 0),
    ("Ka=b=c;", b'x', 0),
    ("a;", b'x', 0),
    ("", b'x', 0),
];

/// The form of a declaration's type, and the number of its variables.
fn form(decl: &Decl) -> (u8, u64) {
    let what = match decl.what {
        DeclType::Number { fixed: true, .. } => b'c',
        DeclType::Number { fixed: false, .. } => b'k',
        DeclType::Any => b'*',
        DeclType::ById { .. } => b'7',
        DeclType::ByName { .. } => b'n',
        DeclType::Seconds => b's',
        DeclType::Millis => b'm',
    };
    (what, decl.items.len() as u64)
}

/// What is read from a source.
fn read(alloc: Global, source: &str) -> Result<(u8, u64), Fail> {
    let all = tokens(alloc, source)?;
    let mut cursor = Cursor::new(alloc, all.as_slice());
    match read_declaration(&mut cursor, 99, 99) {
        Ok(decl) if cursor.len() == 0 => Ok(form(&decl)),
        _ => Ok((b'x', 0)),
    }
}

#[test]
fn sources_have_their_form(rt: HostRuntime) -> Result<(), Fail> {
    for (source, form, count) in &ROWS {
        let (found, variables) = read(rt.alloc(), source)?;
        assert_eq!(rt; found, *form);
        assert_eq!(rt; variables, *count);
    }
    Ok(())
}
