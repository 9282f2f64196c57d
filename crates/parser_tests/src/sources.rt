// What the parser gives of a source, for tests of it; and the trees of short sources, for tests of what
// stands above it.

ghost use Rattle.std.specs.Prelude.{◌≡◌, [], IfOk};
ghost use Rattle.check_names.specs.Few.{IsFew};

use capl_lexer::lex;
use capl_parser::{ParseRefusal, parse};
use capl_tree::{Expr, FileTree, Program, Stmt, TopItem};
use items::Items;
use small_trees::laws::programs_declare_no_more_than_their_tokens;
use std::alloc::Global;
use std::test::Fail;

/// What is parsed of these bytes, or None where they are no tokens.
pub fn parsed(
    alloc: Global,
    source: &[u8],
) -> Result<Option<Result<FileTree, ParseRefusal>>, Fail> {
    if source.len() > 100_000 {
        return Err(Fail::new("long"));
    }
    match lex(alloc, source) {
        Ok(tokens) => Ok(Some(parse(alloc, &tokens))),
        Err(_) => Ok(None),
    }
}

/// The program of one file that is this source, which is short, so that the program declares few.
pub fn program(alloc: Global, source: &str) -> Result<Program, Fail>
    ensures { IfOk result (λ program. IsFew program) }
{
    let source = source.as_bytes();
    if source.len() > 100_000 {
        return Err("it is long".into());
    }
    let Ok(tokens) = lex(alloc, source) else {
        return Err("it is no tokens".into());
    };
    let Ok(file) = parse(alloc, &tokens) else {
        return Err("it is no file".into());
    };
    programs_declare_no_more_than_their_tokens();
    Ok(Program {
        files: Items::from_list(vec![in alloc; file]?),
    })
}

/// The statement with which the last procedure of such a program begins.
pub fn statement(program: &Program) -> Result<&Stmt, Fail> {
    let file = program.files.as_slice().first().ok_or("it has a file")?;
    match file.items.as_slice().last() {
        Some(TopItem::Proc(procedure)) => {
            let first = procedure.body.as_slice().first();
            Ok(first.ok_or("the procedure is empty")?)
        }
        _ => Err("no procedure is last".into()),
    }
}

/// The expression that this statement is.
pub fn expression(program: &Program) -> Result<&Expr, Fail> {
    match statement(program)? {
        Stmt::Expr(expression) => Ok(expression),
        _ => Err("it is no expression".into()),
    }
}

/// A number in a source.
pub fn number(value: u64, at: u32) -> Expr {
    Expr::Num {
        value: Some(value),
        ext: false,
        at,
    }
}

/// A program of no file, which declares nothing.
pub fn undeclared(alloc: Global) -> Program
    ensures none { result ≡ record { files = [] } }
    ensures few { IsFew result }
{
    Program {
        files: Items::new(alloc),
    }
}
