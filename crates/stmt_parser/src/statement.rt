// The reading of statements, and of blocks and groups of them.
//
// `total` is the number of tokens of the file, from which places are counted, and `depth` bounds how deep
// statements nest.

ghost use Rattle.std.specs.Prelude.{◌≡◌, List, Some, None, IfOk, IsErrOf};
ghost use Rattle.capl_lexer.specs.declared.token.Tok.{Tok};
ghost use Rattle.capl_tree.specs.declared.statement.Stmt.{Stmt};
ghost use Rattle.capl_tree.specs.declared.statement.Stmt.TheVariants as stmt;
ghost use Rattle.expr_parser.specs.declared.refusal.Refusal.TheVariants as refusal;
ghost use Rattle.expr_parser.specs.Reading.{Gives, Read, and_then};
ghost use Rattle.parser_laws.specs.Statement as read;
ghost use Rattle.parser_laws.specs.Statement.{parts_of};

use crate::part::{
    begins_declaration, enclosed, ends_body, jump, labels, part_before, read_declared,
};
use capl_lexer::{Sign, Word};
use capl_tree::{Arm, Expr, Group, Stmt};
use expr_parser::{Cursor, Refusal};
use items::{Boxed, Items};

/// A statement that is no declaration.
#[tactic(auto, unfolding(parser_laws::specs::Statement::statement))]
#[cycle(reading)]
fn read_statement(cursor: &mut Cursor<'_>, total: u32, depth: usize) -> Result<Stmt, Refusal>
    ensures { Gives (read.statement (parts_of total) depth cursor.old) result cursor.new }
{
    if depth == 0 {
        return Err(Refusal::NotSpelled);
    }
    statement_by(cursor, total, depth - 1)
}

/// A statement that is no declaration, by those that nest in it.
#[tactic(auto, unfolding(parser_laws::specs::Statement::statement_by))]
#[cycle(reading)]
fn statement_by(cursor: &mut Cursor<'_>, total: u32, depth: usize) -> Result<Stmt, Refusal>
    ensures { Gives (read.statement_by (parts_of total) (read.statement (parts_of total) depth) cursor.old)
        result cursor.new }
{
    if cursor.eat(Sign::Semi) {
        return Ok(Stmt::Empty);
    }
    if cursor.eat(Sign::OpenBrace) {
        let body = read_block(cursor, total, depth)?;
        return Ok(Stmt::Block(body));
    }
    if cursor.eat_word(Word::If) {
        return choice(cursor, total, depth);
    }
    if cursor.eat_word(Word::Switch) {
        return switch(cursor, total, depth);
    }
    repeat(cursor, total, depth)
}

/// A loop, or a statement in which no other nests.
#[tactic(auto, unfolding(parser_laws::specs::Statement::repeat))]
#[cycle(reading)]
fn repeat(cursor: &mut Cursor<'_>, total: u32, depth: usize) -> Result<Stmt, Refusal>
    ensures { Gives (read.repeat (parts_of total) (read.statement (parts_of total) depth) cursor.old)
        result cursor.new }
{
    if cursor.eat_word(Word::While) {
        return while_loop(cursor, total, depth);
    }
    if cursor.eat_word(Word::Do) {
        return do_loop(cursor, total, depth);
    }
    if cursor.eat_word(Word::For) {
        return for_loop(cursor, total, depth);
    }
    jump(cursor, total)
}

/// A statement in a statement.
#[cycle(reading)]
fn nested(cursor: &mut Cursor<'_>, total: u32, depth: usize) -> Result<Boxed<Stmt>, Refusal>
    ensures { Gives (read.statement (parts_of total) depth cursor.old) result cursor.new }
{
    let inner = read_statement(cursor, total, depth)?;
    Ok(Boxed::new(cursor.alloc(), inner)?)
}

/// A declaration or a statement.
#[tactic(auto, unfolding(parser_laws::specs::Statement::body_part))]
#[cycle(reading)]
fn body_part(cursor: &mut Cursor<'_>, total: u32, depth: usize) -> Result<Stmt, Refusal>
    ensures { Gives (read.body_part (parts_of total) (read.statement (parts_of total) depth) cursor.old)
        result cursor.new }
{
    if begins_declaration(cursor) {
        let declared = read_declared(cursor, total)?;
        return Ok(Stmt::Decl(declared));
    }
    read_statement(cursor, total, depth)
}

/// The declarations and statements of a block or of a group.
#[tactic(auto, unfolding(parser_laws::specs::Statement::body, parser_laws::specs::Statement::until))]
#[cycle(reading)]
fn body(cursor: &mut Cursor<'_>, total: u32, depth: usize) -> Result<Items<Stmt>, Refusal>
    ensures { Gives (read.body (parts_of total) (read.statement (parts_of total) depth) cursor.old)
        result cursor.new }
{
    let mut found = Vec::new(cursor.alloc());
    for _turn in 0..cursor.len() {
        if ends_body(cursor) {
            return Ok(Items::from_list(found));
        }
        found.push(body_part(cursor, total, depth)?)?;
    }
    Err(Refusal::NotSpelled)
}

/// Behind an opening brace: declarations and statements up to the closing one.
#[tactic(auto, unfolding(parser_laws::specs::Statement::block, expr_parser::specs::Reading::after))]
#[cycle(reading)]
pub fn read_block(cursor: &mut Cursor<'_>, total: u32, depth: usize) -> Result<Items<Stmt>, Refusal>
    ensures { Gives (read.block (parts_of total) (read.statement (parts_of total) depth) cursor.old)
        result cursor.new }
{
    let found = body(cursor, total, depth)?;
    cursor.expect(Sign::CloseBrace)?;
    Ok(found)
}

/// Behind an `if`: its test and its body.
#[tactic(auto, unfolding(parser_laws::specs::Statement::arm))]
#[cycle(reading)]
fn arm(cursor: &mut Cursor<'_>, total: u32, depth: usize) -> Result<Arm, Refusal>
    ensures { Gives (read.arm (parts_of total) (read.statement (parts_of total) depth) cursor.old)
        result cursor.new }
{
    let test = enclosed(cursor, total)?;
    let body = read_statement(cursor, total, depth)?;
    Ok(Arm { test, body })
}

/// Behind an `if`: its arms, and what stands behind a last `else`.
#[tactic(auto, unfolding(parser_laws::specs::Statement::choice, parser_laws::specs::Statement::arms_from))]
#[cycle(reading)]
fn choice(cursor: &mut Cursor<'_>, total: u32, depth: usize) -> Result<Stmt, Refusal>
    ensures { Gives (read.choice (parts_of total) (read.statement (parts_of total) depth) cursor.old)
        result cursor.new }
{
    let mut arms = Vec::new(cursor.alloc());
    for _turn in 0..cursor.len() {
        arms.push(arm(cursor, total, depth)?)?;
        if !cursor.eat_word(Word::Else) {
            return Ok(Stmt::If {
                arms: Items::from_list(arms),
                other: None,
            });
        }
        if !cursor.eat_word(Word::If) {
            let other = nested(cursor, total, depth)?;
            return Ok(Stmt::If {
                arms: Items::from_list(arms),
                other: Some(other),
            });
        }
    }
    Err(Refusal::NotSpelled)
}

/// Labels, and the declarations and statements behind them.
#[tactic(auto, unfolding(parser_laws::specs::Statement::group))]
#[cycle(reading)]
fn group(cursor: &mut Cursor<'_>, total: u32, depth: usize) -> Result<Group, Refusal>
    ensures { Gives (read.group (parts_of total) (read.statement (parts_of total) depth) cursor.old)
        result cursor.new }
{
    let labels = labels(cursor, total)?;
    let body = body(cursor, total, depth)?;
    Ok(Group { labels, body })
}

/// Groups up to a closing brace.
#[tactic(auto, unfolding(parser_laws::specs::Statement::groups, parser_laws::specs::Statement::until))]
#[cycle(reading)]
fn groups(cursor: &mut Cursor<'_>, total: u32, depth: usize) -> Result<Items<Group>, Refusal>
    ensures { Gives (read.groups (parts_of total) (read.statement (parts_of total) depth) cursor.old)
        result cursor.new }
{
    let mut found = Vec::new(cursor.alloc());
    for _turn in 0..cursor.len() {
        if cursor.is_at(Sign::CloseBrace) {
            return Ok(Items::from_list(found));
        }
        found.push(group(cursor, total, depth)?)?;
    }
    Err(Refusal::NotSpelled)
}

/// Behind a `switch`: the value, and the groups between braces.
#[tactic(auto, unfolding(parser_laws::specs::Statement::switch, expr_parser::specs::Reading::after))]
#[cycle(reading)]
fn switch(cursor: &mut Cursor<'_>, total: u32, depth: usize) -> Result<Stmt, Refusal>
    ensures { Gives (read.switch (parts_of total) (read.statement (parts_of total) depth) cursor.old)
        result cursor.new }
{
    let on = Boxed::new(cursor.alloc(), enclosed(cursor, total)?)?;
    cursor.expect(Sign::OpenBrace)?;
    let groups = groups(cursor, total, depth)?;
    cursor.expect(Sign::CloseBrace)?;
    Ok(Stmt::Switch { on, groups })
}

/// Behind a `while`: the test and the body.
#[tactic(auto, unfolding(parser_laws::specs::Statement::while_loop))]
#[cycle(reading)]
fn while_loop(cursor: &mut Cursor<'_>, total: u32, depth: usize) -> Result<Stmt, Refusal>
    ensures { Gives (read.while_loop (parts_of total) (read.statement (parts_of total) depth) cursor.old)
        result cursor.new }
{
    let test = enclosed(cursor, total)?;
    let body = nested(cursor, total, depth)?;
    Ok(Stmt::While { test, body })
}

/// Behind a `do`: the body, and `while` with the test.
#[tactic(auto, unfolding(parser_laws::specs::Statement::do_loop, expr_parser::specs::Reading::after))]
#[cycle(reading)]
fn do_loop(cursor: &mut Cursor<'_>, total: u32, depth: usize) -> Result<Stmt, Refusal>
    ensures { Gives (read.do_loop (parts_of total) (read.statement (parts_of total) depth) cursor.old)
        result cursor.new }
{
    let body = nested(cursor, total, depth)?;
    cursor.expect_word(Word::While)?;
    let test = enclosed(cursor, total)?;
    cursor.expect(Sign::Semi)?;
    Ok(Stmt::Do { body, test })
}

/// Behind a `for`: its three parts and the body.
#[cycle(reading)]
fn for_loop(cursor: &mut Cursor<'_>, total: u32, depth: usize) -> Result<Stmt, Refusal>
    ensures { Gives (read.for_loop (parts_of total) (read.statement (parts_of total) depth) cursor.old)
        result cursor.new }
{
    let head = for_head(cursor, total)?;
    let body = nested(cursor, total, depth)?;
    Ok(Stmt::For {
        init: head.init,
        test: head.test,
        step: head.step,
        body,
    })
}

/// The head of a `for`.
#[derive(Drop)]
struct ForHead {
    /// What begins it.
    init: Option<Boxed<Expr>>,
    /// What is asked before each turn.
    test: Option<Boxed<Expr>>,
    /// What is done behind each turn.
    step: Option<Boxed<Expr>>,
}

/// Behind a `for`: its three parts. With them a `for` is read where its body is.
#[tactic(auto, unfolding(parser_laws::specs::Statement::for_loop, expr_parser::specs::Reading::after))]
fn for_head(cursor: &mut Cursor<'_>, total: u32) -> Result<ForHead, Refusal>
    ensures head { IfOk result (λ head. (inner : List Tok → Read Stmt) →
        read.for_loop (parts_of total) inner cursor.old ≡ and_then (inner cursor.new) (λ body ts.
        Some (stmt.For head.init head.test head.step body, ts))) }
    ensures refused { IsErrOf result refusal.NotSpelled → (inner : List Tok → Read Stmt) →
        read.for_loop (parts_of total) inner cursor.old ≡ None }
{
    cursor.expect(Sign::OpenParen)?;
    let init = part_before(cursor, total, Sign::Semi)?;
    let test = part_before(cursor, total, Sign::Semi)?;
    let step = part_before(cursor, total, Sign::CloseParen)?;
    Ok(ForHead { init, test, step })
}
