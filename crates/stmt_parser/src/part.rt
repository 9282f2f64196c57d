// The parts of statements in which no statement nests.

ghost use Rattle.std.specs.Prelude.{◌≡◌};
ghost use Rattle.expr_parser.specs.Reading.{Gives};
ghost use Rattle.parser_laws.specs.Statement as read;
ghost use Rattle.parser_laws.specs.Statement.{parts_of};

use capl_lexer::{Sign, Word};
use capl_tree::{Decl, Expr, Label, Stmt};
use decl_parser::read_declaration;
use expr_parser::{Cursor, Refusal, read_expression};
use items::{Boxed, Items};

/// An expression that binds at the level `least` or more strongly. `total` is the number of tokens of the
/// file.
pub(crate) fn read_value(cursor: &mut Cursor<'_>, total: u32, least: u8) -> Result<Expr, Refusal>
    ensures { Gives ((parts_of total).value least cursor.old) result cursor.new }
{
    read_expression(cursor, total, total as usize + 1, least)
}

/// A declaration.
pub fn read_declared(cursor: &mut Cursor<'_>, total: u32) -> Result<Decl, Refusal>
    ensures { Gives ((parts_of total).declared cursor.old) result cursor.new }
{
    read_declaration(cursor, total, total as usize + 1)
}

/// `( TEST )`
#[tactic(auto, unfolding(parser_laws::specs::Statement::enclosed, expr_parser::specs::Reading::after))]
pub(crate) fn enclosed(cursor: &mut Cursor<'_>, total: u32) -> Result<Expr, Refusal>
    ensures { Gives (read.enclosed (parts_of total) cursor.old) result cursor.new }
{
    cursor.expect(Sign::OpenParen)?;
    let test = read_value(cursor, total, 1)?;
    cursor.expect(Sign::CloseParen)?;
    Ok(test)
}

/// An expression, where there is one, and this sign.
#[tactic(auto, unfolding(parser_laws::specs::Statement::part_before, expr_parser::specs::Reading::after))]
pub(crate) fn part_before(
    cursor: &mut Cursor<'_>,
    total: u32,
    end: Sign,
) -> Result<Option<Boxed<Expr>>, Refusal>
    ensures { Gives (read.part_before (parts_of total) end cursor.old) result cursor.new }
{
    if cursor.eat(end) {
        return Ok(None);
    }
    let value = read_value(cursor, total, 1)?;
    cursor.expect(end)?;
    let boxed = Boxed::new(cursor.alloc(), value)?;
    Ok(Some(boxed))
}

/// Whether a declaration begins.
pub(crate) fn begins_declaration(cursor: &Cursor<'_>) -> bool
    ensures { result ≡ read.begins_declaration cursor.now }
{
    cursor.is_at_word(Word::Const)
        || cursor.is_at_word(Word::Message)
        || cursor.is_at_word(Word::Timer)
        || cursor.is_at_word(Word::MsTimer)
        || cursor.kind().is_some()
}

/// Whether a label begins.
pub(crate) fn begins_label(cursor: &Cursor<'_>) -> bool
    ensures { result ≡ read.begins_label cursor.now }
{
    cursor.is_at_word(Word::Case) || cursor.is_at_word(Word::Default)
}

/// Whether no further statement of a block or of a group begins.
pub(crate) fn ends_body(cursor: &Cursor<'_>) -> bool
    ensures { result ≡ read.ends_body cursor.now }
{
    cursor.is_at(Sign::CloseBrace) || begins_label(cursor)
}

/// A label.
#[tactic(auto, unfolding(parser_laws::specs::Statement::label, expr_parser::specs::Reading::after))]
fn label(cursor: &mut Cursor<'_>, total: u32) -> Result<Label, Refusal>
    ensures { Gives (read.label (parts_of total) cursor.old) result cursor.new }
{
    let at = cursor.place(total);
    if cursor.eat_word(Word::Case) {
        let value = read_value(cursor, total, 2)?;
        cursor.expect(Sign::Colon)?;
        return Ok(Label {
            value: Some(value),
            at,
        });
    }
    cursor.expect_word(Word::Default)?;
    cursor.expect(Sign::Colon)?;
    Ok(Label { value: None, at })
}

/// Labels, at least one.
#[tactic(auto, unfolding(parser_laws::specs::Statement::labels, parser_laws::specs::Statement::until))]
pub(crate) fn labels(cursor: &mut Cursor<'_>, total: u32) -> Result<Items<Label>, Refusal>
    ensures { Gives (read.labels (parts_of total) cursor.old) result cursor.new }
{
    let most = cursor.len();
    let mut found = Vec::new(cursor.alloc());
    found.push(label(cursor, total)?)?;
    for _turn in 0..most {
        if !begins_label(cursor) {
            return Ok(Items::from_list(found));
        }
        found.push(label(cursor, total)?)?;
    }
    Err(Refusal::NotSpelled)
}

/// A statement that leaves a loop, a group or a procedure, or an expression and `;`.
#[tactic(auto, unfolding(parser_laws::specs::Statement::jump, expr_parser::specs::Reading::after))]
pub(crate) fn jump(cursor: &mut Cursor<'_>, total: u32) -> Result<Stmt, Refusal>
    ensures { Gives (read.jump (parts_of total) cursor.old) result cursor.new }
{
    let at = cursor.place(total);
    if cursor.eat_word(Word::Break) {
        cursor.expect(Sign::Semi)?;
        return Ok(Stmt::Break { at });
    }
    if cursor.eat_word(Word::Continue) {
        cursor.expect(Sign::Semi)?;
        return Ok(Stmt::Continue { at });
    }
    if cursor.eat_word(Word::Return) {
        let value = part_before(cursor, total, Sign::Semi)?;
        return Ok(Stmt::Return { value, at });
    }
    evaluation(cursor, total)
}

/// An expression and `;`.
#[tactic(auto, unfolding(parser_laws::specs::Statement::evaluation, expr_parser::specs::Reading::after))]
fn evaluation(cursor: &mut Cursor<'_>, total: u32) -> Result<Stmt, Refusal>
    ensures { Gives (read.evaluation (parts_of total) cursor.old) result cursor.new }
{
    let expression = read_value(cursor, total, 1)?;
    cursor.expect(Sign::Semi)?;
    Ok(Stmt::Expr(expression))
}
