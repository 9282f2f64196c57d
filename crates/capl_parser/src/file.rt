// The reading of the parts of a file.
//
// `total` is the number of tokens of the file, from which places are counted.

ghost use Rattle.std.specs.Prelude.{◌≡◌, ◌<◌, ◌^◌, length};
ghost use Rattle.expr_parser.specs.Reading.{Gives};
ghost use Rattle.parser_laws.specs.File as read;
ghost use Rattle.parser_laws.specs.Statement.{parts_of};

use crate::head::read_head;
use capl_lexer::{Sign, Tok, Word};
use capl_tree::{Decl, Proc, TopItem};
use expr_parser::{Cursor, Refusal};
use items::Items;
use stmt_parser::{read_block, read_declared};
use texts::Text;

/// The parts of a file, up to its end.
#[tactic(auto, unfolding(parser_laws::specs::File::file, parser_laws::specs::Statement::until))]
pub(crate) fn read_file(cursor: &mut Cursor<'_>, total: u32) -> Result<Items<TopItem>, Refusal>
    requires { length cursor.old < 2 ^ 32 }
    ensures { Gives (read.file (parts_of total) cursor.old) result cursor.new }
{
    let mut found = Vec::new(cursor.alloc());
    for _turn in 0..cursor.len() + 1 {
        if cursor.len() == 0 {
            return Ok(Items::from_list(found));
        }
        found.push(top_item(cursor, total)?)?;
    }
    Err(Refusal::NotSpelled)
}

/// A part of a file.
#[tactic(auto, unfolding(parser_laws::specs::File::top_item))]
fn top_item(cursor: &mut Cursor<'_>, total: u32) -> Result<TopItem, Refusal>
    ensures { Gives (read.top_item (parts_of total) cursor.old) result cursor.new }
{
    if cursor.eat_word(Word::Includes) {
        return includes(cursor);
    }
    if cursor.eat_word(Word::Variables) {
        return variables(cursor, total);
    }
    let procedure = procedure(cursor, total)?;
    Ok(TopItem::Proc(procedure))
}

/// Behind `includes`: the names of files between braces.
#[tactic(auto, unfolding(parser_laws::specs::File::includes, expr_parser::specs::Reading::after))]
fn includes(cursor: &mut Cursor<'_>) -> Result<TopItem, Refusal>
    ensures { Gives (read.includes cursor.old) result cursor.new }
{
    cursor.expect(Sign::OpenBrace)?;
    let names = names(cursor)?;
    cursor.expect(Sign::CloseBrace)?;
    Ok(TopItem::Includes(names))
}

/// The names of included files, up to a closing brace.
#[tactic(auto, unfolding(parser_laws::specs::Statement::until))]
fn names(cursor: &mut Cursor<'_>) -> Result<Items<Text>, Refusal>
    ensures { Gives (read.names cursor.old) result cursor.new }
{
    let mut found = Vec::new(cursor.alloc());
    for _turn in 0..cursor.len() {
        if cursor.is_at(Sign::CloseBrace) {
            return Ok(Items::from_list(found));
        }
        found.push(included(cursor)?)?;
    }
    Err(Refusal::NotSpelled)
}

/// The name of an included file.
fn included(cursor: &mut Cursor<'_>) -> Result<Text, Refusal>
    ensures { Gives (read.included cursor.old) result cursor.new }
{
    match cursor.next() {
        Some(Tok::Include(name)) => Ok(name.copy()?),
        _ => Err(Refusal::NotSpelled),
    }
}

/// Behind `variables`: declarations between braces.
#[tactic(auto, unfolding(parser_laws::specs::File::variables, expr_parser::specs::Reading::after))]
fn variables(cursor: &mut Cursor<'_>, total: u32) -> Result<TopItem, Refusal>
    ensures { Gives (read.variables (parts_of total) cursor.old) result cursor.new }
{
    cursor.expect(Sign::OpenBrace)?;
    let declared = declarations(cursor, total)?;
    cursor.expect(Sign::CloseBrace)?;
    Ok(TopItem::Variables(declared))
}

/// Declarations, up to a closing brace.
#[tactic(auto, unfolding(parser_laws::specs::Statement::until))]
fn declarations(cursor: &mut Cursor<'_>, total: u32) -> Result<Items<Decl>, Refusal>
    ensures { Gives (read.declarations (parts_of total) cursor.old) result cursor.new }
{
    let mut found = Vec::new(cursor.alloc());
    for _turn in 0..cursor.len() {
        if cursor.is_at(Sign::CloseBrace) {
            return Ok(Items::from_list(found));
        }
        found.push(read_declared(cursor, total)?)?;
    }
    Err(Refusal::NotSpelled)
}

/// A procedure.
#[tactic(auto, unfolding(parser_laws::specs::File::procedure, expr_parser::specs::Reading::after))]
fn procedure(cursor: &mut Cursor<'_>, total: u32) -> Result<Proc, Refusal>
    ensures { Gives (read.procedure (parts_of total) cursor.old) result cursor.new }
{
    let at = cursor.place(total);
    let head = read_head(cursor, total)?;
    cursor.expect(Sign::OpenBrace)?;
    let body = read_block(cursor, total, total as usize)?;
    Ok(Proc { head, body, at })
}
