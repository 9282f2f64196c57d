// The statement at the front of the tokens.

ghost use Rattle.std.specs.Prelude.{◌≡◌, ◌<◌, ◌≤◌, length, IfOk};
ghost use Rattle.dbc_statements.specs.Statement as spec;
ghost use Rattle.dbc_statements.specs.Reading.{Gives};

use crate::cursor::Cursor;
use crate::keyword::Keyword;
use crate::receivers::{Before, receivers};
use crate::unread::Unread;
use signal_codec::Layout;
use std::alloc::Global;
use texts::Text;

/// The mark of a signal whose value is a float.
#[derive(Debug, Drop)]
pub struct FloatMark {
    /// The identifier of the signal's message.
    pub id: u32,
    /// The signal's name.
    pub name: Text,
}

/// A statement.
#[derive(Debug, Drop)]
pub enum Statement {
    /// A message, with the lines in which its identifier and its name stand.
    Message {
        id: u32,
        id_line: u32,
        name: Text,
        name_line: u32,
        len: u32,
    },
    /// A signal of the message before it, and the line in which its name stands.
    Signal {
        name: Text,
        layout: Layout,
        line: u32,
    },
    /// The mark of a float.
    Float(FloatMark),
    /// One of which nothing is kept.
    Other,
}

/// The statement at the front of the tokens. A signal is one only where a message stood before.
#[tactic(auto, unfolding(crate::specs::Statement::statement_at))]
pub fn next_statement(
    alloc: Global,
    cursor: &mut Cursor<'_>,
    inside: bool,
) -> Result<Statement, Unread>
    ensures read { Gives (λ s. s) (spec.statement_at inside cursor.old) result cursor.new }
    ensures shorter { IfOk result (λ _. length cursor.new < length cursor.old) }
{
    let keyword = cursor.keyword()?;
    behind_keyword(alloc, cursor, inside, keyword)
}

/// What stands behind a keyword.
#[tactic(auto, unfolding(crate::specs::Statement::behind_keyword))]
fn behind_keyword(
    alloc: Global,
    cursor: &mut Cursor<'_>,
    inside: bool,
    keyword: Keyword,
) -> Result<Statement, Unread>
    ensures read { Gives (λ s. s) (spec.behind_keyword inside keyword cursor.old) result cursor.new }
    ensures no_longer { length cursor.new ≤ length cursor.old }
{
    match keyword {
        Keyword::Version => cursor.string()?,
        Keyword::NewSymbols => {
            cursor.byte(b':')?;
            cursor.symbols()?;
        }
        Keyword::BitTiming => {
            cursor.byte(b':')?;
            cursor.up_to_keyword();
        }
        Keyword::Nodes => {
            cursor.byte(b':')?;
            cursor.words()?;
        }
        Keyword::Message => return message(alloc, cursor),
        Keyword::Signal if inside => return signal(alloc, cursor),
        Keyword::Signal => return Err(Unread::NotSpelled),
        Keyword::ValueType => return value_type(alloc, cursor),
        Keyword::Other => cursor.up_to_semicolon()?,
    }
    Ok(Statement::Other)
}

/// A message: its identifier, its name, `:`, its length and its sender.
#[tactic(auto, unfolding(crate::specs::Statement::message))]
fn message(alloc: Global, cursor: &mut Cursor<'_>) -> Result<Statement, Unread>
    ensures read { Gives (λ s. s) (spec.message cursor.old) result cursor.new }
    ensures no_longer { length cursor.new ≤ length cursor.old }
{
    let id_line = cursor.next_line()?;
    let id = cursor.decimal(4_294_967_295)?;
    let name_line = cursor.next_line()?;
    let name = cursor.word()?;
    cursor.byte(b':')?;
    let len = cursor.decimal(65_535)?;
    cursor.word()?;
    Ok(Statement::Message {
        id: id as u32,
        id_line,
        name: Text::make(alloc, name)?,
        name_line,
        len: len as u32,
    })
}

/// A signal: its name, perhaps how it is multiplexed, `:`, its layout, its factor and offset, its
/// least and greatest value, its unit and its receivers.
#[tactic(auto, unfolding(crate::specs::Statement::signal))]
fn signal(alloc: Global, cursor: &mut Cursor<'_>) -> Result<Statement, Unread>
    ensures read { Gives (λ s. s) (spec.signal cursor.old) result cursor.new }
    ensures no_longer { length cursor.new ≤ length cursor.old }
{
    let line = cursor.next_line()?;
    let name = cursor.word()?;
    cursor.multiplexing()?;
    cursor.byte(b':')?;
    let layout = layout(cursor)?;
    pair(cursor, b'(', b',', b')')?;
    pair(cursor, b'[', b'|', b']')?;
    cursor.string()?;
    receivers(cursor)?;
    Ok(Statement::Signal {
        name: Text::make(alloc, name)?,
        layout,
        line,
    })
}

/// A layout: start, `|`, length, `@`, order and sign.
#[tactic(auto, unfolding(crate::specs::Statement::layout))]
fn layout(cursor: &mut Cursor<'_>) -> Result<Layout, Unread>
    ensures read { Gives (λ l. l) (spec.layout cursor.old) result cursor.new }
    ensures no_longer { length cursor.new ≤ length cursor.old }
{
    let start = cursor.decimal(65_535)?;
    cursor.byte(b'|')?;
    let len = cursor.decimal(65_535)?;
    cursor.byte(b'@')?;
    let big = cursor.big()?;
    let signed = cursor.signed()?;
    Ok(Layout {
        start: start as u16,
        len: len as u16,
        big,
        signed,
    })
}

/// Two numbers between these bytes.
#[tactic(auto, unfolding(crate::specs::Statement::pair))]
fn pair(cursor: &mut Cursor<'_>, first: u8, between: u8, last: u8) -> Result<(), Unread>
    ensures read { Gives (λ u. u) (spec.pair first between last cursor.old) result cursor.new }
    ensures no_longer { length cursor.new ≤ length cursor.old }
{
    cursor.byte(first)?;
    cursor.number()?;
    cursor.byte(between)?;
    cursor.number()?;
    cursor.byte(last)
}

/// A signal's value type: the message's identifier, the signal's name, perhaps `:`, the type, `;`.
#[tactic(auto, unfolding(crate::specs::Statement::value_type))]
fn value_type(alloc: Global, cursor: &mut Cursor<'_>) -> Result<Statement, Unread>
    ensures read { Gives (λ s. s) (spec.value_type cursor.old) result cursor.new }
    ensures no_longer { length cursor.new ≤ length cursor.old }
{
    let id = cursor.decimal(4_294_967_295)?;
    let name = cursor.word()?;
    cursor.perhaps(b':');
    let float = cursor.float()?;
    cursor.byte(b';')?;
    if !float {
        return Ok(Statement::Other);
    }
    Ok(Statement::Float(FloatMark {
        id: id as u32,
        name: Text::make(alloc, name)?,
    }))
}
