// The reading of the heads of procedures.
//
// `total` is the number of tokens of the file, from which places are counted.

ghost use Rattle.std.specs.Prelude.{◌≡◌};
ghost use Rattle.expr_parser.specs.Reading.{Gives, items};
ghost use Rattle.parser_laws.specs.File as read;
ghost use Rattle.parser_laws.specs.File.{channel_named};

use capl_lexer::{Sign, Tok, Word};
use capl_tree::{Expr, Head, Param, Sel, SelWhat};
use expr_parser::{Cursor, Refusal};
use int_kinds::Kind;
use items::Items;
use texts::Text;

/// The head of a procedure.
#[tactic(auto, unfolding(parser_laws::specs::File::procedure_head))]
pub(crate) fn read_head(cursor: &mut Cursor<'_>, total: u32) -> Result<Head, Refusal>
    ensures { Gives (read.procedure_head total cursor.old) result cursor.new }
{
    if cursor.eat_word(Word::On) {
        return event(cursor, total);
    }
    if cursor.eat_word(Word::Void) {
        return signature(cursor, total, None);
    }
    let kind = cursor.kind();
    function_of(cursor, total, kind)
}

/// A function whose first word may be this kind.
#[tactic(auto, unfolding(parser_laws::specs::File::function_of))]
fn function_of(cursor: &mut Cursor<'_>, total: u32, kind: Option<Kind>) -> Result<Head, Refusal>
    ensures { Gives (read.function_of total kind cursor.old) result cursor.new }
{
    if kind.is_some() {
        cursor.skip();
    }
    signature(cursor, total, kind)
}

/// A function of this kind, from its name on.
#[tactic(auto, unfolding(parser_laws::specs::File::signature, expr_parser::specs::Reading::after))]
fn signature(cursor: &mut Cursor<'_>, total: u32, kind: Option<Kind>) -> Result<Head, Refusal>
    ensures { Gives (read.signature total kind cursor.old) result cursor.new }
{
    let at = cursor.place(total);
    let name = name(cursor)?;
    cursor.expect(Sign::OpenParen)?;
    let params = parameters(cursor, total)?;
    Ok(Head::Function {
        kind,
        name,
        params,
        at,
    })
}

/// A name.
fn name(cursor: &mut Cursor<'_>) -> Result<Text, Refusal>
    ensures { Gives (read.name cursor.old) result cursor.new }
{
    match cursor.next() {
        Some(Tok::Name(name)) => Ok(name.copy()?),
        _ => Err(Refusal::NotSpelled),
    }
}

/// Behind the opening parenthesis of a function: its parameters up to the closing one.
#[tactic(auto, unfolding(parser_laws::specs::File::parameters, expr_parser::specs::Reading::after))]
fn parameters(cursor: &mut Cursor<'_>, total: u32) -> Result<Items<Param>, Refusal>
    ensures { Gives (read.parameters total cursor.old) result cursor.new }
{
    if cursor.eat(Sign::CloseParen) {
        return Ok(Items::new(cursor.alloc()));
    }
    if cursor.eat_word(Word::Void) {
        cursor.expect(Sign::CloseParen)?;
        return Ok(Items::new(cursor.alloc()));
    }
    let found = some_parameters(cursor, total)?;
    cursor.expect(Sign::CloseParen)?;
    Ok(found)
}

/// Parameters with commas between them, at least one.
#[tactic(auto, unfolding(expr_parser::specs::Reading::items, expr_parser::specs::Reading::items_from))]
fn some_parameters(cursor: &mut Cursor<'_>, total: u32) -> Result<Items<Param>, Refusal>
    ensures { Gives (items (read.parameter total) cursor.old) result cursor.new }
{
    let mut found = Vec::new(cursor.alloc());
    for _turn in 0..cursor.len() {
        found.push(parameter(cursor, total)?)?;
        if !cursor.eat(Sign::Comma) {
            return Ok(Items::from_list(found));
        }
    }
    Err(Refusal::NotSpelled)
}

/// A parameter.
#[tactic(auto, unfolding(parser_laws::specs::File::parameter, parser_laws::specs::File::parameter_of))]
fn parameter(cursor: &mut Cursor<'_>, total: u32) -> Result<Param, Refusal>
    ensures { Gives (read.parameter total cursor.old) result cursor.new }
{
    let Some(kind) = cursor.kind() else {
        return Err(Refusal::NotSpelled);
    };
    cursor.skip();
    let at = cursor.place(total);
    let name = name(cursor)?;
    Ok(Param { kind, name, at })
}

/// Behind `on`: an event.
#[tactic(auto, unfolding(parser_laws::specs::File::event))]
fn event(cursor: &mut Cursor<'_>, total: u32) -> Result<Head, Refusal>
    ensures { Gives (read.event total cursor.old) result cursor.new }
{
    if cursor.eat_word(Word::Message) {
        let selectors = selectors(cursor, total)?;
        return Ok(Head::Message(selectors));
    }
    if cursor.eat_word(Word::Timer) {
        let at = cursor.place(total);
        let name = name(cursor)?;
        return Ok(Head::Timer { name, at });
    }
    match cursor.next() {
        Some(Tok::Name(name)) => named_event(cursor, name),
        _ => Err(Refusal::NotSpelled),
    }
}

/// Behind `on` and this name: an event.
#[tactic(auto, unfolding(parser_laws::specs::File::named_event))]
fn named_event(cursor: &mut Cursor<'_>, name: &Text) -> Result<Head, Refusal>
    ensures { Gives (read.named_event name.now cursor.old) result cursor.new }
{
    let name = name.bytes();
    if name == b"preStart".as_slice() {
        Ok(Head::PreStart)
    } else if name == b"start".as_slice() {
        Ok(Head::Start)
    } else if name == b"stopMeasurement".as_slice() {
        Ok(Head::Stop)
    } else if name == b"key".as_slice() {
        key(cursor)
    } else {
        Err(Refusal::NotSpelled)
    }
}

/// Behind `on key`: which one.
#[tactic(auto, unfolding(parser_laws::specs::File::key, expr_parser::specs::Reading::after))]
fn key(cursor: &mut Cursor<'_>) -> Result<Head, Refusal>
    ensures { Gives (read.key cursor.old) result cursor.new }
{
    match cursor.next() {
        Some(Tok::Char(value)) => Ok(Head::Key {
            value: Some(*value),
        }),
        Some(Tok::Sign(Sign::Star)) => Ok(Head::Key { value: None }),
        _ => Err(Refusal::NotSpelled),
    }
}

/// Selectors with commas between them, at least one.
#[tactic(auto, unfolding(expr_parser::specs::Reading::items, expr_parser::specs::Reading::items_from))]
fn selectors(cursor: &mut Cursor<'_>, total: u32) -> Result<Items<Sel>, Refusal>
    ensures { Gives (items (read.selector total) cursor.old) result cursor.new }
{
    let mut found = Vec::new(cursor.alloc());
    for _turn in 0..cursor.len() {
        found.push(selector(cursor, total)?)?;
        if !cursor.eat(Sign::Comma) {
            return Ok(Items::from_list(found));
        }
    }
    Err(Refusal::NotSpelled)
}

/// A selector.
#[tactic(auto, unfolding(parser_laws::specs::File::selector))]
fn selector(cursor: &mut Cursor<'_>, total: u32) -> Result<Sel, Refusal>
    ensures { Gives (read.selector total cursor.old) result cursor.new }
{
    let at = cursor.place(total);
    if let Some(Tok::Name(name)) = cursor.peek() {
        cursor.skip();
        return named_selector(cursor, total, at, name);
    }
    let what = selection(cursor, total)?;
    Ok(Sel { chan: 0, what })
}

/// Behind a name at this place: a selector on its channel where a dot follows, or the message of the name.
#[tactic(auto, unfolding(parser_laws::specs::File::named_selector))]
fn named_selector(cursor: &mut Cursor<'_>, total: u32, at: u32, name: &Text) -> Result<Sel, Refusal>
    ensures { Gives (read.named_selector total at name.now cursor.old) result cursor.new }
{
    let chan = if cursor.is_at(Sign::Dot) {
        channel_named(name.bytes())
    } else {
        None
    };
    on_channel(cursor, total, at, name, chan)
}

/// The channel of this name.
fn channel_named(name: &[u8]) -> Option<u8>
    ensures { result ≡ channel_named name.now }
{
    if name == b"CAN1".as_slice() {
        return Some(1);
    }
    if name == b"CAN2".as_slice() {
        return Some(2);
    }
    None
}

/// Behind a name at this place, which is that of this channel and has a dot behind it, or that of a
/// message: the selector.
#[tactic(auto, unfolding(parser_laws::specs::File::on_channel))]
fn on_channel(
    cursor: &mut Cursor<'_>,
    total: u32,
    at: u32,
    name: &Text,
    chan: Option<u8>,
) -> Result<Sel, Refusal>
    ensures { Gives (read.on_channel total at name.now chan cursor.old) result cursor.new }
{
    let Some(chan) = chan else {
        let name = name.copy()?;
        return Ok(Sel {
            chan: 0,
            what: SelWhat::Name { name, at },
        });
    };
    cursor.skip();
    let what = selection(cursor, total)?;
    Ok(Sel { chan, what })
}

/// Which frames of a channel.
#[tactic(auto, unfolding(parser_laws::specs::File::selection))]
fn selection(cursor: &mut Cursor<'_>, total: u32) -> Result<SelWhat, Refusal>
    ensures { Gives (read.selection total cursor.old) result cursor.new }
{
    let at = cursor.place(total);
    if cursor.eat(Sign::Star) {
        return Ok(SelWhat::Any { at });
    }
    one_selection(cursor, total, at)
}

/// Which frames of a channel, where it is no `*`, at this place.
#[tactic(auto, unfolding(parser_laws::specs::File::one_selection))]
fn one_selection(cursor: &mut Cursor<'_>, total: u32, at: u32) -> Result<SelWhat, Refusal>
    ensures { Gives (read.one_selection total at cursor.old) result cursor.new }
{
    if let Some(Tok::Name(name)) = cursor.peek() {
        cursor.skip();
        return Ok(SelWhat::Name {
            name: name.copy()?,
            at,
        });
    }
    let low = numeral(cursor, total)?;
    range(cursor, total, at, low)
}

/// Behind the first number of a selector at this place: the last, where there is one.
#[tactic(auto, unfolding(parser_laws::specs::File::range))]
fn range(cursor: &mut Cursor<'_>, total: u32, at: u32, low: Expr) -> Result<SelWhat, Refusal>
    ensures { Gives (read.range total at low cursor.old) result cursor.new }
{
    if !cursor.eat(Sign::Minus) {
        return Ok(SelWhat::Ids {
            low,
            high: None,
            at,
        });
    }
    let high = numeral(cursor, total)?;
    Ok(SelWhat::Ids {
        low,
        high: Some(high),
        at,
    })
}

/// A number.
fn numeral(cursor: &mut Cursor<'_>, total: u32) -> Result<Expr, Refusal>
    ensures { Gives (read.numeral total cursor.old) result cursor.new }
{
    let at = cursor.place(total);
    match cursor.next() {
        Some(Tok::Num { ext, value }) => Ok(Expr::Num {
            value: *value,
            ext: *ext,
            at,
        }),
        _ => Err(Refusal::NotSpelled),
    }
}
