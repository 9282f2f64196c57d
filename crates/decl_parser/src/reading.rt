// The reading of declarations.

ghost use Rattle.std.specs.Prelude.{◌≡◌, ◌-◌, length};
ghost use Rattle.expr_parser.specs.Operators.{kind_at};
ghost use Rattle.expr_parser.specs.Reading.{Gives, items};
ghost use Rattle.decl_parser.specs.Declaration as read;

use capl_lexer::{Sign, Tok, Word};
use capl_tree::{Decl, DeclType, Declr, Expr, Field, Init, Item};
use expr_parser::operator::kind_of;
use expr_parser::{Cursor, Refusal, read_expression, read_field};
use int_kinds::Kind;
use items::{Boxed, Items};

/// A declaration up to its semicolon. `total` is the number of tokens of the file, from which the places are
/// counted. A depth above the number of tokens left refuses nothing for its depth. NotSpelled where the
/// tokens do not begin with a declaration, and NoMemory for want of memory. Takes time linear in the tokens
/// that it reads.
#[tactic(auto, unfolding(crate::specs::Declaration::declaration, expr_parser::specs::Reading::after))]
pub fn read_declaration(cursor: &mut Cursor<'_>, total: u32, depth: usize) -> Result<Decl, Refusal>
    ensures { Gives (read.declaration total depth cursor.old) result cursor.new }
{
    let at = cursor.place(total);
    let what = declared_type(cursor, total)?;
    let items = declarators(cursor, total, depth)?;
    cursor.expect(Sign::Semi)?;
    Ok(Decl { what, items, at })
}

/// The type of a declaration.
#[tactic(auto, unfolding(crate::specs::Declaration::declared_type))]
fn declared_type(cursor: &mut Cursor<'_>, total: u32) -> Result<DeclType, Refusal>
    ensures { Gives (read.declared_type total cursor.old) result cursor.new }
{
    match cursor.next() {
        Some(Tok::Word(Word::Const)) => {
            let kind = cursor.kind();
            cursor.skip();
            number_type(cursor, true, kind)
        }
        Some(Tok::Word(Word::Message)) => message(cursor, total),
        Some(Tok::Word(Word::Timer)) => Ok(DeclType::Seconds),
        Some(Tok::Word(Word::MsTimer)) => Ok(DeclType::Millis),
        Some(Tok::Word(word)) => number_type(cursor, false, kind_of(*word)),
        _ => Err(Refusal::NotSpelled),
    }
}

/// Numbers of a kind, behind `const` where `fixed` is true.
#[tactic(auto, unfolding(crate::specs::Declaration::number_type))]
fn number_type(
    cursor: &mut Cursor<'_>,
    fixed: bool,
    kind: Option<Kind>,
) -> Result<DeclType, Refusal>
    ensures { Gives (read.number_type fixed kind cursor.old) result cursor.new }
{
    match kind {
        Some(kind) => Ok(DeclType::Number { kind, fixed }),
        None => Err(Refusal::NotSpelled),
    }
}

/// Behind `message`: which one.
#[tactic(auto, unfolding(crate::specs::Declaration::message))]
fn message(cursor: &mut Cursor<'_>, total: u32) -> Result<DeclType, Refusal>
    ensures { Gives (read.message (total - length cursor.old) cursor.old) result cursor.new }
{
    let at = cursor.place(total);
    match cursor.next() {
        Some(Tok::Sign(Sign::Star)) => Ok(DeclType::Any),
        Some(Tok::Num { ext, value }) => Ok(DeclType::ById {
            value: *value,
            ext: *ext,
            at,
        }),
        Some(Tok::Name(name)) => Ok(DeclType::ByName {
            name: name.copy()?,
            at,
        }),
        _ => Err(Refusal::NotSpelled),
    }
}

/// Declared variables with commas between them, at least one.
#[tactic(auto, unfolding(expr_parser::specs::Reading::items, expr_parser::specs::Reading::items_from))]
fn declarators(cursor: &mut Cursor<'_>, total: u32, depth: usize) -> Result<Items<Declr>, Refusal>
    ensures { Gives (items (read.declarator total depth) cursor.old) result cursor.new }
{
    let mut found = Vec::new(cursor.alloc());
    for _turn in 0..cursor.len() {
        found.push(declarator(cursor, total, depth)?)?;
        if !cursor.eat(Sign::Comma) {
            return Ok(Items::from_list(found));
        }
    }
    Err(Refusal::NotSpelled)
}

/// A declared variable.
#[tactic(auto, unfolding(crate::specs::Declaration::declarator, crate::specs::Declaration::named))]
fn declarator(cursor: &mut Cursor<'_>, total: u32, depth: usize) -> Result<Declr, Refusal>
    ensures { Gives (read.declarator total depth cursor.old) result cursor.new }
{
    let at = cursor.place(total);
    let Some(Tok::Name(name)) = cursor.next() else {
        return Err(Refusal::NotSpelled);
    };
    let size = size_part(cursor, total, depth)?;
    let init = first_part(cursor, total, depth)?;
    let name = name.copy()?;
    Ok(Declr {
        name,
        at,
        size,
        init,
    })
}

/// The number of elements, where there is one.
#[tactic(auto, unfolding(crate::specs::Declaration::size_part, expr_parser::specs::Reading::after))]
fn size_part(
    cursor: &mut Cursor<'_>,
    total: u32,
    depth: usize,
) -> Result<Option<Boxed<Expr>>, Refusal>
    ensures { Gives (read.size_part total depth cursor.old) result cursor.new }
{
    if !cursor.eat(Sign::OpenBracket) {
        return Ok(None);
    }
    let size = read_expression(cursor, total, depth, 2)?;
    cursor.expect(Sign::CloseBracket)?;
    let size = Boxed::new(cursor.alloc(), size)?;
    Ok(Some(size))
}

/// What a variable is given at first, where there is anything.
#[tactic(auto, unfolding(crate::specs::Declaration::first_part))]
fn first_part(
    cursor: &mut Cursor<'_>,
    total: u32,
    depth: usize,
) -> Result<Option<Boxed<Init>>, Refusal>
    ensures { Gives (read.first_part total depth cursor.old) result cursor.new }
{
    if !cursor.eat(Sign::Assign) {
        return Ok(None);
    }
    let init = initialiser(cursor, total, depth)?;
    let init = Boxed::new(cursor.alloc(), init)?;
    Ok(Some(init))
}

/// An initialiser.
#[tactic(auto, unfolding(crate::specs::Declaration::initialiser, expr_parser::specs::Reading::after))]
fn initialiser(cursor: &mut Cursor<'_>, total: u32, depth: usize) -> Result<Init, Refusal>
    ensures { Gives (read.initialiser total depth cursor.old) result cursor.new }
{
    let at = cursor.place(total);
    if !cursor.eat(Sign::OpenBrace) {
        let value = read_expression(cursor, total, depth, 2)?;
        return Ok(Init::One(value));
    }
    let items = listed(cursor, total, depth)?;
    cursor.expect(Sign::CloseBrace)?;
    Ok(Init::Many { items, at })
}

/// Items with commas between them, at least one.
#[tactic(auto, unfolding(expr_parser::specs::Reading::items, expr_parser::specs::Reading::items_from))]
fn listed(cursor: &mut Cursor<'_>, total: u32, depth: usize) -> Result<Items<Item>, Refusal>
    ensures { Gives (items (read.item total depth) cursor.old) result cursor.new }
{
    let mut found = Vec::new(cursor.alloc());
    for _turn in 0..cursor.len() {
        found.push(item(cursor, total, depth)?)?;
        if !cursor.eat(Sign::Comma) {
            return Ok(Items::from_list(found));
        }
    }
    Err(Refusal::NotSpelled)
}

/// An item between the braces of an initialiser.
#[tactic(auto, unfolding(crate::specs::Declaration::item_at, crate::specs::Declaration::plain))]
fn item(cursor: &mut Cursor<'_>, total: u32, depth: usize) -> Result<Item, Refusal>
    ensures { Gives (read.item total depth cursor.old) result cursor.new }
{
    if cursor.kind().is_some() {
        let field = read_field(cursor, total, depth)?;
        return set(cursor, total, depth, field);
    }
    let value = read_expression(cursor, total, depth, 2)?;
    if !cursor.is_at(Sign::Assign) {
        return Ok(Item::Plain(value));
    }
    set_name(cursor, total, depth, value)
}

/// Before `=`: the name of a field.
#[tactic(auto, unfolding(crate::specs::Declaration::set_name))]
fn set_name(cursor: &mut Cursor<'_>, total: u32, depth: usize, value: Expr) -> Result<Item, Refusal>
    ensures { Gives (read.set_name total depth value cursor.old) result cursor.new }
{
    match value {
        Expr::Name { name, at } => set(cursor, total, depth, Field::Named { name, at }),
        value => Ok(Item::Plain(value)),
    }
}

/// Behind a field of an item: `=` and the value.
#[tactic(auto, unfolding(crate::specs::Declaration::set, expr_parser::specs::Reading::after))]
fn set(cursor: &mut Cursor<'_>, total: u32, depth: usize, field: Field) -> Result<Item, Refusal>
    ensures { Gives (read.set total depth field cursor.old) result cursor.new }
{
    cursor.expect(Sign::Assign)?;
    let value = read_expression(cursor, total, depth, 2)?;
    Ok(Item::Set { field, value })
}
