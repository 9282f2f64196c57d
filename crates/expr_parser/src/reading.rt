// The reading of expressions.

ghost use Rattle.std.specs.Prelude.{◌≡◌, ◌-◌, length};
ghost use Rattle.expr_parser.specs.Operators.{kind_at};
ghost use Rattle.expr_parser.specs.Reading.{Gives, items};
ghost use Rattle.expr_parser.specs.Expression as read;

use crate::cursor::Cursor;
use crate::operator::{Operator, binding, operator_level, prefix_operator};
use crate::refusal::Refusal;
use capl_lexer::{Sign, Tok, Word};
use capl_tree::{Expr, Field};
use int_kinds::{BinOp, Kind, UnOp};
use items::{Boxed, Items};
use texts::Text;

/// An expression that binds at the level `least` or more strongly, from 1, an assignment, to 13, a prefix
/// operator. `total` is the number of tokens of the file, from which the places are counted. A depth above
/// the number of tokens left refuses nothing for its depth. NotSpelled where the tokens do not begin with
/// such an expression, and NoMemory for want of memory. Takes time linear in the tokens that it reads.
#[tactic(auto, unfolding(crate::specs::Expression::expression))]
#[cycle(reading)]
pub fn read_expression(
    cursor: &mut Cursor<'_>,
    total: u32,
    depth: usize,
    least: u8,
) -> Result<Expr, Refusal>
    ensures { Gives (read.expression total depth least cursor.old) result cursor.new }
{
    if depth == 0 {
        return Err(Refusal::NotSpelled);
    }
    let first = operand(cursor, total, depth - 1)?;
    climb(cursor, total, depth - 1, least, first)
}

/// An operand of one piece, or a prefix operator or a cast with its operand.
#[tactic(auto, unfolding(crate::specs::Expression::operand))]
#[cycle(reading)]
fn operand(cursor: &mut Cursor<'_>, total: u32, depth: usize) -> Result<Expr, Refusal>
    ensures { Gives (read.operand (read.expression total depth) (total - length cursor.old) cursor.old)
        result cursor.new }
{
    let at = cursor.place(total);
    match cursor.next() {
        Some(Tok::Name(name)) => named(cursor, total, depth, at, name),
        Some(Tok::Num { ext, value }) => Ok(Expr::Num {
            value: *value,
            ext: *ext,
            at,
        }),
        Some(Tok::Char(value)) => Ok(Expr::Char { value: *value, at }),
        Some(Tok::Str(text)) => Ok(Expr::Str {
            text: text.copy()?,
            at,
        }),
        Some(Tok::Word(Word::This)) => Ok(Expr::This { at }),
        Some(Tok::Sign(Sign::OpenParen)) => enclosed(cursor, total, depth, at),
        Some(Tok::Sign(sign)) => unary(cursor, total, depth, at, prefix_operator(*sign)),
        _ => Err(Refusal::NotSpelled),
    }
}

/// Behind a name: the arguments of a call, or nothing.
#[tactic(auto, unfolding(crate::specs::Expression::named))]
#[cycle(reading)]
fn named(
    cursor: &mut Cursor<'_>,
    total: u32,
    depth: usize,
    at: u32,
    name: &Text,
) -> Result<Expr, Refusal>
    ensures { Gives (read.named (read.expression total depth) at name.now cursor.old) result cursor.new }
{
    if cursor.eat(Sign::OpenParen) {
        let args = arguments(cursor, total, depth)?;
        let name = name.copy()?;
        Ok(Expr::Call { name, args, at })
    } else {
        let name = name.copy()?;
        Ok(Expr::Name { name, at })
    }
}

/// The arguments of a call up to its closing parenthesis.
#[tactic(auto, unfolding(crate::specs::Expression::arguments, crate::specs::Reading::after))]
#[cycle(reading)]
fn arguments(cursor: &mut Cursor<'_>, total: u32, depth: usize) -> Result<Items<Expr>, Refusal>
    ensures { Gives (read.arguments (read.expression total depth) cursor.old) result cursor.new }
{
    if cursor.eat(Sign::CloseParen) {
        return Ok(Items::new(cursor.alloc()));
    }
    let found = listed(cursor, total, depth)?;
    cursor.expect(Sign::CloseParen)?;
    Ok(found)
}

/// Expressions with commas between them, at least one.
#[tactic(auto, unfolding(crate::specs::Reading::items, crate::specs::Reading::items_from))]
#[cycle(reading)]
fn listed(cursor: &mut Cursor<'_>, total: u32, depth: usize) -> Result<Items<Expr>, Refusal>
    ensures { Gives (items (read.expression total depth 1) cursor.old) result cursor.new }
{
    let mut found = Vec::new(cursor.alloc());
    for _turn in 0..cursor.len() {
        found.push(read_expression(cursor, total, depth, 1)?)?;
        if !cursor.eat(Sign::Comma) {
            return Ok(Items::from_list(found));
        }
    }
    Err(Refusal::NotSpelled)
}

/// An expression in an expression.
#[cycle(reading)]
fn nested(
    cursor: &mut Cursor<'_>,
    total: u32,
    depth: usize,
    least: u8,
) -> Result<Boxed<Expr>, Refusal>
    ensures { Gives (read.expression total depth least cursor.old) result cursor.new }
{
    let inner = read_expression(cursor, total, depth, least)?;
    Ok(Boxed::new(cursor.alloc(), inner)?)
}

/// Behind an opening parenthesis: the kind of a cast and its operand, or an expression.
#[tactic(auto, unfolding(crate::specs::Expression::enclosed, crate::specs::Reading::after))]
#[cycle(reading)]
fn enclosed(cursor: &mut Cursor<'_>, total: u32, depth: usize, at: u32) -> Result<Expr, Refusal>
    ensures { Gives (read.enclosed (read.expression total depth) at (kind_at cursor.old) cursor.old)
        result cursor.new }
{
    match cursor.kind() {
        None => {
            let inner = nested(cursor, total, depth, 1)?;
            cursor.expect(Sign::CloseParen)?;
            Ok(Expr::Paren { inner, at })
        }
        Some(kind) => {
            cursor.skip();
            cursor.expect(Sign::CloseParen)?;
            let operand = nested(cursor, total, depth, 13)?;
            Ok(Expr::Cast {
                kind,
                inner: operand,
                at,
            })
        }
    }
}

/// Behind a prefix operator: its operand.
#[tactic(auto, unfolding(crate::specs::Expression::unary))]
#[cycle(reading)]
fn unary(
    cursor: &mut Cursor<'_>,
    total: u32,
    depth: usize,
    at: u32,
    operator: Option<UnOp>,
) -> Result<Expr, Refusal>
    ensures { Gives (read.unary (read.expression total depth) at operator cursor.old) result cursor.new }
{
    let Some(op) = operator else {
        return Err(Refusal::NotSpelled);
    };
    let inner = nested(cursor, total, depth, 13)?;
    Ok(Expr::Unary { op, inner, at })
}

/// As many operators as bind at the level `least` or more strongly, each behind all before it.
#[tactic(auto, unfolding(crate::specs::Expression::climbs, crate::specs::Expression::climb))]
#[cycle(reading)]
fn climb(
    cursor: &mut Cursor<'_>,
    total: u32,
    depth: usize,
    least: u8,
    first: Expr,
) -> Result<Expr, Refusal>
    ensures { Gives (read.climbs total (read.expression total depth) least first cursor.old)
        result cursor.new }
{
    let mut left = first;
    for _turn in 0..cursor.len() {
        let operator = cursor.operator();
        if binding(operator) < least {
            return Ok(left);
        }
        cursor.skip();
        left = operated(cursor, total, depth, left, operator)?;
    }
    Ok(left)
}

/// Behind an operand and an operator: what the operator makes of the operand.
#[tactic(auto, unfolding(crate::specs::Expression::operated))]
#[cycle(reading)]
fn operated(
    cursor: &mut Cursor<'_>,
    total: u32,
    depth: usize,
    operand: Expr,
    operator: Option<Operator>,
) -> Result<Expr, Refusal>
    ensures { Gives (read.operated total (read.expression total depth) operand operator cursor.old)
        result cursor.new }
{
    let at = operand.place();
    let left = Boxed::new(cursor.alloc(), operand)?;
    match operator {
        Some(Operator::Assign(op)) => assign(cursor, total, depth, left, op),
        Some(Operator::Choice) => choice(cursor, total, depth, left),
        Some(Operator::Binary(op)) => binary(cursor, total, depth, left, op),
        Some(Operator::Index) => index(cursor, total, depth, left),
        Some(Operator::Member) => member(cursor, total, depth, left),
        Some(Operator::Post(up)) => Ok(Expr::Post {
            up,
            inner: left,
            at,
        }),
        Some(Operator::Call) | None => Err(Refusal::NotSpelled),
    }
}

/// Behind the left side of an assignment and its sign: the right side.
#[tactic(auto, unfolding(crate::specs::Expression::assign))]
#[cycle(reading)]
fn assign(
    cursor: &mut Cursor<'_>,
    total: u32,
    depth: usize,
    target: Boxed<Expr>,
    op: Option<BinOp>,
) -> Result<Expr, Refusal>
    ensures { Gives (read.assign (read.expression total depth) target op cursor.old) result cursor.new }
{
    let at = target.get().place();
    let right = nested(cursor, total, depth, 1)?;
    Ok(Expr::Assign {
        op,
        left: target,
        right,
        at,
    })
}

/// Behind the test of a `?:`: its two other parts.
#[tactic(auto, unfolding(crate::specs::Expression::choice, crate::specs::Reading::after))]
#[cycle(reading)]
fn choice(
    cursor: &mut Cursor<'_>,
    total: u32,
    depth: usize,
    test: Boxed<Expr>,
) -> Result<Expr, Refusal>
    ensures { Gives (read.choice (read.expression total depth) test cursor.old) result cursor.new }
{
    let at = test.get().place();
    let yes = nested(cursor, total, depth, 1)?;
    cursor.expect(Sign::Colon)?;
    let no = nested(cursor, total, depth, 2)?;
    Ok(Expr::Cond { test, yes, no, at })
}

/// Behind the left operand of a binary operator and its sign: the right operand, which binds more strongly.
#[tactic(auto, unfolding(crate::specs::Expression::binary))]
#[cycle(reading)]
fn binary(
    cursor: &mut Cursor<'_>,
    total: u32,
    depth: usize,
    left: Boxed<Expr>,
    op: BinOp,
) -> Result<Expr, Refusal>
    ensures { Gives (read.binary (read.expression total depth) left op cursor.old) result cursor.new }
{
    let at = left.get().place();
    let right = nested(cursor, total, depth, operator_level(op) + 1)?;
    Ok(Expr::Binary {
        op,
        left,
        right,
        at,
    })
}

/// Behind the base of an index and its bracket: the index up to the closing bracket.
#[tactic(auto, unfolding(crate::specs::Expression::index, crate::specs::Reading::after))]
#[cycle(reading)]
fn index(
    cursor: &mut Cursor<'_>,
    total: u32,
    depth: usize,
    base: Boxed<Expr>,
) -> Result<Expr, Refusal>
    ensures { Gives (read.index (read.expression total depth) base cursor.old) result cursor.new }
{
    let at = base.get().place();
    let index = nested(cursor, total, depth, 1)?;
    cursor.expect(Sign::CloseBracket)?;
    Ok(Expr::Index { base, index, at })
}

/// Behind the base of a member and its point: the field.
#[tactic(auto, unfolding(crate::specs::Expression::member))]
#[cycle(reading)]
fn member(
    cursor: &mut Cursor<'_>,
    total: u32,
    depth: usize,
    base: Boxed<Expr>,
) -> Result<Expr, Refusal>
    ensures { Gives (read.member total (read.expression total depth) base cursor.old) result cursor.new }
{
    let at = base.get().place();
    let field = read_field(cursor, total, depth)?;
    Ok(Expr::Member { base, field, at })
}

/// A field: a name, or a kind and an index between parentheses. `total`, `depth` and the refusals are those
/// of [`read_expression`].
#[tactic(auto, unfolding(crate::specs::Expression::field, crate::specs::Expression::field_at))]
#[cycle(reading)]
pub fn read_field(cursor: &mut Cursor<'_>, total: u32, depth: usize) -> Result<Field, Refusal>
    ensures { Gives (read.field total (read.expression total depth) cursor.old) result cursor.new }
{
    let at = cursor.place(total);
    let Some(kind) = cursor.kind() else {
        return named_field(cursor, at);
    };
    cursor.skip();
    bytes(cursor, total, depth, at, kind)
}

/// The name of a field.
#[tactic(auto, unfolding(crate::specs::Expression::named_field))]
fn named_field(cursor: &mut Cursor<'_>, at: u32) -> Result<Field, Refusal>
    ensures { Gives (read.named_field at cursor.old) result cursor.new }
{
    match cursor.next() {
        Some(Tok::Name(name)) => Ok(Field::Named {
            name: name.copy()?,
            at,
        }),
        _ => Err(Refusal::NotSpelled),
    }
}

/// Behind the word of a kind: the index of bytes of the payload.
#[tactic(auto, unfolding(crate::specs::Expression::bytes, crate::specs::Reading::after))]
#[cycle(reading)]
fn bytes(
    cursor: &mut Cursor<'_>,
    total: u32,
    depth: usize,
    at: u32,
    kind: Kind,
) -> Result<Field, Refusal>
    ensures { Gives (read.bytes (read.expression total depth) at kind cursor.old) result cursor.new }
{
    cursor.expect(Sign::OpenParen)?;
    let index = nested(cursor, total, depth, 1)?;
    cursor.expect(Sign::CloseParen)?;
    Ok(Field::Bytes { kind, index, at })
}
