// The weight of a program, computed.

ghost use Rattle.std.specs.Prelude.{◌≡◌, ◌+◌, ◌*◌};
ghost use Rattle.std.specs.List.{sum_by};
ghost use Rattle.capl_tree.specs.Weight.{saturated, expression_weight, field_weight, part_weight, statement_weight, procedure_weight, top_item_weight, file_weight, weight};
ghost use Rattle.capl_tree.specs.Inside.Weight.{arm_weight, if_weight, other_weight, group_weight};

use crate::expr::{Expr, Field};
use crate::file::{FileTree, Program, TopItem};
use crate::procedure::Proc;
use crate::statement::{Arm, Group, Stmt};
use items::Boxed;

/// The weight of a program, or 2^64 - 1 where it is above: an upper bound of the number of
/// instructions of its code. Takes time linear in the tree.
pub fn weight_of(program: &Program) -> u64
    ensures { result ≡ saturated (weight program.now) }
{
    let mut weight = 0u64;
    for file in program.files.as_slice() {
        weight = weight.saturating_add(file_weight(file));
    }
    weight
}

/// The weight of a file.
fn file_weight(file: &FileTree) -> u64
    ensures { result ≡ saturated (file_weight file.now) }
{
    let mut weight = 0u64;
    for item in file.items.as_slice() {
        weight = weight.saturating_add(top_item_weight(item));
    }
    weight
}

/// The weight of a part of a file.
fn top_item_weight(item: &TopItem) -> u64
    ensures { result ≡ saturated (top_item_weight item.now) }
{
    match item {
        TopItem::Includes(_) | TopItem::Variables(_) => 0,
        TopItem::Proc(procedure) => procedure_weight(procedure),
    }
}

/// The weight of a procedure.
fn procedure_weight(procedure: &Proc) -> u64
    ensures { result ≡ saturated (procedure_weight procedure.now) }
{
    statements_weight(procedure.body.as_slice()).saturating_add(8)
}

/// 8 and the weight of two parts.
fn node_weight(one: u64, other: u64) -> u64
    ensures { result ≡ saturated (8 + one + other) }
{
    one.saturating_add(other).saturating_add(8)
}

/// The weight of two parts.
fn pair_weight(one: u64, other: u64) -> u64
    ensures { result ≡ saturated (one + other) }
{
    one.saturating_add(other)
}

/// The weight of a statement.
#[tactic(auto, using(crate::proofs::WeightLemmas::block_weight))]
#[cycle(statement)]
fn statement_weight(statement: &Stmt) -> u64
    ensures { result ≡ saturated (statement_weight statement.now) }
{
    match statement {
        Stmt::Empty | Stmt::Break { .. } | Stmt::Continue { .. } => 8,
        Stmt::Block(body) => statements_weight(body.as_slice()).saturating_add(8),
        Stmt::Decl(_) => 0,
        Stmt::Expr(e) => expression_weight(e).saturating_add(8),
        Stmt::If { arms, other } => pair_weight(if_weight(arms.as_slice()), else_weight(other)),
        Stmt::While { test, body } => {
            node_weight(expression_weight(test), statement_weight(body.get()))
        }
        Stmt::Do { body, test } => {
            node_weight(statement_weight(body.get()), expression_weight(test))
        }
        Stmt::For {
            init,
            test,
            step,
            body,
        } => node_weight(
            pair_weight(part_weight(init), part_weight(test)),
            pair_weight(part_weight(step), statement_weight(body.get())),
        ),
        Stmt::Switch { on, groups } => {
            node_weight(
                expression_weight(on.get()),
                groups_weight(groups.as_slice()),
            )
        }
        Stmt::Return { value, .. } => part_weight(value).saturating_add(8),
    }
}

/// The weight of statements.
#[cycle(statement)]
fn statements_weight(statements: &[Stmt]) -> u64
    ensures { result ≡ saturated (sum_by statement_weight statements.now) }
{
    let mut weight = 0u64;
    for statement in statements {
        weight = weight.saturating_add(statement_weight(statement));
    }
    weight
}

/// The weight of an `if` and its arms, without what stands behind a last `else`.
#[cycle(statement)]
fn if_weight(arms: &[Arm]) -> u64
    ensures { result ≡ saturated (if_weight arms.now) }
{
    if arms.is_empty() {
        return 8;
    }
    let mut weight = 0u64;
    for arm in arms {
        weight = weight.saturating_add(arm_weight(arm));
    }
    weight
}

/// The weight of an arm after the first.
#[cycle(statement)]
fn arm_weight(arm: &Arm) -> u64
    ensures { result ≡ saturated (arm_weight arm.now) }
{
    node_weight(expression_weight(&arm.test), statement_weight(&arm.body))
}

/// The weight of what stands behind a last `else`.
#[cycle(statement)]
fn else_weight(other: &Option<Boxed<Stmt>>) -> u64
    ensures { result ≡ saturated (other_weight other.now) }
{
    match other {
        None => 0,
        Some(body) => statement_weight(body.get()),
    }
}

/// The weight of the groups of a `switch`.
#[cycle(statement)]
fn groups_weight(groups: &[Group]) -> u64
    ensures { result ≡ saturated (sum_by group_weight groups.now) }
{
    let mut weight = 0u64;
    for group in groups {
        weight = weight.saturating_add(group_weight(group));
    }
    weight
}

/// The weight of a group of a `switch`.
#[cycle(statement)]
fn group_weight(group: &Group) -> u64
    ensures { result ≡ saturated (group_weight group.now) }
{
    labels_weight(group.labels.len()).saturating_add(statements_weight(group.body.as_slice()))
}

/// The weight of so many labels.
fn labels_weight(count: usize) -> u64
    ensures { result ≡ saturated (8 * count) }
{
    (count as u64).saturating_mul(8)
}

/// The weight of an expression that may be missing.
fn part_weight(part: &Option<Boxed<Expr>>) -> u64
    ensures { result ≡ saturated (part_weight part.now) }
{
    match part {
        None => 0,
        Some(e) => expression_weight(e.get()),
    }
}

/// The weight of an expression.
#[cycle(expression)]
fn expression_weight(e: &Expr) -> u64
    ensures { result ≡ saturated (expression_weight e.now) }
{
    match e {
        Expr::Num { .. }
        | Expr::Char { .. }
        | Expr::Str { .. }
        | Expr::This { .. }
        | Expr::Name { .. } => 8,
        Expr::Paren { inner, .. } => expression_weight(inner.get()).saturating_add(8),
        Expr::Call { args, .. } => expressions_weight(args.as_slice()).saturating_add(8),
        Expr::Index { base, index, .. } => {
            node_weight(
                expression_weight(base.get()),
                expression_weight(index.get()),
            )
        }
        Expr::Member { base, field, .. } => {
            node_weight(expression_weight(base.get()), field_weight(field))
        }
        Expr::Cast { inner, .. } => expression_weight(inner.get()).saturating_add(8),
        Expr::Unary { inner, .. } => expression_weight(inner.get()).saturating_add(8),
        Expr::Post { inner, .. } => expression_weight(inner.get()).saturating_add(8),
        Expr::Binary { left, right, .. } => {
            node_weight(
                expression_weight(left.get()),
                expression_weight(right.get()),
            )
        }
        Expr::Cond { test, yes, no, .. } => node_weight(
            pair_weight(expression_weight(test.get()), expression_weight(yes.get())),
            expression_weight(no.get()),
        ),
        Expr::Assign { left, right, .. } => {
            node_weight(
                expression_weight(left.get()),
                expression_weight(right.get()),
            )
        }
    }
}

/// The weight of the index in a field.
#[tactic(auto, using(crate::proofs::WeightLemmas::bytes_weight))]
#[cycle(expression)]
fn field_weight(field: &Field) -> u64
    ensures { result ≡ saturated (field_weight field.now) }
{
    match field {
        Field::Named { .. } => 0,
        Field::Bytes { index, .. } => expression_weight(index.get()),
    }
}

/// The weight of expressions.
#[cycle(expression)]
fn expressions_weight(all: &[Expr]) -> u64
    ensures { result ≡ saturated (sum_by expression_weight all.now) }
{
    let mut weight = 0u64;
    for e in all {
        weight = weight.saturating_add(expression_weight(e));
    }
    weight
}
