// Statements.

ghost use Rattle.std.specs.Prelude.{◌≡◌, ℕ, ◌+◌, ◌<◌, ◌^◌, [], ◌∷◌, ◌++◌, List, IfOk, OnOk, Some, filter_map, length};
ghost use Rattle.std.specs.Option.{option_map};
ghost use Rattle.capl_meaning.specs.Constant.{prefix_kind};
ghost use Rattle.capl_meaning.specs.StatementRules.{label_of};
ghost use Rattle.typed_tree.specs.declared.expression.TExpr.{TExpr};
ghost use Rattle.capl_tree.specs.declared.statement.Stmt.TheVariants as stmt;
ghost use Rattle.typed_tree.specs.declared.statement.TStmt.TheVariants.{For, If, Return, Switch};
ghost use Rattle.typed_tree.specs.Forms.{Convert, Do, While};
ghost use Rattle.typed_source.specs.Expression.{expression_of};
ghost use Rattle.typed_source.specs.Statement.{formats_of, formats_of_part, returned, statement_of};
ghost use Rattle.typed_source.specs.Program.{body_of, formats_of_body};
ghost use Rattle.check_sorts.specs.Scope.{scope_in};
ghost use Rattle.type_statements.specs.Rows.{arms_in, else_in, formats_in_arms, formats_in_else, formats_in_groups, groups_in, part_in};
ghost use Rattle.type_alone.specs.Tables.{AreTables, order_of};

use crate::label::make_labels;
use capl_tree::{Arm, Expr, Group, Label, Stmt};
use check_sorts::{Scope, kind_in};
use int_kinds::{Kind, join};
use items::{Boxed, Items};
use std::alloc::Global;
use texts::NoMemory;
use type_alone::{StatementTables, make_alone};
use type_expressions::make_expression;
use typed_tree::{TArm, TExpr, TGroup, TStmt};
use write_format::Format;

/// The first or third part of a `for`, if it is there.
fn make_part(
    alloc: Global,
    scope: Scope,
    tables: &StatementTables,
    formats: &mut Vec<Format>,
    part: &Option<Boxed<Expr>>,
) -> Result<Option<Boxed<TStmt>>, NoMemory>
    requires tables { AreTables scope.names.now tables.now }
    requires room { length (formats.old.items ++ formats_of_part (scope_in scope) part.now) < 2 ^ 32 }
    ensures tree { IfOk result (λ made. made ≡ part_in (scope_in scope.entry) (order_of tables.now)
        (length formats.old.items) part.now) }
    ensures formats { OnOk result (formats.new.items
        ≡ formats.old.items ++ formats_of_part (scope_in scope.entry) part.now) }
{
    match part {
        None => Ok(None),
        Some(e) => {
            let tree = make_alone(alloc, scope, tables, formats, e.get())?;
            let boxed = Boxed::new(alloc, tree)?;
            Ok(Some(boxed))
        }
    }
}

/// The value of a `switch` in the kind in which it compares, and that kind.
#[tactic(auto, unfolding(crate::proofs::By::value, crate::proofs::By::row))]
fn make_value(
    alloc: Global,
    scope: Scope,
    tables: &StatementTables,
    on: &Expr,
) -> Result<(TExpr, Kind), NoMemory>
    requires { AreTables scope.names.now tables.now }
    ensures tree { let s = scope_in scope.entry in IfOk result (λ made.
        made.0 ≡ Convert (prefix_kind s on.now) (expression_of s (order_of tables.now) on.now)) }
    ensures kind { IfOk result (λ made. made.1 ≡ prefix_kind (scope_in scope.entry) on.now) }
{
    let made = make_expression(alloc, scope, &tables.trees, on)?;
    let kind = join(kind_in(made.sort), kind_in(made.sort));
    let inner = Boxed::new(alloc, made.tree)?;
    Ok((TExpr::Convert { kind, inner }, kind))
}

/// A `return` of what is given, converted to the kind that is wanted.
#[tactic(auto, unfolding(crate::proofs::By::value, crate::proofs::By::row))]
fn make_return(
    alloc: Global,
    scope: Scope,
    tables: &StatementTables,
    value: &Option<Boxed<Expr>>,
) -> Result<TStmt, NoMemory>
    requires { AreTables scope.names.now tables.now }
    ensures { let s = scope_in scope.entry in IfOk result (λ made. made
        ≡ Return (option_map (λ e. returned s.gives (expression_of s (order_of tables.now) e)) value.now)) }
{
    let Some(e) = value else {
        return Ok(TStmt::Return { value: None });
    };
    let made = make_expression(alloc, scope, &tables.trees, e.get())?;
    let tree = match scope.gives {
        None => made.tree,
        Some(kind) => {
            let inner = Boxed::new(alloc, made.tree)?;
            TExpr::Convert { kind, inner }
        }
    };
    let value = Boxed::new(alloc, tree)?;
    Ok(TStmt::Return { value: Some(value) })
}

/// The test of a `for`, if it is there.
fn make_test(
    alloc: Global,
    scope: Scope,
    tables: &StatementTables,
    test: &Option<Boxed<Expr>>,
) -> Result<Option<Boxed<TExpr>>, NoMemory>
    requires { AreTables scope.names.now tables.now }
    ensures { IfOk result (λ made. made
        ≡ option_map (expression_of (scope_in scope.entry) (order_of tables.now)) test.now) }
{
    match test {
        None => Ok(None),
        Some(e) => {
            let made = make_expression(alloc, scope, &tables.trees, e.get())?;
            let test = Boxed::new(alloc, made.tree)?;
            Ok(Some(test))
        }
    }
}

/// What stands between the parentheses of a `for`.
#[derive(Drop)]
struct Head {
    /// The first part.
    init: Option<Boxed<TStmt>>,
    /// The test.
    test: Option<Boxed<TExpr>>,
    /// The third part.
    step: Option<Boxed<TStmt>>,
}

/// The first and the third part of a `for`, and their formats.
fn make_ends(
    alloc: Global,
    scope: Scope,
    tables: &StatementTables,
    formats: &mut Vec<Format>,
    init: &Option<Boxed<Expr>>,
    step: &Option<Boxed<Expr>>,
) -> Result<(Option<Boxed<TStmt>>, Option<Boxed<TStmt>>), NoMemory>
    requires tables { AreTables scope.names.now tables.now }
    requires room { let s = scope_in scope in
        length ((formats.old.items ++ formats_of_part s init.now) ++ formats_of_part s step.now) < 2 ^ 32 }
    ensures init { IfOk result (λ ends. ends.0
        ≡ part_in (scope_in scope.entry) (order_of tables.now) (length formats.old.items) init.now) }
    ensures step { IfOk result (λ ends. ends.1 ≡ part_in (scope_in scope.entry) (order_of tables.now)
        (length (formats.old.items ++ formats_of_part (scope_in scope.entry) init.now)) step.now) }
    ensures formats { let s = scope_in scope.entry in OnOk result (formats.new.items
        ≡ (formats.old.items ++ formats_of_part s init.now) ++ formats_of_part s step.now) }
{
    let init = make_part(alloc, scope, tables, formats, init)?;
    let step = make_part(alloc, scope, tables, formats, step)?;
    Ok((init, step))
}

/// What stands between the parentheses of a `for`, and its formats.
fn make_head(
    alloc: Global,
    scope: Scope,
    tables: &StatementTables,
    formats: &mut Vec<Format>,
    init: &Option<Boxed<Expr>>,
    test: &Option<Boxed<Expr>>,
    step: &Option<Boxed<Expr>>,
) -> Result<Head, NoMemory>
    requires tables { AreTables scope.names.now tables.now }
    requires room { let s = scope_in scope in
        length ((formats.old.items ++ formats_of_part s init.now) ++ formats_of_part s step.now) < 2 ^ 32 }
    ensures init { IfOk result (λ head. head.init
        ≡ part_in (scope_in scope.entry) (order_of tables.now) (length formats.old.items) init.now) }
    ensures test { IfOk result (λ head. head.test
        ≡ option_map (expression_of (scope_in scope.entry) (order_of tables.now)) test.now) }
    ensures step { IfOk result (λ head. head.step ≡ part_in (scope_in scope.entry) (order_of tables.now)
        (length (formats.old.items ++ formats_of_part (scope_in scope.entry) init.now)) step.now) }
    ensures formats { let s = scope_in scope.entry in OnOk result (formats.new.items
        ≡ (formats.old.items ++ formats_of_part s init.now) ++ formats_of_part s step.now) }
{
    let test = make_test(alloc, scope, tables, test)?;
    let (init, step) = make_ends(alloc, scope, tables, formats, init, step)?;
    Ok(Head { init, test, step })
}

/// A `for` of its head and of a body that is made.
fn for_with(alloc: Global, head: Head, body: TStmt) -> Result<TStmt, NoMemory>
    ensures { IfOk result (λ tree. tree ≡ For head.init head.test head.step body) }
{
    let body = Boxed::new(alloc, body)?;
    Ok(TStmt::For {
        init: head.init,
        test: head.test,
        step: head.step,
        body,
    })
}

/// A `while` of its test and of a body that is made.
fn while_with(
    alloc: Global,
    scope: Scope,
    tables: &StatementTables,
    test: &Expr,
    body: TStmt,
) -> Result<TStmt, NoMemory>
    requires { AreTables scope.names.now tables.now }
    ensures { IfOk result (λ tree.
        tree ≡ While (expression_of (scope_in scope.entry) (order_of tables.now) test.now) body) }
{
    let body = Boxed::new(alloc, body)?;
    let made = make_expression(alloc, scope, &tables.trees, test)?;
    let test = Boxed::new(alloc, made.tree)?;
    Ok(TStmt::While { test, body })
}

/// A `do` of a body that is made and of its test.
fn do_with(
    alloc: Global,
    scope: Scope,
    tables: &StatementTables,
    body: TStmt,
    test: &Expr,
) -> Result<TStmt, NoMemory>
    requires { AreTables scope.names.now tables.now }
    ensures { IfOk result (λ tree.
        tree ≡ Do body (expression_of (scope_in scope.entry) (order_of tables.now) test.now)) }
{
    let body = Boxed::new(alloc, body)?;
    let made = make_expression(alloc, scope, &tables.trees, test)?;
    Ok(TStmt::Do {
        body,
        test: made.tree,
    })
}

/// An `if` of arms and of what stands behind its last `else`, both of which are made.
fn with_else(alloc: Global, arms: Items<TArm>, other: TStmt) -> Result<TStmt, NoMemory>
    ensures { IfOk result (λ tree. tree ≡ If arms (Some other)) }
{
    let boxed = Boxed::new(alloc, other)?;
    Ok(TStmt::If {
        arms,
        other: Some(boxed),
    })
}

/// A `switch` of its value and of groups that are made.
fn switch_with(alloc: Global, on: TExpr, groups: Items<TGroup>) -> Result<TStmt, NoMemory>
    ensures { IfOk result (λ tree. tree ≡ Switch on groups) }
{
    let on = Boxed::new(alloc, on)?;
    Ok(TStmt::Switch { on, groups })
}

/// Appends a group of a `switch`, of its labels in a kind and of a body that is made.
fn push_group(
    alloc: Global,
    scope: Scope,
    tables: &StatementTables,
    kind: Kind,
    labels: &[Label],
    body: Items<TStmt>,
    into: &mut Vec<TGroup>,
) -> Result<(), NoMemory>
    requires { AreTables scope.names.now tables.now }
    ensures { OnOk result (into.new.items ≡ into.old.items ++ record {
      labels = filter_map (λ label. label_of (scope_in scope.entry) kind label.at label.value) labels.now;
      body = body;
    } ∷ []) }
{
    let labels = make_labels(alloc, scope, tables, kind, labels)?;
    into.push(TGroup { labels, body })?;
    Ok(())
}

/// The typed tree of a statement where a part of the program stands. Appends the formats of the lines
/// that it writes, in the order of the source.
#[tactic(auto, using(crate::proofs::MadeLemmas::form))]
#[cycle(statement)]
pub fn make_statement(
    alloc: Global,
    scope: Scope,
    tables: &StatementTables,
    formats: &mut Vec<Format>,
    s: &Stmt,
) -> Result<TStmt, NoMemory>
    requires tables { AreTables scope.names.now tables.now }
    requires room { length (formats.old.items ++ formats_of (scope_in scope) s.now) < 2 ^ 32 }
    ensures tree { IfOk result (λ tree. tree ≡ statement_of (scope_in scope.entry) (order_of tables.now)
        (length formats.old.items) s.now) }
    ensures formats { OnOk result
        (formats.new.items ≡ formats.old.items ++ formats_of (scope_in scope.entry) s.now) }
{
    match s {
        Stmt::Empty | Stmt::Decl(_) => Ok(TStmt::Empty),
        Stmt::Block(body) => {
            let body = make_body(alloc, scope, tables, formats, body.as_slice())?;
            Ok(TStmt::Block(body))
        }
        Stmt::Expr(e) => make_alone(alloc, scope, tables, formats, e),
        Stmt::If { arms, other } => {
            let arms = make_arms(alloc, scope, tables, formats, arms.as_slice())?;
            make_if(alloc, scope, tables, formats, other, arms)
        }
        Stmt::While { test, body } => {
            make_while(alloc, scope, tables, formats, body.get(), test)
        }
        Stmt::Do { body, test } => make_do(alloc, scope, tables, formats, body.get(), test),
        Stmt::For {
            init,
            test,
            step,
            body,
        } => make_for(alloc, scope, tables, formats, body.get(), init, test, step),
        Stmt::Switch { on, groups } => make_switch(
            alloc,
            scope,
            tables,
            formats,
            groups.as_slice(),
            on.get(),
        ),
        Stmt::Break { .. } => Ok(TStmt::Break),
        Stmt::Continue { .. } => Ok(TStmt::Continue),
        Stmt::Return { value, .. } => make_return(alloc, scope, tables, value),
    }
}

/// The typed tree of a `while`, and its formats.
#[cycle(statement)]
fn make_while(
    alloc: Global,
    scope: Scope,
    tables: &StatementTables,
    formats: &mut Vec<Format>,
    body: &Stmt,
    test: &Expr,
) -> Result<TStmt, NoMemory>
    requires tables { AreTables scope.names.now tables.now }
    requires room { length (formats.old.items ++ formats_of (scope_in scope) body.now) < 2 ^ 32 }
    ensures tree { let s = scope_in scope.entry in IfOk result (λ tree.
        tree ≡ While (expression_of s (order_of tables.now) test.now)
        (statement_of s (order_of tables.now) (length formats.old.items) body.now)) }
    ensures formats { OnOk result
        (formats.new.items ≡ formats.old.items ++ formats_of (scope_in scope.entry) body.now) }
{
    let made = make_statement(alloc, scope, tables, formats, body)?;
    while_with(alloc, scope, tables, test, made)
}

/// The typed tree of a `do`, and its formats.
#[cycle(statement)]
fn make_do(
    alloc: Global,
    scope: Scope,
    tables: &StatementTables,
    formats: &mut Vec<Format>,
    body: &Stmt,
    test: &Expr,
) -> Result<TStmt, NoMemory>
    requires tables { AreTables scope.names.now tables.now }
    requires room { length (formats.old.items ++ formats_of (scope_in scope) body.now) < 2 ^ 32 }
    ensures tree { let s = scope_in scope.entry in IfOk result (λ tree.
        tree ≡ Do (statement_of s (order_of tables.now) (length formats.old.items) body.now)
        (expression_of s (order_of tables.now) test.now)) }
    ensures formats { OnOk result
        (formats.new.items ≡ formats.old.items ++ formats_of (scope_in scope.entry) body.now) }
{
    let made = make_statement(alloc, scope, tables, formats, body)?;
    do_with(alloc, scope, tables, made, test)
}

/// The typed tree of a `for`, and its formats.
#[cycle(statement)]
fn make_for(
    alloc: Global,
    scope: Scope,
    tables: &StatementTables,
    formats: &mut Vec<Format>,
    body: &Stmt,
    init: &Option<Boxed<Expr>>,
    test: &Option<Boxed<Expr>>,
    step: &Option<Boxed<Expr>>,
) -> Result<TStmt, NoMemory>
    requires tables { AreTables scope.names.now tables.now }
    requires room { length (formats.old.items
        ++ formats_of (scope_in scope) (stmt.For init.now test.now step.now body.now)) < 2 ^ 32 }
    ensures tree { IfOk result (λ tree. tree ≡ statement_of (scope_in scope.entry) (order_of tables.now)
        (length formats.old.items) (stmt.For init.now test.now step.now body.now)) }
    ensures formats { OnOk result (formats.new.items ≡ formats.old.items
        ++ formats_of (scope_in scope.entry) (stmt.For init.now test.now step.now body.now)) }
{
    let head = make_head(alloc, scope, tables, formats, init, test, step)?;
    let made = make_statement(alloc, scope, tables, formats, body)?;
    for_with(alloc, head, made)
}

/// The typed tree of a `switch`, and its formats.
#[cycle(statement)]
fn make_switch(
    alloc: Global,
    scope: Scope,
    tables: &StatementTables,
    formats: &mut Vec<Format>,
    groups: &[Group],
    on: &Expr,
) -> Result<TStmt, NoMemory>
    requires tables { AreTables scope.names.now tables.now }
    requires room { length (formats.old.items ++ formats_in_groups (scope_in scope) groups.now) < 2 ^ 32 }
    ensures tree { let s = scope_in scope.entry in IfOk result (λ tree.
        tree ≡ Switch (Convert (prefix_kind s on.now) (expression_of s (order_of tables.now) on.now))
        (groups_in s (order_of tables.now) (prefix_kind s on.now) (length formats.old.items) groups.now)) }
    ensures formats { OnOk result
        (formats.new.items ≡ formats.old.items ++ formats_in_groups (scope_in scope.entry) groups.now) }
{
    let (on, kind) = make_value(alloc, scope, tables, on)?;
    let groups = make_groups(alloc, scope, tables, formats, kind, groups)?;
    switch_with(alloc, on, groups)
}

/// The typed trees of statements one after another, and their formats.
#[cycle(statement)]
pub fn make_body(
    alloc: Global,
    scope: Scope,
    tables: &StatementTables,
    formats: &mut Vec<Format>,
    statements: &[Stmt],
) -> Result<Items<TStmt>, NoMemory>
    requires tables { AreTables scope.names.now tables.now }
    requires room { length (formats.old.items ++ formats_of_body (scope_in scope) statements.now) < 2 ^ 32 }
    ensures trees { IfOk result (λ made. made ≡ body_of (scope_in scope.entry) (order_of tables.now)
        (length formats.old.items) statements.now) }
    ensures formats { OnOk result
        (formats.new.items ≡ formats.old.items ++ formats_of_body (scope_in scope.entry) statements.now) }
{
    let mut made = Vec::with_capacity(alloc, statements.len())?;
    for statement in statements {
        let tree = make_statement(alloc, scope, tables, formats, statement)?;
        made.push(tree)?;
    }
    Ok(Items::from_list(made))
}

/// The arms of an `if`, and their formats.
#[cycle(statement)]
fn make_arms(
    alloc: Global,
    scope: Scope,
    tables: &StatementTables,
    formats: &mut Vec<Format>,
    arms: &[Arm],
) -> Result<Items<TArm>, NoMemory>
    requires tables { AreTables scope.names.now tables.now }
    requires room { length (formats.old.items ++ formats_in_arms (scope_in scope) arms.now) < 2 ^ 32 }
    ensures trees { IfOk result (λ made. made ≡ arms_in (scope_in scope.entry) (order_of tables.now)
        (length formats.old.items) arms.now) }
    ensures formats { OnOk result
        (formats.new.items ≡ formats.old.items ++ formats_in_arms (scope_in scope.entry) arms.now) }
{
    let mut made = Vec::with_capacity(alloc, arms.len())?;
    for arm in arms {
        let tree = make_arm(alloc, scope, tables, formats, arm)?;
        made.push(tree)?;
    }
    Ok(Items::from_list(made))
}

/// An arm of an `if`, and the formats of its body.
#[cycle(statement)]
fn make_arm(
    alloc: Global,
    scope: Scope,
    tables: &StatementTables,
    formats: &mut Vec<Format>,
    arm: &Arm,
) -> Result<TArm, NoMemory>
    requires tables { AreTables scope.names.now tables.now }
    requires room { length (formats.old.items ++ formats_of (scope_in scope) arm.now.body) < 2 ^ 32 }
    ensures test { IfOk result (λ made.
        made.test ≡ expression_of (scope_in scope.entry) (order_of tables.now) arm.now.test) }
    ensures body { IfOk result (λ made. made.body ≡ statement_of (scope_in scope.entry) (order_of tables.now)
        (length formats.old.items) arm.now.body) }
    ensures formats { OnOk result
        (formats.new.items ≡ formats.old.items ++ formats_of (scope_in scope.entry) arm.now.body) }
{
    let made = make_expression(alloc, scope, &tables.trees, &arm.test)?;
    let body = make_statement(alloc, scope, tables, formats, &arm.body)?;
    Ok(TArm {
        test: made.tree,
        body,
    })
}

/// An `if` of arms that are made and of what stands behind its last `else`, and the formats of that.
#[cycle(statement)]
fn make_if(
    alloc: Global,
    scope: Scope,
    tables: &StatementTables,
    formats: &mut Vec<Format>,
    other: &Option<Boxed<Stmt>>,
    arms: Items<TArm>,
) -> Result<TStmt, NoMemory>
    requires tables { AreTables scope.names.now tables.now }
    requires room { length (formats.old.items ++ formats_in_else (scope_in scope) other.now) < 2 ^ 32 }
    ensures tree { IfOk result (λ tree. tree ≡ If arms (else_in (scope_in scope.entry) (order_of tables.now)
        (length formats.old.items) other.now)) }
    ensures formats { OnOk result
        (formats.new.items ≡ formats.old.items ++ formats_in_else (scope_in scope.entry) other.now) }
{
    let Some(body) = other else {
        return Ok(TStmt::If { arms, other: None });
    };
    let other = make_statement(alloc, scope, tables, formats, body.get())?;
    with_else(alloc, arms, other)
}

/// The groups of a `switch` with their labels in a kind, and their formats.
#[cycle(statement)]
fn make_groups(
    alloc: Global,
    scope: Scope,
    tables: &StatementTables,
    formats: &mut Vec<Format>,
    kind: Kind,
    groups: &[Group],
) -> Result<Items<TGroup>, NoMemory>
    requires tables { AreTables scope.names.now tables.now }
    requires room { length (formats.old.items ++ formats_in_groups (scope_in scope) groups.now) < 2 ^ 32 }
    ensures trees { IfOk result (λ made. made ≡ groups_in (scope_in scope.entry) (order_of tables.now) kind
        (length formats.old.items) groups.now) }
    ensures formats { OnOk result
        (formats.new.items ≡ formats.old.items ++ formats_in_groups (scope_in scope.entry) groups.now) }
{
    let mut made = Vec::with_capacity(alloc, groups.len())?;
    for group in groups {
        let body = make_body(alloc, scope, tables, formats, group.body.as_slice())?;
        push_group(
            alloc,
            scope,
            tables,
            kind,
            group.labels.as_slice(),
            body,
            &mut made,
        )?;
    }
    Ok(Items::from_list(made))
}
