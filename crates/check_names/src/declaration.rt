// The declarations in statements.

ghost use Rattle.std.specs.Prelude.{◌≡◌, ◌++◌, OnOk};
ghost use Rattle.capl_meaning.specs.Variable.{declarations_in};
ghost use Rattle.check_names.specs.Variable.{in_all, in_arms, in_else, in_groups, lent};

use capl_tree::{Arm, Decl, Group, Stmt};
use items::Boxed;
use texts::NoMemory;

/// Appends the declarations in a statement.
#[tactic(auto, using(crate::proofs::DeclarationLemmas::form))]
#[cycle(statement)]
fn gather<'p>(statement: &'p Stmt, into: &mut Vec<&'p Decl>) -> Result<(), NoMemory>
    ensures { OnOk result (lent into.new.items ≡ lent into.old.items ++ declarations_in statement.now) }
{
    match statement {
        Stmt::Decl(decl) => Ok(into.push(decl)?),
        Stmt::Block(body) => gather_all(body.as_slice(), into),
        Stmt::If { arms, other } => {
            gather_in_arms(arms.as_slice(), into)?;
            gather_in_else(other, into)
        }
        Stmt::While { body, .. } => gather(body.get(), into),
        Stmt::Do { body, .. } => gather(body.get(), into),
        Stmt::For { body, .. } => gather(body.get(), into),
        Stmt::Switch { groups, .. } => gather_in_groups(groups.as_slice(), into),
        Stmt::Empty
        | Stmt::Expr(_)
        | Stmt::Break { .. }
        | Stmt::Continue { .. }
        | Stmt::Return { .. } => Ok(()),
    }
}

/// Appends the declarations in statements.
#[cycle(statement)]
pub(crate) fn gather_all<'p>(
    statements: &'p [Stmt],
    into: &mut Vec<&'p Decl>,
) -> Result<(), NoMemory>
    ensures { OnOk result (lent into.new.items ≡ lent into.old.items ++ in_all statements.now) }
{
    for statement in statements {
        gather(statement, into)?;
    }
    Ok(())
}

/// Appends the declarations in the arms of an `if`.
#[cycle(statement)]
fn gather_in_arms<'p>(arms: &'p [Arm], into: &mut Vec<&'p Decl>) -> Result<(), NoMemory>
    ensures { OnOk result (lent into.new.items ≡ lent into.old.items ++ in_arms arms.now) }
{
    for arm in arms {
        gather(&arm.body, into)?;
    }
    Ok(())
}

/// Appends the declarations behind a last `else`.
#[cycle(statement)]
fn gather_in_else<'p>(
    other: &'p Option<Boxed<Stmt>>,
    into: &mut Vec<&'p Decl>,
) -> Result<(), NoMemory>
    ensures { OnOk result (lent into.new.items ≡ lent into.old.items ++ in_else other.now) }
{
    if let Some(body) = other {
        gather(body.get(), into)?;
    }
    Ok(())
}

/// Appends the declarations in the groups of a `switch`.
#[cycle(statement)]
fn gather_in_groups<'p>(groups: &'p [Group], into: &mut Vec<&'p Decl>) -> Result<(), NoMemory>
    ensures { OnOk result (lent into.new.items ≡ lent into.old.items ++ in_groups groups.now) }
{
    for group in groups {
        gather_all(group.body.as_slice(), into)?;
    }
    Ok(())
}
