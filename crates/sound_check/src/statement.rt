// Whether statements are sound.

ghost use Rattle.std.specs.Prelude.{◌≡◌, ◌↔◌, ◌≢◌, ◌<◌, ◌^◌, All, AllPairs, IfOk, IfSome, IsSomeAnd, IsTrue, flat_map, length, slice_get};
ghost use Rattle.std.specs.List.{AllByRecursion};
ghost use Rattle.std.specs.List.Sorted.{IsSorted};
ghost use Rattle.std.specs.Option.{option_cmp};
ghost use Rattle.std.specs.Ordering.{int_cmp};
ghost use Rattle.int_kinds.specs.Kind.{IsNumber};
ghost use Rattle.write_format.specs.Line.{numbers_taken};
ghost use Rattle.typed_tree.specs.SoundExpression.{IsSoundExpr};
ghost use Rattle.typed_tree.specs.SoundStatement.{IsPlainStmt, IsSoundOption, IsSoundStmt};
ghost use Rattle.sound_check.specs.Around.{around_of};
ghost use Rattle.sound_check.specs.Rows.{AreFew, IsPlainPartOf, IsSoundArm, IsSoundGroup, IsSoundPartOf, KeepsLabels};

use crate::around::Around;
use crate::expression::{are_sound_exprs, is_sound_alone, is_sound_expr};
use int_kinds::is_number;
use items::Boxed;
use message_cells::is_message;
use std::alloc::Global;
use texts::NoMemory;
use typed_tree::{TArm, TExpr, TGroup, TStmt, Typed};

/// How many items a list may have.
const MOST: usize = u32::MAX as usize;

/// Whether a statement may be the first or the third part of a `for`.
fn is_plain_stmt(s: &TStmt) -> bool
    ensures { IsTrue result ↔ IsPlainStmt s.now }
{
    match s {
        TStmt::Eval(_)
        | TStmt::Write { .. }
        | TStmt::Send { .. }
        | TStmt::Copy { .. }
        | TStmt::Halt
        | TStmt::Set { .. }
        | TStmt::Cancel { .. } => true,
        TStmt::Empty
        | TStmt::Block(_)
        | TStmt::If { .. }
        | TStmt::While { .. }
        | TStmt::Do { .. }
        | TStmt::For { .. }
        | TStmt::Switch { .. }
        | TStmt::Break
        | TStmt::Continue
        | TStmt::Return { .. } => false,
    }
}

/// Whether a part of a `for` that may be missing is such a statement.
fn is_plain_part(part: &Option<Boxed<TStmt>>) -> bool
    ensures { IsTrue result ↔ IsPlainPartOf part.now }
{
    match part {
        None => true,
        Some(part) => is_plain_stmt(part.get()),
    }
}

/// Whether an expression that may be missing is sound.
fn is_sound_option(value: &Option<Boxed<TExpr>>, typed: &Typed, number: usize) -> bool
    ensures { IsTrue result ↔ IsSoundOption typed.now number value.now }
{
    match value {
        None => true,
        Some(e) => is_sound_expr(e.get(), typed, number),
    }
}

/// Whether there is a format of a number, and it takes so many numbers.
fn takes(format: u32, count: usize, typed: &Typed) -> bool
    ensures { IsTrue result ↔ IsSomeAnd (slice_get typed.now.formats format)
        (λ format. count ≡ numbers_taken format) }
{
    match typed.formats.as_slice().get(format as usize) {
        Some(format) => count == format.numbers_taken(),
        None => false,
    }
}

/// All labels of groups.
fn labels_of(alloc: Global, groups: &[TGroup]) -> Result<Vec<Option<i128>>, NoMemory>
    ensures { IfOk result (λ labels. labels.items ≡ flat_map (λ group. group.labels) groups.now) }
{
    let mut labels = Vec::new(alloc);
    for group in groups {
        labels.extend_from_slice(group.labels.as_slice())?;
    }
    Ok(labels)
}

/// Whether a label is from -2^63 to 2^64 - 1 or `default`.
fn is_in_range(label: &Option<i128>) -> bool
    ensures { IsTrue result ↔ IfSome label.now IsNumber }
{
    match label {
        None => true,
        Some(n) => is_number(*n),
    }
}

/// Whether all labels are in range.
fn are_in_range(labels: &[Option<i128>]) -> bool
    ensures { IsTrue result ↔ All (λ label. IfSome label IsNumber) labels.now }
{
    labels.iter().all(is_in_range)
}

/// Whether no two labels are the same. Takes the time of a sort.
fn labels_differ(mut labels: Vec<Option<i128>>) -> bool
    ensures { IsTrue result ↔ AllPairs (λ a b. a ≢ b) labels.items }
{
    labels.sort_unstable();
    neighbours_differ(&labels)
}

/// Whether each label differs from the one before it, where the labels stand in their order.
fn neighbours_differ(labels: &[Option<i128>]) -> bool
    requires { IsSorted (option_cmp int_cmp) labels.now }
    ensures { IsTrue result ↔ AllPairs (λ a b. a ≢ b) labels.now }
{
    for i in 1..labels.len() {
        if labels[i - 1] == labels[i] {
            return false;
        }
    }
    true
}

/// Whether the labels of groups are in range, and no two are the same.
fn keeps_labels(alloc: Global, groups: &[TGroup]) -> Result<bool, NoMemory>
    ensures { IfOk result (λ keeps. IsTrue keeps ↔ KeepsLabels groups.now) }
{
    let labels = labels_of(alloc, groups)?;
    let in_range = are_in_range(&labels);
    Ok(labels_differ(labels) && in_range)
}

/// Whether there are fewer than 2^32 groups, each of fewer than 2^32 labels.
fn are_few(groups: &[TGroup]) -> bool
    ensures { IsTrue result ↔ AreFew groups.now }
{
    groups.len() <= MOST && groups.iter().all(|group| group.labels.len() <= MOST)
}

/// Whether the value of a `switch` is sound, the labels of its groups keep their rules, and the groups and
/// their labels are few.
fn keeps_switch(
    alloc: Global,
    on: &Boxed<TExpr>,
    groups: &[TGroup],
    typed: &Typed,
    number: usize,
) -> Result<bool, NoMemory>
    ensures { IfOk result (λ keeps. IsTrue keeps
        ↔ (KeepsLabels groups.now × AreFew groups.now × IsSoundExpr typed.now number on.now)) }
{
    let labels_kept = keeps_labels(alloc, groups)?;
    Ok(labels_kept && are_few(groups) && is_sound_expr(on.get(), typed, number))
}

/// Whether a statement is sound where it stands, with all in it. Takes time linear in the statement, but
/// for a sort of the labels of each `switch`.
#[cycle(statement)]
#[tactic(auto, using(crate::proofs::By::held), unfolding(crate::proofs::By::stmts, crate::proofs::By::row))]
pub(crate) fn is_sound_stmt(
    alloc: Global,
    s: &TStmt,
    typed: &Typed,
    around: Around,
) -> Result<bool, NoMemory>
    ensures { IfOk result (λ sound. IsTrue sound ↔ IsSoundStmt typed.now (around_of around) s.now) }
{
    let kinds = typed.cells.as_slice();
    let number = around.number;
    match s {
        TStmt::Empty | TStmt::Halt => Ok(true),
        TStmt::Block(all) => {
            let sound = are_sound_stmts(alloc, all.as_slice(), typed, around)?;
            Ok(sound && all.len() <= MOST)
        }
        TStmt::If { arms, other } => {
            let arms_sound = are_sound_arms(alloc, arms.as_slice(), typed, around)?;
            let other_sound = is_sound_part(alloc, other, typed, around)?;
            Ok(arms_sound && other_sound && arms.len() <= MOST)
        }
        TStmt::While { test, body } => {
            let sound = is_sound_stmt(alloc, body.get(), typed, around.in_loop())?;
            Ok(is_sound_expr(test.get(), typed, number) && sound)
        }
        TStmt::Do { body, test } => {
            let sound = is_sound_stmt(alloc, body.get(), typed, around.in_loop())?;
            Ok(sound && is_sound_expr(test, typed, number))
        }
        TStmt::For {
            init,
            test,
            step,
            body,
        } => {
            let init_sound = is_sound_part(alloc, init, typed, around)?;
            let step_sound = is_sound_part(alloc, step, typed, around)?;
            let body_sound = is_sound_stmt(alloc, body.get(), typed, around.in_loop())?;
            let parts_sound = is_plain_part(init)
                && is_plain_part(step)
                && init_sound
                && step_sound;
            Ok(parts_sound && is_sound_option(test, typed, number) && body_sound)
        }
        TStmt::Switch { on, groups } => {
            let groups = groups.as_slice();
            let groups_sound = are_sound_groups(alloc, groups, typed, around.in_switch())?;
            let kept = keeps_switch(alloc, on, groups, typed, number)?;
            Ok(kept && groups_sound)
        }
        TStmt::Break => Ok(around.breakable),
        TStmt::Continue => Ok(around.continuable),
        TStmt::Return { value } => {
            Ok(value.is_some() == around.gives && is_sound_option(value, typed, number))
        }
        TStmt::Eval(e) => Ok(is_sound_alone(e, typed, number)),
        TStmt::Write { format, args } => {
            let args = args.as_slice();
            let args_taken = takes(*format, args.len(), typed);
            let args_sound = are_sound_exprs(args, typed, number);
            Ok(args_taken && args_sound && args.len() <= MOST)
        }
        TStmt::Send { msg } => Ok(is_message(kinds, *msg)),
        TStmt::Copy { to, from } => Ok(is_message(kinds, *to) && is_message(kinds, *from)),
        TStmt::Set { timer, value, .. } => {
            Ok((*timer as usize) < typed.timers.len() && is_sound_expr(value, typed, number))
        }
        TStmt::Cancel { timer } => Ok((*timer as usize) < typed.timers.len()),
    }
}

/// Whether statements in a row are sound where they stand.
#[cycle(statement)]
pub(crate) fn are_sound_stmts(
    alloc: Global,
    all: &[TStmt],
    typed: &Typed,
    around: Around,
) -> Result<bool, NoMemory>
    ensures { IfOk result (λ sound.
        IsTrue sound ↔ AllByRecursion (IsSoundStmt typed.now (around_of around)) all.now) }
{
    for s in all {
        if !is_sound_stmt(alloc, s, typed, around)? {
            return Ok(false);
        }
    }
    Ok(true)
}

/// Whether the arms of an `if` are sound where it stands.
#[cycle(statement)]
fn are_sound_arms(
    alloc: Global,
    arms: &[TArm],
    typed: &Typed,
    around: Around,
) -> Result<bool, NoMemory>
    ensures { IfOk result (λ sound.
        IsTrue sound ↔ AllByRecursion (IsSoundArm typed.now (around_of around)) arms.now) }
{
    for arm in arms {
        let sound = is_sound_stmt(alloc, &arm.body, typed, around)?;
        if !sound || !is_sound_expr(&arm.test, typed, around.number) {
            return Ok(false);
        }
    }
    Ok(true)
}

/// Whether a part that may be missing is sound where it stands.
#[cycle(statement)]
fn is_sound_part(
    alloc: Global,
    part: &Option<Boxed<TStmt>>,
    typed: &Typed,
    around: Around,
) -> Result<bool, NoMemory>
    ensures { IfOk result (λ sound.
        IsTrue sound ↔ IsSoundPartOf typed.now (around_of around) part.now) }
{
    match part {
        None => Ok(true),
        Some(part) => is_sound_stmt(alloc, part.get(), typed, around),
    }
}

/// Whether the groups of a `switch` are sound where they stand.
#[cycle(statement)]
fn are_sound_groups(
    alloc: Global,
    groups: &[TGroup],
    typed: &Typed,
    around: Around,
) -> Result<bool, NoMemory>
    ensures { IfOk result (λ sound.
        IsTrue sound ↔ AllByRecursion (IsSoundGroup typed.now (around_of around)) groups.now) }
{
    for group in groups {
        let sound = are_sound_stmts(alloc, group.body.as_slice(), typed, around)?;
        if !sound || group.body.len() > MOST {
            return Ok(false);
        }
    }
    Ok(true)
}
