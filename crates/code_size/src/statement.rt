// How many instructions the code of a statement has.

ghost use Rattle.std.specs.Prelude.{◌≡◌, ◌≤◌, ◌+◌, ◌-◌, ◌^◌, ◌++◌, if◌then◌else◌, count_by, is_some, length, min, sum, sum_by, take, true, IfOk, OnOk};
ghost use Rattle.typed_tree.specs.Shape.{body_goes_on, goes_on};
ghost use Rattle.typed_tree.specs.Size.{for_test_size, jump_size, returned_size, stmt_size};
ghost use Rattle.code_size.specs.Notes.{all_notes, arms_notes_of, group_notes, groups_notes_of, inside_notes, notes_of, part_notes_of, switch_notes_of};
ghost use Rattle.code_size.specs.Rows.{arms_go_on_of, arms_size_of, before_default, case_count_of, group_sizes_of, kept_if, labels_of_groups, part_goes_on_of, part_size_of, switch_size_of};

use crate::expression::{dropped_size, test_size, value_size, values_size};
use crate::extent::{Extent, ending, going_on, joined};
use crate::flow::{has_default, kept_len};
use crate::shape::leaves_number;
use items::Boxed;
use texts::NoMemory;
use typed_tree::{TArm, TExpr, TGroup, TStmt, Typed};

/// The size of a jump over so many instructions: there is none over nothing.
fn jump_size(over: u64) -> u64
    ensures { result ≡ jump_size over }
{
    u64::from(over != 0)
}

/// The size of a loop's body and test, where a jump to the test stands before the body.
fn loop_size(body: u64, test: u64) -> u64
    ensures { result ≡ min (jump_size body + (body + test)) (2 ^ 64 - 1) }
{
    jump_size(body).saturating_add(body).saturating_add(test)
}

/// The size of a `for` whose parts have these sizes, or 2^64 - 1 where it has more.
fn turns_size(init: u64, test: u64, step: u64, body: u64) -> u64
    ensures { result ≡ min (init + (jump_size (body + step) + (body + step + test))) (2 ^ 64 - 1) }
{
    init.saturating_add(loop_size(body.saturating_add(step), test))
}

/// The size of the expression of a `return`.
fn returned_size(value: &Option<Boxed<TExpr>>, typed: &Typed) -> u64
    ensures { result ≡ min (returned_size typed.now value.now) (2 ^ 64 - 1) }
{
    match value {
        None => 0,
        Some(e) => value_size(e.get(), typed),
    }
}

/// The size of the test of a `for`, or 2^64 - 1 where it has more.
fn for_test_size(test: &Option<Boxed<TExpr>>, typed: &Typed) -> u64
    ensures { result ≡ min (for_test_size typed.now test.now) (2 ^ 64 - 1) }
{
    match test {
        None => 2,
        Some(e) => test_size(e.get(), typed, true, true),
    }
}

/// Notes the extents of statements in a row and of all that is in them, and gives that of all together.
/// What is asked for first when code is made of them stands last. Takes time and memory linear in the
/// statements.
///
/// After an error, what was noted is a beginning of the notes.
pub fn note_statements(
    all: &[TStmt],
    typed: &Typed,
    notes: &mut Vec<Extent>,
) -> Result<Extent, NoMemory>
    ensures size { IfOk result
        (λ extent. extent.size ≡ min (sum_by (stmt_size typed.now) all.now) (2 ^ 64 - 1)) }
    ensures goes_on { IfOk result (λ extent. extent.goes_on ≡ body_goes_on true all.now) }
    ensures noted { OnOk result (notes.new.items ≡ notes.old.items ++ all_notes typed.now all.now) }
{
    let extent = note_first(all, all.len(), typed, notes)?;
    Ok(extent)
}

/// Notes a statement, and gives its extent.
#[cycle(sizes)]
fn note_stmt(s: &TStmt, typed: &Typed, notes: &mut Vec<Extent>) -> Result<Extent, NoMemory>
    ensures size { IfOk result (λ extent. extent.size ≡ min (stmt_size typed.now s.now) (2 ^ 64 - 1)) }
    ensures goes_on { IfOk result (λ extent. extent.goes_on ≡ goes_on s.now) }
    ensures noted { OnOk result (notes.new.items ≡ notes.old.items ++ notes_of typed.now s.now) }
{
    let extent = note_inside(s, typed, notes)?;
    notes.push(extent)?;
    Ok(extent)
}

/// Notes what is in a statement, and gives the statement's extent. Size and end are found in one walk,
/// since the size of an `if` asks of each arm whether it goes on.
#[cycle(sizes)]
#[tactic(auto, using(crate::proofs::By::form), unfolding(crate::proofs::By::tree, crate::proofs::By::row))]
fn note_inside(s: &TStmt, typed: &Typed, notes: &mut Vec<Extent>) -> Result<Extent, NoMemory>
    ensures size { IfOk result (λ extent. extent.size ≡ min (stmt_size typed.now s.now) (2 ^ 64 - 1)) }
    ensures goes_on { IfOk result (λ extent. extent.goes_on ≡ goes_on s.now) }
    ensures noted { OnOk result (notes.new.items ≡ notes.old.items ++ inside_notes typed.now s.now) }
{
    match s {
        TStmt::Block(all) => {
            let all = all.as_slice();
            let extent = note_first(all, all.len(), typed, notes)?;
            Ok(extent)
        }
        TStmt::If { arms, other } => {
            let other = note_part(other, typed, notes)?;
            let extent = note_arms(arms.as_slice(), other, typed, notes)?;
            Ok(extent)
        }
        TStmt::While { test, body } => {
            let body = note_stmt(body.get(), typed, notes)?;
            let test = test_size(test.get(), typed, true, true);
            Ok(going_on(loop_size(body.size, test)))
        }
        TStmt::Do { body, test } => {
            let body = note_stmt(body.get(), typed, notes)?;
            let test = test_size(test, typed, true, true);
            Ok(going_on(body.size.saturating_add(test).saturating_add(1)))
        }
        TStmt::For {
            init,
            test,
            step,
            body,
        } => {
            let step = note_part(step, typed, notes)?;
            let body = note_stmt(body.get(), typed, notes)?;
            let init = note_part(init, typed, notes)?;
            notes.push(going_on(step.size))?;
            let test = for_test_size(test, typed);
            Ok(going_on(turns_size(init.size, test, step.size, body.size)))
        }
        TStmt::Switch { on, groups } => {
            let behind = note_switch(groups.as_slice(), typed, notes)?;
            Ok(going_on(value_size(on.get(), typed).saturating_add(behind)))
        }
        TStmt::Return { value } => Ok(ending(returned_size(value, typed).saturating_add(1))),
        TStmt::Eval(e) => {
            let drop = u64::from(leaves_number(e, typed));
            Ok(going_on(dropped_size(e, typed).saturating_add(drop)))
        }
        TStmt::Write { args, .. } => {
            Ok(going_on(values_size(args.as_slice(), typed).saturating_add(1)))
        }
        TStmt::Set { value, .. } => Ok(going_on(value_size(value, typed).saturating_add(1))),
        TStmt::Empty => Ok(going_on(0)),
        TStmt::Break | TStmt::Continue => Ok(ending(1)),
        TStmt::Send { .. } | TStmt::Copy { .. } | TStmt::Halt | TStmt::Cancel { .. } => {
            Ok(going_on(1))
        }
    }
}

/// Notes so many statements, from the last to the first, and gives the extent of all together, of which the
/// last decides whether they go on.
#[cycle(sizes)]
fn note_first(
    all: &[TStmt],
    count: usize,
    typed: &Typed,
    notes: &mut Vec<Extent>,
) -> Result<Extent, NoMemory>
    requires { count ≤ length all.now }
    ensures size { IfOk result
        (λ extent. extent.size ≡ min (sum_by (stmt_size typed.now) (take count all.now)) (2 ^ 64 - 1)) }
    ensures goes_on { IfOk result (λ extent. extent.goes_on ≡ body_goes_on true (take count all.now)) }
    ensures noted { OnOk result
        (notes.new.items ≡ notes.old.items ++ all_notes typed.now (take count all.now)) }
{
    let mut whole = going_on(0);
    let mut left = count;
    while left > 0 {
        left -= 1;
        let s = note_stmt(&all[left], typed, notes)?;
        whole = joined(s, whole, left + 1 == count);
    }
    Ok(whole)
}

/// The size of the jump of an arm over what is behind it: there is none where the arm does not go on.
fn arm_jump_size(goes: bool, behind: u64) -> u64
    ensures { result ≡ (if goes then jump_size behind else 0) }
{
    if goes { jump_size(behind) } else { 0 }
}

/// Notes the arms of an `if`, and gives their extent with what stands behind them. Each arm jumps once,
/// over the rest, so they are counted from the last one on.
#[cycle(sizes)]
fn note_arms(
    arms: &[TArm],
    other: Extent,
    typed: &Typed,
    notes: &mut Vec<Extent>,
) -> Result<Extent, NoMemory>
    ensures size { IfOk result
        (λ extent. extent.size ≡ min (arms_size_of typed.now arms.now other.size) (2 ^ 64 - 1)) }
    ensures goes_on { IfOk result (λ extent. extent.goes_on ≡ arms_go_on_of arms.now other.goes_on) }
    ensures noted { OnOk result (notes.new.items ≡ notes.old.items ++ arms_notes_of typed.now arms.now) }
{
    let mut behind = other;
    let mut left = arms.len();
    while left > 0 {
        left -= 1;
        let arm = &arms[left];
        let body = note_stmt(&arm.body, typed, notes)?;
        behind = Extent {
            size: test_size(&arm.test, typed, false, false)
                .saturating_add(body.size)
                .saturating_add(arm_jump_size(body.goes_on, behind.size))
                .saturating_add(behind.size),
            goes_on: body.goes_on || behind.goes_on,
        };
    }
    Ok(behind)
}

/// Notes a part that may be missing, and gives its extent.
#[cycle(sizes)]
fn note_part(
    part: &Option<Boxed<TStmt>>,
    typed: &Typed,
    notes: &mut Vec<Extent>,
) -> Result<Extent, NoMemory>
    ensures size { IfOk result
        (λ extent. extent.size ≡ min (part_size_of typed.now part.now) (2 ^ 64 - 1)) }
    ensures goes_on { IfOk result (λ extent. extent.goes_on ≡ part_goes_on_of part.now) }
    ensures noted { OnOk result (notes.new.items ≡ notes.old.items ++ part_notes_of typed.now part.now) }
{
    match part {
        None => Ok(going_on(0)),
        Some(part) => {
            let extent = note_stmt(part.get(), typed, notes)?;
            Ok(extent)
        }
    }
}

/// How many `case` labels a group has.
fn cases_in(labels: &[Option<i128>]) -> u64
    ensures { result ≡ count_by is_some labels.now }
{
    labels.iter().filter(|label| label.is_some()).count() as u64
}

/// How many `case` labels groups have, or 2^64 - 1 where they have more.
pub fn case_count(groups: &[TGroup]) -> u64
    ensures { result ≡ min (case_count_of groups.now) (2 ^ 64 - 1) }
{
    let mut cases = 0u64;
    for group in groups {
        cases = cases.saturating_add(cases_in(group.labels.as_slice()));
    }
    cases
}

/// The sizes of the groups of a `switch`, each at most 2^64 - 1.
#[derive(Clone, Copy)]
struct GroupSizes {
    /// What stands before the first group with `default`, or all groups where there is none.
    over: u64,
    /// All groups.
    groups: u64,
}

impl GroupSizes {
    /// The size of a `switch` behind its value: so many cases, the drop of the value, the jump behind the
    /// cases and the groups.
    fn whole(self, cases: u64) -> u64
        ensures { result ≡ min (cases + (1 + (jump_size self.over + self.groups))) (2 ^ 64 - 1) }
    {
        let between = 1 + jump_size(self.over);
        cases.saturating_add(between).saturating_add(self.groups)
    }
}

/// The size of what stands before the first group with `default`, where a group of a size that has it or
/// not is put before what has this size.
fn size_before(default: bool, size: u64, over: u64) -> u64
    ensures { result ≡ (if default then 0 else min (size + over) (2 ^ 64 - 1)) }
{
    if default {
        0
    } else {
        size.saturating_add(over)
    }
}

/// Notes what is in a `switch`, and gives its size behind its value.
#[cycle(sizes)]
fn note_switch(groups: &[TGroup], typed: &Typed, notes: &mut Vec<Extent>) -> Result<u64, NoMemory>
    ensures size { IfOk result (λ size. size ≡ min (switch_size_of typed.now groups.now) (2 ^ 64 - 1)) }
    ensures noted { OnOk result (notes.new.items ≡ notes.old.items ++ switch_notes_of typed.now groups.now) }
{
    let sizes = note_groups(groups, typed, notes)?;
    notes.push(going_on(sizes.over))?;
    Ok(sizes.whole(case_count(groups)))
}

/// Notes the groups of a `switch`, from the last to the first, and gives their sizes.
#[cycle(sizes)]
fn note_groups(
    groups: &[TGroup],
    typed: &Typed,
    notes: &mut Vec<Extent>,
) -> Result<GroupSizes, NoMemory>
    ensures over { IfOk result (λ sizes. sizes.over ≡ min (before_default (labels_of_groups groups.now)
        (group_sizes_of typed.now groups.now)) (2 ^ 64 - 1)) }
    ensures groups { IfOk result
        (λ sizes. sizes.groups ≡ min (sum (group_sizes_of typed.now groups.now)) (2 ^ 64 - 1)) }
    ensures noted { OnOk result
        (notes.new.items ≡ notes.old.items ++ groups_notes_of typed.now groups.now) }
{
    let mut sizes = GroupSizes { over: 0, groups: 0 };
    let mut left = groups.len();
    while left > 0 {
        left -= 1;
        let group = &groups[left];
        let last = left + 1 == groups.len();
        let size = note_group(group.body.as_slice(), last, typed, notes)?;
        sizes.over = size_before(has_default(group.labels.as_slice()), size, sizes.over);
        sizes.groups = sizes.groups.saturating_add(size);
    }
    Ok(sizes)
}

/// Notes a group of a `switch`, which is the last one or not, and gives its size: behind the notes of its
/// statements stand how many they are, so that the next group is found, and its size, for the places of the
/// cases.
#[cycle(sizes)]
fn note_group(
    all: &[TStmt],
    last: bool,
    typed: &Typed,
    notes: &mut Vec<Extent>,
) -> Result<u64, NoMemory>
    ensures size { IfOk result
        (λ size. size ≡ min (sum_by (stmt_size typed.now) (kept_if last all.now)) (2 ^ 64 - 1)) }
    ensures noted { OnOk result (notes.new.items ≡ notes.old.items
        ++ group_notes (all_notes typed.now (kept_if last all.now))
        (sum_by (stmt_size typed.now) (kept_if last all.now))) }
{
    let before = notes.len();
    let extent = note_first(all, kept_len(all, last), typed, notes)?;
    let count = notes.len() - before;
    notes.push(going_on(count as u64))?;
    notes.push(going_on(extent.size))?;
    Ok(extent.size)
}
