// The cases of a `switch`.

ghost use Rattle.std.specs.Prelude.{◌≡◌, ◌+◌, ◌<◌, ◌^◌, [], ◌∷◌, ◌++◌, count_by, is_some, length, OnOk};
ghost use Rattle.typed_tree.specs.Size.{jump_size, one_if, value_size};
ghost use Rattle.code_listing.specs.Statement.{labels_code};
ghost use Rattle.code_size.specs.Notes.{StandLast, groups_notes_of};
ghost use Rattle.code_size.specs.Rows.{before_default, case_count_of, group_sizes_of, labels_of_groups, switch_size_of};
ghost use Rattle.gen_expr.specs.Fields.{HasFieldCells};
ghost use Rattle.gen_stmt.specs.Inside.Rows.{choice_code};

use crate::jump::{add_jump, jump_size};
use crate::notes::last_group;
use bytecode::Instr;
use code_size::{Extent, case_count};
use gen_expr::{Emitter, emit};
use texts::NoMemory;
use typed_tree::{TExpr, TGroup, Typed};

/// Appends the cases of a group whose statements are at a place.
fn add_labels(labels: &[Option<i128>], at: u32, into: &mut Emitter) -> Result<(), NoMemory>
    ensures grows { OnOk result (length into.new ≡ length into.old + count_by is_some labels.now) }
    ensures code { OnOk result (into.new ≡ into.old ++ labels_code labels.now at) }
{
    for label in labels {
        add_label(*label, at, into)?;
    }
    Ok(())
}

/// Appends the case of a label, which `default` has none of.
fn add_label(label: Option<i128>, at: u32, into: &mut Emitter) -> Result<(), NoMemory>
    ensures grows { OnOk result (length into.new ≡ length into.old + one_if (is_some label)) }
    ensures code { OnOk result (into.new ≡ into.old ++ labels_code (label ∷ []) at) }
{
    match label {
        None => Ok(()),
        Some(n) => {
            into.add(Instr::Case(at, n), 1)?;
            Ok(())
        }
    }
}

/// Appends the code of a `switch` up to its groups: its value, a case for each label, the drop of a value
/// that is none of them, and a jump to the group with `default`, before which stands code of this size, or
/// else to the end. The sizes of the groups are read from their notes.
pub(crate) fn add_choice(
    on: &TExpr,
    groups: &[TGroup],
    over: u32,
    typed: &Typed,
    notes: &[Extent],
    into: &mut Emitter,
) -> Result<(), NoMemory>
    requires fields { HasFieldCells on.now }
    requires over { over
        ≡ before_default (labels_of_groups groups.now) (group_sizes_of typed.now groups.now) }
    requires room { length into.old + (value_size typed.now on.now + switch_size_of typed.now groups.now)
        < 2 ^ 32 }
    requires noted { StandLast (groups_notes_of typed.now groups.now) notes.now }
    ensures grows { OnOk result (length into.new ≡ length into.old + (value_size typed.now on.now
        + (case_count_of groups.now + (1 + jump_size over)))) }
    ensures code { OnOk result
        (into.new ≡ into.old ++ choice_code typed.now on.now groups.now (length into.old)) }
{
    emit(on, typed, 0, into)?;
    let mut at = into.place() + case_count(groups) as u32 + (1 + jump_size(over));
    let mut left = notes;
    for group in groups {
        add_labels(group.labels.as_slice(), at, into)?;
        let (size, before) = last_group(left);
        at += size;
        left = &left[..before];
    }
    into.add(Instr::Drop, 1)?;
    add_jump(over, into)?;
    Ok(())
}
