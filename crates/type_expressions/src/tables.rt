// The tables of a program's cells and timers.

ghost use Rattle.std.specs.Prelude.{◌≡◌, ◌++◌, ◌∷◌, [], filter_map, replicate, IfOk, OnOk};
ghost use Rattle.capl_meaning.specs.Store.{event_kinds, kinds_by, laid_kinds, timer_units, unit_of};
ghost use Rattle.check_sorts.specs.Form.{form_in};
ghost use Rattle.type_expressions.specs.Layout.{IsLayoutOf};

use crate::layout::Layout;
use check_names::Names;
use check_sorts::{Form, form_of};
use int_kinds::Kind;
use message_cells::MESSAGE_KINDS;
use std::alloc::Global;
use texts::NoMemory;

/// Appends a kind so many times.
fn push_kind(kind: Kind, count: u32, into: &mut Vec<Kind>) -> Result<(), NoMemory>
    ensures { OnOk result (into.new.items ≡ into.old.items ++ replicate count kind) }
{
    for _turn in 0..count {
        into.push(kind)?;
    }
    Ok(())
}

/// Appends the kinds of the cells of a variable of a form, with so many elements.
fn push_kinds(form: &Form, elements: u32, into: &mut Vec<Kind>) -> Result<(), NoMemory>
    ensures { OnOk result (into.new.items ≡ into.old.items ++ kinds_by elements (form_in form.now)) }
{
    match form {
        Form::Number { kind, .. } => into.push(*kind)?,
        Form::Array { kind, .. } => push_kind(*kind, elements, into)?,
        Form::Message(_) => into.extend_from_slice(MESSAGE_KINDS.as_slice())?,
        Form::Timer(_) | Form::Misfit => {}
    }
    Ok(())
}

/// The kinds of a program's cells: first those of the event, then those of the variables. Takes time and
/// memory linear in their number.
pub fn cell_kinds(alloc: Global, names: &Names, layout: &Layout) -> Result<Vec<Kind>, NoMemory>
    requires { IsLayoutOf names.now layout.now }
    ensures { IfOk result (λ kinds. kinds.items ≡ event_kinds ++ laid_kinds names.now) }
{
    let count = names.variable_count();
    let mut kinds = Vec::new(alloc);
    kinds.extend_from_slice(MESSAGE_KINDS.as_slice())?;
    kinds.push(Kind::Char)?;
    for number in 0..count {
        let form = form_of(names, number);
        push_kinds(&form, layout.elements(number), &mut kinds)?;
    }
    Ok(kinds)
}

/// The unit of a timer in microseconds, or None of all else.
fn unit_of(form: &Form) -> Option<u64>
    ensures { result ≡ unit_of (form_in form.now) }
{
    match form {
        Form::Timer(unit) => Some(u64::from(*unit)),
        Form::Number { .. } | Form::Array { .. } | Form::Message(_) | Form::Misfit => None,
    }
}

/// Appends a unit, if there is one.
fn push_unit(unit: Option<u64>, into: &mut Vec<u64>) -> Result<(), NoMemory>
    ensures { OnOk result (into.new.items ≡ into.old.items ++ filter_map (λ u. u) (unit ∷ [])) }
{
    if let Some(unit) = unit {
        into.push(unit)?;
    }
    Ok(())
}

/// The unit of each timer of a program in microseconds. Takes time linear in the number of variables.
pub fn timer_units(alloc: Global, names: &Names) -> Result<Vec<u64>, NoMemory>
    ensures { IfOk result (λ units. units.items ≡ timer_units names.now) }
{
    let count = names.variable_count();
    let mut units = Vec::new(alloc);
    for number in 0..count {
        push_unit(unit_of(&form_of(names, number)), &mut units)?;
    }
    Ok(units)
}
