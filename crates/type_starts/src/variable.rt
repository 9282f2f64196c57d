// The first cells of variables.

ghost use Rattle.std.specs.Prelude.{◌≡◌, ◌+◌, ◌<◌, ◌≤◌, ◌^◌, All, IfOk, List, OnOk, Some, slice_get, sum_by};
ghost use Rattle.std.specs.Option.{option_copied, option_map};
ghost use Rattle.capl_meaning.specs.Constant.{elements_of};
ghost use Rattle.capl_meaning.specs.Initial.{first_element, first_store};
ghost use Rattle.capl_meaning.specs.Store.{size_of_form, MessageRecord, lay, message_cells, row};
ghost use Rattle.capl_meaning.specs.Variable.{Variable};
ghost use Rattle.typed_laws.specs.Laid.{AreDistinct, cell_count};
ghost use Rattle.typed_laws.specs.Starts.{first_cells_of};
ghost use Rattle.typed_source.specs.Program.{starts_from};
ghost use Rattle.check_names.specs.Variable.{variable_in};
ghost use Rattle.check_sorts.specs.Constant.{AreConstantsOf};
ghost use Rattle.check_sorts.specs.Scope.{scope_in};
ghost use Rattle.type_starts.specs.Identifier.{IsDeclaredShort};
ghost use Rattle.type_starts.specs.Message.{IsMessage};
ghost use Rattle.type_starts.specs.Starts.{Goes};

use crate::message::Message;
use crate::payload::has_eight_bytes;
use crate::starts::{Starts, push, push_bytes, push_naturals};
use crate::value::{Spot, first_element, first_message, first_number};
use capl_tree::Init;
use check_names::{Declared, Names};
use check_sorts::{Constants, Form, Scope, form_of};
use int_kinds::Kind;
use std::alloc::Global;
use texts::NoMemory;

/// How many cells the event has, which stand before those of the variables.
const EVENT_CELLS: u32 = 15;

/// Puts the first numbers of an array of a kind in the next cells.
fn push_elements(
    starts: &mut Starts,
    spot: &Spot,
    kind: Kind,
    init: Option<&Init>,
    count: u32,
) -> Result<(), NoMemory>
    requires constants { AreConstantsOf spot.now.scope.names.now spot.now.constants.now }
    requires room { starts.old.cell + count < 2 ^ 32 }
    ensures { OnOk result (Goes starts.old starts.new (row
        (first_element (scope_in spot.now.scope) spot.now.token kind (option_copied init.entry)) 0 count)) }
{
    for index in 0..count {
        push(starts, first_element(spot, kind, init, index))?;
    }
    Ok(())
}

/// Puts a message in the next cells.
fn push_message(starts: &mut Starts, message: &Message) -> Result<(), NoMemory>
    requires { starts.old.cell + 14 < 2 ^ 32 }
    ensures { (m : MessageRecord) → IsMessage message.now m →
        OnOk result (Goes starts.old starts.new (message_cells m)) }
{
    has_eight_bytes(&message.payload);
    let fields = [message.id, message.dlc, message.rtr, message.can, 0, 0];
    push_naturals(starts, fields.as_slice())?;
    push_bytes(starts, message.payload.as_slice())?;
    Ok(())
}

/// The declared variable of a number, or None where there is none.
fn declared_at<'a, 'p>(names: &'a Names<'p>, number: u32) -> Option<&'a Declared<'p>>
    ensures { option_map (λ d. variable_in names.now.base d.now) result
        ≡ slice_get names.now.variables number }
{
    names.variables().get(number as usize)
}

/// Puts the first cells of the variable of a number in the next cells.
pub(crate) fn push_variable(
    starts: &mut Starts,
    names: &Names,
    constants: &Constants,
    number: u32,
) -> Result<(), NoMemory>
    requires constants { AreConstantsOf names.now constants.now }
    requires identifier { (v : Variable) → slice_get names.now.variables number ≡ Some v →
        IsDeclaredShort v.form }
    requires room { (v : Variable) → slice_get names.now.variables number ≡ Some v →
        starts.old.cell + cell_count names.now v < 2 ^ 32 }
    ensures { (v : Variable) → slice_get names.now.variables number ≡ Some v →
        OnOk result (Goes starts.old starts.new (first_cells_of names.now v)) }
{
    let Some(declared) = declared_at(names, number) else {
        return Ok(());
    };
    let spot = Spot {
        constants,
        scope: Scope::of_declared(names, declared),
        token: declared.token(),
    };
    let init = declared.init();
    match form_of(names, number) {
        Form::Number { kind, .. } => push(starts, first_number(&spot, kind, init)),
        Form::Array { kind, .. } => {
            push_elements(starts, &spot, kind, init, constants.elements(names, number))
        }
        Form::Message(what) => {
            let message = first_message(&spot, what, init);
            push_message(starts, &message)
        }
        Form::Timer(_) | Form::Misfit => Ok(()),
    }
}

/// What the cells of a program's variables hold at first, behind the cells of the event: the cells that do
/// not begin with 0, each with its number. The identifiers by which messages are declared are those of frames
/// in a program without offences, and so are short. Takes time linear in the number of cells and the
/// initialisers.
pub fn first_values(
    alloc: Global,
    names: &Names,
    constants: &Constants,
) -> Result<Vec<(u32, i128)>, NoMemory>
    requires constants { AreConstantsOf names.now constants.now }
    requires distinct { AreDistinct names.now.variables }
    requires identifiers { All (λ v. IsDeclaredShort v.form) names.now.variables }
    requires few { sum_by (λ v. size_of_form (elements_of names.now v) v.form) names.now.variables ≤ 1000000 }
    ensures { IfOk result (λ starts. starts.items ≡ starts_from 15 (lay names.now (first_store names.now))) }
{
    let count = names.variable_count();
    let mut starts = Starts {
        cell: EVENT_CELLS,
        all: Vec::new(alloc),
    };
    for number in 0..count {
        push_variable(&mut starts, names, constants, number)?;
    }
    Ok(starts.all)
}
