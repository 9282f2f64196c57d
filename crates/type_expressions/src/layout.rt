// Where the variables of a program lie in the cells of its typed program.

ghost use Rattle.std.specs.Prelude.{◌≡◌, ◌+◌, ◌<◌, ◌^◌, ℕ, IfOk, Some, slice_get};
ghost use Rattle.capl_meaning.specs.Constant.{elements_of};
ghost use Rattle.capl_meaning.specs.Names.{Names};
ghost use Rattle.capl_meaning.specs.Store.{size_of_form, variable_key, timer_number};
ghost use Rattle.capl_meaning.specs.Variable.{Variable};
ghost use Rattle.typed_laws.specs.Laid.{AreDistinct, cells_by_form, slot};
ghost use Rattle.check_sorts.specs.Constant.{AreConstantsOf};
ghost use Rattle.check_sorts.specs.Form.{form_in};
ghost use Rattle.type_expressions.specs.Layout.{IsLaidOut, IsLayoutOf, timer_at, timers_with};

use check_names::Names;
use check_sorts::{Constants, Form, form_of};
use std::alloc::Global;
use texts::NoMemory;

/// How many cells a program may have.
const MOST_CELLS: u64 = 1_000_000;

/// How many cells the event has, which stand before those of the variables.
const EVENT_CELLS: u32 = 15;

/// Where a variable lies.
#[derive(Clone, Copy, PartialEq, Eq)]
pub struct Laid {
    /// Its first cell.
    pub slot: u32,
    /// How many elements it has. 0 where it is no array.
    pub elements: u32,
    /// Its number among the timers. 0 where it is none.
    pub timer: u32,
}

/// Where the variables of a program lie.
#[derive(Drop)]
pub struct Layout {
    all: Vec<Laid>,
}

/// How many cells a variable of a form has, with so many elements.
fn cells_by_form(elements: u32, form: &Form) -> u32
    ensures { result ≡ cells_by_form elements (form_in form.now) }
{
    match form {
        Form::Number { .. } => 1,
        Form::Array { .. } => elements,
        Form::Message(_) => 14,
        Form::Timer(_) | Form::Misfit => 0,
    }
}

/// How many cells it counts towards the limit of a program.
fn size_of_form(elements: u32, form: &Form) -> u32
    ensures { result ≡ size_of_form elements (form_in form.now) }
{
    match form {
        Form::Number { .. } | Form::Timer(_) => 1,
        Form::Array { .. } => elements,
        Form::Message(_) => 14,
        Form::Misfit => 0,
    }
}

/// What the next variable is laid behind.
#[derive(Clone, Copy)]
struct Next {
    /// The next cell.
    cell: u32,
    /// How many timers there are so far.
    timers: u32,
}

/// Where a variable of a form lies that comes next.
fn lay(next: Next, elements: u32, form: &Form) -> Laid
    ensures { result ≡ record {
      slot = next.cell;
      elements = elements;
      timer = timer_at next.timers (form_in form.now);
    } }
{
    let timer = match form {
        Form::Timer(_) => next.timers,
        Form::Number { .. } | Form::Array { .. } | Form::Message(_) | Form::Misfit => 0,
    };
    Laid {
        slot: next.cell,
        elements,
        timer,
    }
}

/// What comes behind a variable of a form.
fn behind(next: Next, elements: u32, form: &Form) -> Next
    requires { next.cell + next.timers + size_of_form elements (form_in form.now) < 2 ^ 32 }
    ensures { result ≡ record {
      cell = next.cell + cells_by_form elements (form_in form.now);
      timers = timers_with next.timers (form_in form.now);
    } }
{
    let cell = next.cell + cells_by_form(elements, form);
    let timers = match form {
        Form::Timer(_) => next.timers + 1,
        Form::Number { .. } | Form::Array { .. } | Form::Message(_) | Form::Misfit => next.timers,
    };
    Next { cell, timers }
}

impl Layout {
    /// Where the variables of a program lie, or None where they have more than 1,000,000 cells, of which
    /// a timer counts as one. Takes time and memory linear in the number of variables.
    pub fn build(
        alloc: Global,
        names: &Names,
        constants: &Constants,
    ) -> Result<Option<Layout>, NoMemory>
        requires { AreConstantsOf names.now constants.now }
        ensures { IfOk result (IsLaidOut names.now) }
    {
        let count = names.variable_count();
        let mut all = Vec::with_capacity(alloc, count as usize)?;
        let mut next = Next {
            cell: EVENT_CELLS,
            timers: 0,
        };
        let mut size = 0u64;
        for number in 0..count {
            let form = form_of(names, number);
            let elements = constants.elements(names, number);
            size += u64::from(size_of_form(elements, &form));
            if size > MOST_CELLS {
                return Ok(None);
            }
            all.push(lay(next, elements, &form))?;
            next = behind(next, elements, &form);
        }
        Ok(Some(Layout { all }))
    }

    /// Where the variable of a number lies.
    fn at(&self, number: u32) -> Laid
        ensures { (laid : Laid) → slice_get self.now.all.items number ≡ Some laid → result ≡ laid }
    {
        match self.all.get(number as usize) {
            Some(laid) => *laid,
            None => Laid {
                slot: 0,
                elements: 0,
                timer: 0,
            },
        }
    }

    /// The first cell of the variable of a number.
    pub fn slot(&self, number: u32) -> u32
        ensures { (names : Names) (v : Variable) → IsLayoutOf names self.now → AreDistinct names.variables →
            slice_get names.variables number ≡ Some v → result ≡ slot names (variable_key v) }
    {
        self.at(number).slot
    }

    /// How many elements the variable of a number has; 0 where it is no array.
    pub fn elements(&self, number: u32) -> u32
        ensures { (names : Names) (v : Variable) → IsLayoutOf names self.now →
            slice_get names.variables number ≡ Some v → result ≡ elements_of names v }
    {
        self.at(number).elements
    }

    /// The number of a timer, by its number among the variables; 0 where it is none.
    pub fn timer(&self, number: u32) -> u32
        ensures { (names : Names) (v : Variable) → IsLayoutOf names self.now → AreDistinct names.variables →
            slice_get names.variables number ≡ Some v → result ≡ timer_number names v }
    {
        self.at(number).timer
    }
}
