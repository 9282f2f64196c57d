// Parameters and locals that are declared for the second time.

ghost use Rattle.std.specs.Prelude.{◌≡◌, ◌&&◌, [], map, nat_lt, take};
ghost use Rattle.std.specs.List.{list_any};
ghost use Rattle.capl_meaning.specs.StatementRules.{repeated};
ghost use Rattle.check_names.specs.First.{noted};
ghost use Rattle.check_names.specs.Inside.Inner.{inner_offence, same_inside};
ghost use Rattle.check_names.specs.Inside.Table.{is_named};

use crate::names::Names;
use crate::rule::{TWICE, note_where};
use capl_meaning::Offence;

/// Whether one of the first variables, so many, is of this procedure and has this name, where the
/// number of the procedure is not 0.
fn is_known(names: &Names, procedure: u32, name: &[u8], number: u32) -> bool
    ensures { result ≡ (nat_lt 0 procedure
        && list_any (is_named procedure name.now) (take number names.now.variables)) }
{
    if procedure == 0 {
        return false;
    }
    match names.first_named(procedure, name) {
        Some(earliest) => earliest < number,
        None => false,
    }
}

/// Notes parameters and locals that have the name of an earlier one of their procedure. Takes time
/// linear in the variables.
pub(crate) fn note_inner_names(names: &Names, first: &mut Option<Offence>)
    ensures { first.new ≡ noted first.old (map inner_offence (repeated same_inside [] names.now.variables)) }
{
    names.variables_are_few();
    let variables = names.variables();
    let mut number = 0u32;
    for variable in variables {
        let place = variable.place;
        let known = is_known(names, place.owner, variable.name(), number);
        note_where(known, place.file, variable.token(), TWICE, first);
        number += 1;
    }
}
