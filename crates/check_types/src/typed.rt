// The typed program of a program.

ghost use Rattle.std.specs.Prelude.{◌≡◌, ◌<◌, ◌^◌, ◌++◌, [], IfOk, length};
ghost use Rattle.capl_meaning.specs.Names.{names_of};
ghost use Rattle.check_names.specs.Few.{IsFew};
ghost use Rattle.capl_meaning.specs.Offences.{offences_of};
ghost use Rattle.capl_meaning.specs.Inside.Procedure.{handlers_of};
ghost use Rattle.check_types.specs.Lines.{line_in};
ghost use Rattle.check_types.specs.Handlers.{lines_of};
ghost use Rattle.type_alone.specs.Tables.{AreTables, order_of};
ghost use Rattle.typed_source.specs.Program.{formats_of_functions, formats_of_handlers, typed_program};

use crate::functions::make_functions;
use crate::handlers::{Source, make_handlers};
use capl_tree::Program;
use check_names::program_parts;
use items::Items;
use std::alloc::Global;
use texts::NoMemory;
use type_expressions::{cell_kinds, timer_units};
use type_starts::first_values;
use typed_tree::Typed;

/// The typed program of a program that breaks no rule, by what it declares.
pub(crate) fn make_program(
    alloc: Global,
    program: &Program,
    source: &Source,
) -> Result<Typed, NoMemory>
    requires names { source.now.names.now ≡ names_of source.now.names.now.base program.now }
    requires no_offence { offences_of source.now.names.now.base program.now ≡ [] }
    requires tables { AreTables source.now.names.now source.now.tables.now }
    requires few { IsFew program.now }
    requires few_formats { let names = source.now.names.now in length (
        formats_of_functions names (order_of source.now.tables.now)
        ++ formats_of_handlers (handlers_of names program.now)) < 2 ^ 32 }
    ensures { IfOk result (λ typed. typed ≡ typed_program source.now.names.now.base program.now
        (order_of source.now.tables.now) (line_in (lines_of source.now))) }
{
    let names = source.names;
    let tables = source.tables;
    let mut formats = Vec::new(alloc);
    let functions = make_functions(alloc, names, tables, &mut formats)?;
    let parts = program_parts(alloc, program)?;
    let handlers = make_handlers(alloc, source, &mut formats, parts.as_slice())?;
    let layout = tables.trees.layout;
    let constants = tables.constants;
    let cells = cell_kinds(alloc, names, layout)?;
    let starts = first_values(alloc, names, constants)?;
    let timers = timer_units(alloc, names)?;
    Ok(Typed {
        functions,
        handlers,
        cells: Items::from_list(cells),
        starts: Items::from_list(starts),
        timers: Items::from_list(timers),
        formats: Items::from_list(formats),
    })
}
