// The functions of a typed program.

ghost use Rattle.std.specs.Prelude.{◌≡◌, ◌<◌, ◌^◌, ◌++◌, IfOk, OnOk, Some, length};
ghost use Rattle.capl_meaning.specs.Calls.{function_numbered};
ghost use Rattle.capl_meaning.specs.Names.{inside_function};
ghost use Rattle.capl_meaning.specs.Variable.{variable_of_parameter};
ghost use Rattle.check_names.specs.Function.{function_in};
ghost use Rattle.type_expressions.specs.Layout.{IsLayoutOf};
ghost use Rattle.type_alone.specs.Tables.{AreTables, order_of};
ghost use Rattle.typed_laws.specs.Agreement.{ArePlain, parameter_slots};
ghost use Rattle.typed_laws.specs.Laid.{AreDistinct, IsAmong, slot};
ghost use Rattle.typed_source.specs.Program.{formats_of_function, formats_of_functions, function_of, functions_of};

use capl_tree::Param;
use check_names::{DeclaredFunction, Names};
use check_sorts::{Scope, ThisForm};
use items::Items;
use std::alloc::Global;
use texts::NoMemory;
use type_alone::StatementTables;
use type_expressions::Layout;
use type_statements::make_body;
use typed_tree::TFun;
use write_format::Format;

/// The first cell of a parameter of a function.
fn parameter_slot(
    names: &Names,
    layout: &Layout,
    function: &DeclaredFunction,
    parameter: &Param,
) -> u32
    requires layout { IsLayoutOf names.now layout.now }
    requires distinct { AreDistinct names.now.variables }
    requires declared { IsAmong (variable_of_parameter function.now.number function.now.file parameter.now)
        names.now.variables }
    ensures { result ≡ slot names.now (record { owner = function.now.number; name = parameter.now.name }) }
{
    match names.first_named(function.number, parameter.name.bytes()) {
        Some(number) => layout.slot(number),
        None => unreachable!(),
    }
}

/// The cells of a function's parameters.
fn parameter_slots(
    alloc: Global,
    names: &Names,
    layout: &Layout,
    function: &DeclaredFunction,
) -> Result<Items<u32>, NoMemory>
    requires layout { IsLayoutOf names.now layout.now }
    requires plain { ArePlain names.now }
    requires listed { function_numbered names.now function.now.number ≡ Some (function_in function.now) }
    ensures { IfOk result (λ slots. slots ≡ parameter_slots names.now (function_in function.now)) }
{
    let mut slots = Vec::new(alloc);
    for parameter in function.parameters {
        let slot = parameter_slot(names, layout, function, parameter);
        slots.push(slot)?;
    }
    Ok(Items::from_list(slots))
}

/// A function, whose formats are appended to those of the program.
fn make_function(
    alloc: Global,
    names: &Names,
    tables: &StatementTables,
    formats: &mut Vec<Format>,
    function: &DeclaredFunction,
) -> Result<TFun, NoMemory>
    requires tables { AreTables names.now tables.now }
    requires plain { ArePlain names.now }
    requires listed { function_numbered names.now function.now.number ≡ Some (function_in function.now) }
    requires room { length (formats.old.items
        ++ formats_of_function names.now (Some (function_in function.now))) < 2 ^ 32 }
    ensures tree { IfOk result (λ tree. tree ≡ function_of names.now (order_of tables.now)
        (length formats.old.items) (Some (function_in function.now))) }
    ensures formats { OnOk result (formats.new.items ≡
        formats.old.items ++ formats_of_function names.now (Some (function_in function.now))) }
{
    let layout = tables.trees.layout;
    let params = parameter_slots(alloc, names, layout, function)?;
    let scope = Scope {
        names,
        owner: function.number,
        file: function.file,
        this: ThisForm::NoThis,
        gives: function.gives,
    };
    let body = make_body(alloc, scope, tables, formats, function.body)?;
    Ok(TFun {
        params,
        gives: function.gives,
        body,
    })
}

/// The functions of a program in their order, whose formats are appended to those of the program.
pub(crate) fn make_functions(
    alloc: Global,
    names: &Names,
    tables: &StatementTables,
    formats: &mut Vec<Format>,
) -> Result<Items<TFun>, NoMemory>
    requires tables { AreTables names.now tables.now }
    requires plain { ArePlain names.now }
    requires room { let order = order_of tables.now in
        length (formats.old.items ++ formats_of_functions names.now order) < 2 ^ 32 }
    ensures trees { IfOk result (λ trees. trees ≡ functions_of names.now (order_of tables.now)
        (length formats.old.items) (order_of tables.now)) }
    ensures formats { OnOk result (formats.new.items ≡
        formats.old.items ++ formats_of_functions names.now (order_of tables.now)) }
{
    let calls = tables.trees.calls;
    let order = calls.order();
    let indices = calls.indices();
    let all = names.functions();
    let mut trees = Vec::new(alloc);
    for at in 0..order.len() {
        let function = all[indices[at] as usize];
        let tree = make_function(alloc, names, tables, formats, &function)?;
        trees.push(tree)?;
    }
    Ok(Items::from_list(trees))
}
