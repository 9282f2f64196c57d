// The functions that a program declares.

ghost use Rattle.std.specs.Prelude.{◌≡◌, ◌∷◌, ◌+◌, ◌<◌, IfOk, filter_map, map};
ghost use Rattle.std.specs.List.Sorted.{IsStrictlyIncreasing};
ghost use Rattle.std.specs.Option.{option_to_list};
ghost use Rattle.capl_meaning.specs.Names.{function_by, function_of_part};
ghost use Rattle.check_names.specs.Function.{functions_in};
ghost use Rattle.check_names.specs.Inside.Table.{IsCalled};
ghost use Rattle.check_names.specs.Part.{part_in, parts_in};

use crate::part::ProgramPart;
use crate::seed::Seed;
use crate::table::NameTable;
use capl_tree::{Head, Param, Proc, Stmt};
use int_kinds::Kind;
use std::alloc::Global;
use texts::{NoMemory, Text};

/// A function of a program.
#[derive(Clone, Copy)]
pub struct DeclaredFunction<'p> {
    /// The number of its procedure, from 1 on.
    pub number: u32,
    /// The number of its file.
    pub file: u32,
    /// The token of its name.
    pub token: u32,
    /// Its name.
    pub name: &'p Text,
    /// The kind that it gives, if it gives one.
    pub gives: Option<Kind>,
    /// Its parameters.
    pub parameters: &'p [Param],
    /// What stands between its braces.
    pub body: &'p [Stmt],
}

/// The function of a procedure, if it is one.
fn function_of<'p>(number: u32, file: u32, procedure: &'p Proc) -> Option<DeclaredFunction<'p>>
    ensures { functions_in (option_to_list result)
        ≡ option_to_list (function_by number file procedure.now.head procedure.now.body) }
{
    let Head::Function {
        kind,
        name,
        params,
        at,
    } = &procedure.head
    else {
        return None;
    };
    Some(DeclaredFunction {
        number,
        file,
        token: *at,
        name,
        gives: *kind,
        parameters: params.as_slice(),
        body: procedure.body.as_slice(),
    })
}

/// The functions among parts of a program, in order.
pub fn declared_functions<'p>(
    alloc: Global,
    parts: &[ProgramPart<'p>],
) -> Result<Vec<DeclaredFunction<'p>>, NoMemory>
    ensures { IfOk result (λ all.
        functions_in all.items ≡ filter_map function_of_part (parts_in parts.now)) }
{
    let mut all = Vec::new(alloc);
    for part in parts {
        if let ProgramPart::Procedure {
            number,
            file,
            procedure,
        } = *part
        {
            if let Some(function) = function_of(number, file, procedure) {
                all.push(function)?;
            }
        }
    }
    Ok(all)
}

/// The table of functions by their names. The numbers of their procedures rise from 1 on, so they are fewer
/// than 2^32.
pub(crate) fn called_functions<'p>(
    alloc: Global,
    seed: Seed,
    functions: &[DeclaredFunction<'p>],
) -> Result<NameTable<'p>, NoMemory>
    requires { IsStrictlyIncreasing (0 ∷ map (λ f. f.number) (functions_in functions.now)) }
    ensures { IfOk result (λ table. IsCalled table (functions_in functions.now)) }
{
    let mut table = NameTable::new(alloc, seed);
    let mut number = 0u32;
    for function in functions {
        table.note(function.name.bytes(), number)?;
        number = behind(number, function.number);
    }
    Ok(table)
}

/// The number behind one that is below the number of a procedure.
fn behind(number: u32, procedure: u32) -> u32
    requires { number < procedure }
    ensures { result ≡ number + 1 }
{
    number + 1
}
