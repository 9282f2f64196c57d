// The variables that a program declares.

ghost use Rattle.std.specs.Prelude.{◌≡◌, ◌++◌, List, IfOk, OnOk, flat_map, map};
ghost use Rattle.std.specs.Option.{option_copied};
ghost use Rattle.dbc_reader.specs.declared.message.DbcMessage.{DbcMessage};
ghost use Rattle.capl_meaning.specs.Variable.{Procedure, is_timer, parameters_of, variable_of_parameter, variables_of_declaration, variables_of_part};
ghost use Rattle.check_names.specs.Part.{part_in, parts_in};
ghost use Rattle.check_names.specs.Variable.{is_misfit, lent, variable_in, variables_in};

use crate::declaration::gather_all;
use crate::part::ProgramPart;
use capl_tree::{Decl, DeclType, Declr, Head, Init, Param, Proc};
use std::alloc::Global;
use texts::NoMemory;

/// Where a declaration stands.
#[derive(Clone, Copy, PartialEq, Eq)]
pub struct Place {
    /// The number of the procedure, 0 being outside of procedures.
    pub owner: u32,
    /// The number of the file.
    pub file: u32,
}

/// A declared variable.
#[derive(Clone, Copy)]
pub struct Declared<'p> {
    /// Where it is declared.
    pub place: Place,
    /// By what.
    pub source: Source<'p>,
}

/// What declares a variable.
#[derive(Clone, Copy)]
pub enum Source<'p> {
    /// A declaration, of this type.
    Item {
        /// The type.
        what: &'p DeclType,
        /// The name, and what stands behind it.
        item: &'p Declr,
    },
    /// A parameter of a function.
    Parameter(&'p Param),
}

impl<'p> Declared<'p> {
    /// The name.
    pub fn name(&self) -> &'p [u8]
        ensures { (base : List DbcMessage) → result.now ≡ (variable_in base self.now).name }
    {
        match self.source {
            Source::Item { item, .. } => item.name.bytes(),
            Source::Parameter(parameter) => parameter.name.bytes(),
        }
    }

    /// The token of the name.
    pub fn token(&self) -> u32
        ensures { (base : List DbcMessage) → result ≡ (variable_in base self.now).token }
    {
        match self.source {
            Source::Item { item, .. } => item.at,
            Source::Parameter(parameter) => parameter.at,
        }
    }

    /// What stands behind its `=`, if that stands.
    pub fn init(&self) -> Option<&'p Init>
        ensures { (base : List DbcMessage) → option_copied result ≡ (variable_in base self.now).init }
    {
        match self.source {
            Source::Item { item, .. } => item.init.as_ref().map(|init| init.get()),
            Source::Parameter(_) => None,
        }
    }

    /// Whether it is a timer.
    pub(crate) fn is_timer(&self) -> bool
        ensures { (base : List DbcMessage) → result ≡ is_timer (variable_in base self.now).form }
    {
        match self.source {
            Source::Item {
                what: DeclType::Seconds | DeclType::Millis,
                item,
            } => item.size.is_none(),
            _ => false,
        }
    }

    /// Whether it is an array of messages or timers, which there is not.
    pub(crate) fn is_misfit(&self) -> bool
        ensures { (base : List DbcMessage) → result ≡ is_misfit (variable_in base self.now).form }
    {
        match self.source {
            Source::Item {
                what: DeclType::Number { .. },
                ..
            }
            | Source::Parameter(_) => false,
            Source::Item { item, .. } => item.size.is_some(),
        }
    }
}

/// Appends the variables of a declaration.
fn declare<'p>(place: Place, decl: &'p Decl, into: &mut Vec<Declared<'p>>) -> Result<(), NoMemory>
    ensures { (base : List DbcMessage) → OnOk result (variables_in base into.new.items ≡
        variables_in base into.old.items ++ variables_of_declaration base place.owner place.file decl.now) }
{
    for item in decl.items.as_slice() {
        into.push(Declared {
            place,
            source: Source::Item {
                what: &decl.what,
                item,
            },
        })?;
    }
    Ok(())
}

/// Appends the variables of declarations outside of procedures.
fn declare_globals<'p>(
    place: Place,
    declarations: &'p [Decl],
    into: &mut Vec<Declared<'p>>,
) -> Result<(), NoMemory>
    ensures { (base : List DbcMessage) → OnOk result (variables_in base into.new.items ≡
        variables_in base into.old.items
        ++ flat_map (variables_of_declaration base place.owner place.file) declarations.now) }
{
    for decl in declarations {
        declare(place, decl, into)?;
    }
    Ok(())
}

/// Appends the variables of parameters.
fn declare_parameters<'p>(
    place: Place,
    parameters: &'p [Param],
    into: &mut Vec<Declared<'p>>,
) -> Result<(), NoMemory>
    ensures { (base : List DbcMessage) → OnOk result (variables_in base into.new.items ≡
        variables_in base into.old.items
        ++ map (variable_of_parameter place.owner place.file) parameters.now) }
{
    for parameter in parameters {
        into.push(Declared {
            place,
            source: Source::Parameter(parameter),
        })?;
    }
    Ok(())
}

/// Appends the variables of the parameters behind the name of a function, if it is one.
fn declare_head<'p>(
    place: Place,
    head: &'p Head,
    into: &mut Vec<Declared<'p>>,
) -> Result<(), NoMemory>
    ensures { (base : List DbcMessage) → OnOk result (variables_in base into.new.items ≡
        variables_in base into.old.items
        ++ map (variable_of_parameter place.owner place.file) (parameters_of head.now)) }
{
    match head {
        Head::Function { params, .. } => declare_parameters(place, params.as_slice(), into),
        Head::PreStart
        | Head::Start
        | Head::Stop
        | Head::Message(_)
        | Head::Timer { .. }
        | Head::Key { .. } => Ok(()),
    }
}

/// Appends the variables of declarations in a procedure.
fn declare_locals<'p>(
    place: Place,
    declarations: &[&'p Decl],
    into: &mut Vec<Declared<'p>>,
) -> Result<(), NoMemory>
    ensures { (base : List DbcMessage) → OnOk result (variables_in base into.new.items ≡
        variables_in base into.old.items
        ++ flat_map (variables_of_declaration base place.owner place.file) (lent declarations.now)) }
{
    for decl in declarations {
        declare(place, decl, into)?;
    }
    Ok(())
}

/// Appends the variables of a procedure: its parameters, and those that its statements declare.
fn declare_procedure<'p>(
    alloc: Global,
    place: Place,
    procedure: &'p Proc,
    into: &mut Vec<Declared<'p>>,
) -> Result<(), NoMemory>
    ensures { (base : List DbcMessage) → OnOk result (variables_in base into.new.items ≡
        variables_in base into.old.items
        ++ variables_of_part base (Procedure place.owner place.file procedure.now)) }
{
    declare_head(place, &procedure.head, into)?;
    let mut declarations = Vec::new(alloc);
    gather_all(procedure.body.as_slice(), &mut declarations)?;
    declare_locals(place, declarations.as_slice(), into)?;
    Ok(())
}

/// Appends the variables of a part of a program.
fn declare_part<'p>(
    alloc: Global,
    part: ProgramPart<'p>,
    into: &mut Vec<Declared<'p>>,
) -> Result<(), NoMemory>
    ensures { (base : List DbcMessage) → OnOk result (variables_in base into.new.items ≡
        variables_in base into.old.items ++ variables_of_part base (part_in part.entry)) }
{
    match part {
        ProgramPart::Globals { file, declarations } => {
            declare_globals(Place { owner: 0, file }, declarations, into)
        }
        ProgramPart::Procedure {
            number,
            file,
            procedure,
        } => declare_procedure(
            alloc,
            Place {
                owner: number,
                file,
            },
            procedure,
            into,
        ),
    }
}

/// The variables that parts of a program declare, in order.
pub fn declared_variables<'p>(
    alloc: Global,
    parts: &[ProgramPart<'p>],
) -> Result<Vec<Declared<'p>>, NoMemory>
    ensures { (base : List DbcMessage) → IfOk result (λ all.
        variables_in base all.items ≡ flat_map (variables_of_part base) (parts_in parts.now)) }
{
    let mut all = Vec::new(alloc);
    for part in parts {
        declare_part(alloc, *part, &mut all)?;
    }
    Ok(all)
}
