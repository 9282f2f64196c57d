// Names that are declared for the second time.

ghost use Rattle.std.specs.Prelude.{◌≡◌, ◌++◌, [], IfOk, OnOk, filter, flat_map, is_some, map};
ghost use Rattle.capl_meaning.specs.Names.{builtin_named};
ghost use Rattle.capl_meaning.specs.ProcedureRules.{name_offence, names_declared, names_of_head, outer_name_offences, outer_names, same_name};
ghost use Rattle.capl_meaning.specs.StatementRules.{repeated};
ghost use Rattle.check_names.specs.First.{noted};
ghost use Rattle.check_names.specs.Part.{part_in, parts_in};
ghost use Rattle.check_names.specs.Repeat.{names_at};

use crate::part::ProgramPart;
use crate::rule::{TWICE, note_where};
use crate::seed::Seed;
use crate::table::NameTable;
use capl_meaning::{Offence, is_builtin};
use capl_tree::{Decl, Head};
use std::alloc::Global;
use texts::{NoMemory, Text};

/// A name that is declared, and where.
#[derive(Clone, Copy)]
struct NameAt<'p> {
    /// The number of the file.
    file: u32,
    /// The token of the name.
    token: u32,
    /// The name.
    name: &'p Text,
}

/// Appends the names of a declaration.
fn list_declared<'p>(file: u32, decl: &'p Decl, into: &mut Vec<NameAt<'p>>) -> Result<(), NoMemory>
    ensures { OnOk result (names_at into.new.items ≡
        names_at into.old.items ++ names_declared file decl.now) }
{
    for item in decl.items.as_slice() {
        into.push(NameAt {
            file,
            token: item.at,
            name: &item.name,
        })?;
    }
    Ok(())
}

/// Appends the names of declarations.
fn list_globals<'p>(
    file: u32,
    declarations: &'p [Decl],
    into: &mut Vec<NameAt<'p>>,
) -> Result<(), NoMemory>
    ensures { OnOk result (names_at into.new.items
        ≡ names_at into.old.items ++ flat_map (names_declared file) declarations.now) }
{
    for decl in declarations {
        list_declared(file, decl, into)?;
    }
    Ok(())
}

/// Appends the name of a function.
fn list_function<'p>(file: u32, head: &'p Head, into: &mut Vec<NameAt<'p>>) -> Result<(), NoMemory>
    ensures { OnOk result (names_at into.new.items ≡ names_at into.old.items ++ names_of_head file head.now) }
{
    match head {
        Head::Function { name, at, .. } => into.push(NameAt {
            file,
            token: *at,
            name,
        })?,
        Head::PreStart
        | Head::Start
        | Head::Stop
        | Head::Message(_)
        | Head::Timer { .. }
        | Head::Key { .. } => {}
    }
    Ok(())
}

/// Appends the globals and functions of a part of a program.
fn list_part<'p>(part: ProgramPart<'p>, into: &mut Vec<NameAt<'p>>) -> Result<(), NoMemory>
    ensures { OnOk result (names_at into.new.items ≡
        names_at into.old.items ++ outer_names (part_in part.entry)) }
{
    match part {
        ProgramPart::Globals { file, declarations } => list_globals(file, declarations, into),
        ProgramPart::Procedure {
            file,
            procedure,
            ..
        } => list_function(file, &procedure.head, into),
    }
}

/// The globals and functions of parts of a program, in order.
fn outer_names<'p>(alloc: Global, parts: &[ProgramPart<'p>]) -> Result<Vec<NameAt<'p>>, NoMemory>
    ensures { IfOk result (λ all. names_at all.items ≡ flat_map outer_names (parts_in parts.now)) }
{
    let mut all = Vec::new(alloc);
    for part in parts {
        list_part(*part, &mut all)?;
    }
    Ok(all)
}

/// Notes names that functions of the language have.
fn note_builtins(names: &[NameAt], first: &mut Option<Offence>)
    ensures { first.new ≡ noted first.old
        (map name_offence (filter (λ d. is_some (builtin_named d.name)) (names_at names.now))) }
{
    for name in names {
        let taken = is_builtin(name.name.bytes());
        note_where(taken, name.file, name.token, TWICE, first);
    }
}

/// Notes names that earlier ones are the same as. Takes time linear in the names.
fn note_repeated<'p>(
    alloc: Global,
    seed: Seed,
    names: &[NameAt<'p>],
    first: &mut Option<Offence>,
) -> Result<(), NoMemory>
    ensures { OnOk result (first.new ≡ noted first.old
        (map name_offence (repeated same_name [] (names_at names.now)))) }
{
    let mut table = NameTable::with_room(alloc, seed, names.len())?;
    for name in names {
        let known = table.note(name.name.bytes(), 0)?;
        note_where(known, name.file, name.token, TWICE, first);
    }
    Ok(())
}

/// Notes globals and functions that have the name of an earlier one, or of a function of the language.
/// Takes time and memory linear in the program, but for names of one hash.
pub(crate) fn note_outer_names(
    alloc: Global,
    seed: Seed,
    parts: &[ProgramPart],
    first: &mut Option<Offence>,
) -> Result<(), NoMemory>
    ensures { OnOk result (first.new ≡ noted first.old (outer_name_offences (parts_in parts.now))) }
{
    let names = outer_names(alloc, parts)?;
    note_builtins(names.as_slice(), first);
    note_repeated(alloc, seed, names.as_slice(), first)?;
    Ok(())
}
