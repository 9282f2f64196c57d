// The tables of a program's variables: that of the globals, and then one for each procedure.

ghost use Rattle.std.specs.Prelude.{◌≡◌, ◌==◌, ◌&&◌, ◌<◌, ◌^◌, ℕ, List, IfOk, None, OnOk, Some, if◌then◌else◌, length, position, true};
ghost use Rattle.std.specs.Option.{option_or};
ghost use Rattle.std.specs.Str.{bytes_eq};
ghost use Rattle.dbc_reader.specs.declared.message.DbcMessage.{DbcMessage};
ghost use Rattle.check_names.specs.Inside.Table.{AreInOrder, AreTables, is_in_order, is_named, is_named_before, number_at};
ghost use Rattle.check_names.specs.Variable.{variable_in, variables_in};

use crate::seed::Seed;
use crate::table::NameTable;
use crate::variable::Declared;
use std::alloc::Global;
use texts::NoMemory;

/// The number that the table of an owner has for a name.
pub(crate) fn number_at(tables: &[NameTable], owner: u32, name: &[u8]) -> Option<u32>
    ensures { result ≡ number_at tables.now owner name.now }
{
    tables.get(owner as usize)?.number(name)
}

/// Adds tables until there is one for this owner.
fn open<'p>(
    alloc: Global,
    seed: Seed,
    tables: &mut Vec<NameTable<'p>>,
    owner: u32,
) -> Result<(), NoMemory>
    ensures same { (other : ℕ) (name : List ℕ) →
        OnOk result (number_at tables.new.items other name ≡ number_at tables.old.items other name) }
    ensures there { OnOk result (owner < length tables.new.items) }
{
    while tables.len() <= owner as usize {
        tables.push(NameTable::new(alloc, seed))?;
    }
    Ok(())
}

/// Notes the number of a variable in the table of its owner, if its name was not noted there before.
fn note_at<'p>(
    alloc: Global,
    seed: Seed,
    tables: &mut Vec<NameTable<'p>>,
    owner: u32,
    name: &'p [u8],
    number: u32,
) -> Result<(), NoMemory>
    ensures { (other : ℕ) (named : List ℕ) → OnOk result (number_at tables.new.items other named ≡
        option_or (number_at tables.old.items other named)
        (if owner == other && bytes_eq named name.now then Some number else None)) }
{
    open(alloc, seed, tables, owner)?;
    if let Some(table) = tables.get_mut(owner as usize) {
        table.note(name, number)?;
    }
    Ok(())
}

/// Notes a variable in the table of its owner, if its name was not noted there before.
fn note_variable<'p>(
    alloc: Global,
    seed: Seed,
    number: u32,
    variable: &Declared<'p>,
    tables: &mut Vec<NameTable<'p>>,
) -> Result<(), NoMemory>
    ensures { (base : List DbcMessage) (owner : ℕ) (name : List ℕ) →
        OnOk result (number_at tables.new.items owner name ≡ option_or (number_at tables.old.items owner name)
        (if is_named owner name (variable_in base variable.now) then Some number else None)) }
{
    note_at(
        alloc,
        seed,
        tables,
        variable.place.owner,
        variable.name(),
        number,
    )
}

/// How many of these variables are globals.
fn count_globals(variables: &[Declared]) -> usize {
    variables
        .iter()
        .filter(|variable| variable.place.owner == 0)
        .count()
}

/// The table of the globals alone, with room for those of these variables.
fn first_table<'p>(
    alloc: Global,
    seed: Seed,
    variables: &[Declared<'p>],
) -> Result<Vec<NameTable<'p>>, NoMemory>
    ensures { (owner : ℕ) (name : List ℕ) →
        IfOk result (λ tables. number_at tables.items owner name ≡ None) }
{
    let table = NameTable::with_room(alloc, seed, count_globals(variables))?;
    let mut tables = Vec::new(alloc);
    tables.push(table)?;
    Ok(tables)
}

/// The tables of variables.
pub(crate) fn tables_of<'p>(
    alloc: Global,
    seed: Seed,
    variables: &[Declared<'p>],
) -> Result<Vec<NameTable<'p>>, NoMemory>
    requires { length variables.now < 2 ^ 32 }
    ensures { (base : List DbcMessage) →
        IfOk result (λ tables. AreTables tables.items (variables_in base variables.now)) }
{
    let mut tables = first_table(alloc, seed, variables)?;
    let mut number = 0u32;
    for variable in variables {
        note_variable(alloc, seed, number, variable, &mut tables)?;
        number += 1;
    }
    Ok(tables)
}

/// Whether a variable does not stand before the first one of its name in its procedure. Outside of
/// procedures the order does not matter.
fn is_in_order(tables: &[NameTable], variables: &[Declared], variable: &Declared) -> bool
    requires { (base : List DbcMessage) → AreTables tables.now (variables_in base variables.now) }
    ensures { (base : List DbcMessage) →
        result ≡ is_in_order (variables_in base variables.now) (variable_in base variable.now) }
{
    let owner = variable.place.owner;
    if owner == 0 {
        return true;
    }
    let Some(number) = number_at(tables, owner, variable.name()) else {
        return true;
    };
    match variables.get(number as usize) {
        Some(first) => first.token() <= variable.token(),
        None => true,
    }
}

/// Whether in each procedure no variable stands before the first one of its name. So it is in the
/// trees of a source. Takes time linear in the variables, but for names of one hash.
pub(crate) fn are_in_order(tables: &[NameTable], variables: &[Declared]) -> bool
    requires { (base : List DbcMessage) → AreTables tables.now (variables_in base variables.now) }
    ensures { (base : List DbcMessage) → result ≡ true → AreInOrder (variables_in base variables.now) }
{
    for variable in variables {
        if !is_in_order(tables, variables, variable) {
            return false;
        }
    }
    true
}

/// Whether a variable is of this procedure and has this name, which stands before a token.
fn is_named_before(variable: &Declared, procedure: u32, name: &[u8], token: u32) -> bool
    ensures { (base : List DbcMessage) →
        result ≡ is_named_before procedure name.now token (variable_in base variable.now) }
{
    variable.place.owner == procedure && name == variable.name() && variable.token() < token
}

/// The number of the first variable of this name in a procedure that stands before a token, which is
/// looked for from one variable to the next.
pub(crate) fn first_before(
    variables: &[Declared],
    procedure: u32,
    name: &[u8],
    token: u32,
) -> Option<u32>
    requires { length variables.now < 2 ^ 32 }
    ensures { (base : List DbcMessage) → result
        ≡ position (is_named_before procedure name.now token) (variables_in base variables.now) }
{
    let mut number = 0u32;
    for variable in variables {
        if is_named_before(variable, procedure, name, token) {
            return Some(number);
        }
        number += 1;
    }
    None
}
