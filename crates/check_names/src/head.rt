// The rules of the heads of procedures and of the types of declarations.

ghost use Rattle.std.specs.Prelude.{◌≡◌, List, OnOk, flat_map};
ghost use Rattle.std.specs.Borrow.{Bor};
ghost use Rattle.capl_meaning.specs.DeclarationRules.{message_name_rule, type_rules};
ghost use Rattle.capl_meaning.specs.Names.{inside, outside};
ghost use Rattle.capl_meaning.specs.ProcedureRules.{head_offences};
ghost use Rattle.check_names.specs.First.{noted};
ghost use Rattle.check_names.specs.Named.{head_and_types, procedure_head_and_types, selector_offences, types_offences};
ghost use Rattle.check_names.specs.Part.{part_in, parts_in};
ghost use Rattle.check_names.specs.Variable.{in_all, lent};

use crate::declaration::gather_all;
use crate::first::note;
use crate::global::{names_misfit, names_timer};
use crate::names::Names;
use crate::part::ProgramPart;
use crate::rule::{NO_IDENTIFIER, NO_MESSAGE, NO_TIMER, UNUSABLE, note_where};
use crate::selector::{is_identifier, is_in_range, selector_of_numbers, selector_place};
use capl_meaning::Offence;
use capl_tree::{Decl, DeclType, Head, Proc, Sel, SelWhat};
use std::alloc::Global;
use texts::NoMemory;

/// The longest message of a database in bytes.
const MAX_LENGTH: u32 = 8;

/// Notes what a message name at a token breaks.
fn note_message_name(names: &Names, file: u32, name: &[u8], at: u32, first: &mut Option<Offence>)
    ensures { first.new ≡ noted first.old (message_name_rule (outside names.now file) at name.now) }
{
    match names.message(name) {
        None => note_where(true, file, at, NO_MESSAGE, first),
        Some(message) => {
            let unusable = message.len > MAX_LENGTH || !is_in_range(message.id);
            note_where(unusable, file, at, UNUSABLE, first);
        }
    }
}

/// Notes what a selector breaks by itself.
fn note_selector(names: &Names, file: u32, selector: &Sel, first: &mut Option<Offence>)
    ensures { first.new ≡ noted first.old (selector_offences (outside names.now file) selector.now) }
{
    match &selector.what {
        SelWhat::Any { .. } => {}
        SelWhat::Name { name, at } => note_message_name(names, file, name.bytes(), *at, first),
        SelWhat::Ids { low, high, .. } => {
            let misfit = selector_of_numbers(low, high).is_none();
            note_where(misfit, file, selector_place(selector), NO_IDENTIFIER, first);
        }
    }
}

/// Notes what selectors break by themselves.
fn note_selectors(names: &Names, file: u32, selectors: &[Sel], first: &mut Option<Offence>)
    ensures { first.new ≡ noted first.old (flat_map (selector_offences
        (outside names.now file)) selectors.now) }
{
    for selector in selectors {
        note_selector(names, file, selector, first);
    }
}

/// Notes what the head of a procedure breaks by itself.
fn note_head(names: &Names, file: u32, head: &Head, first: &mut Option<Offence>)
    ensures { first.new ≡ noted first.old (head_offences (outside names.now file) head.now) }
{
    match head {
        Head::Message(selectors) => note_selectors(names, file, selectors.as_slice(), first),
        Head::Timer { name, at } => {
            let name = name.bytes();
            let keeps = names_timer(names, name) || names_misfit(names, name);
            note_where(!keeps, file, *at, NO_TIMER, first);
        }
        Head::PreStart | Head::Start | Head::Stop | Head::Key { .. } | Head::Function { .. } => {}
    }
}

/// Notes what the type of a declaration breaks.
pub fn note_type(names: &Names, file: u32, what: &DeclType, first: &mut Option<Offence>)
    ensures { first.new ≡ noted first.old (type_rules (outside names.now file) what.now) }
{
    match what {
        DeclType::ById { value, ext, at } => {
            note_where(
                !is_identifier(*value, *ext),
                file,
                *at,
                NO_IDENTIFIER,
                first,
            );
        }
        DeclType::ByName { name, at } => note_message_name(names, file, name.bytes(), *at, first),
        DeclType::Number { .. } | DeclType::Any | DeclType::Seconds | DeclType::Millis => {}
    }
}

/// Notes what the types of declarations outside of procedures break.
fn note_types(names: &Names, file: u32, declarations: &[Decl], first: &mut Option<Offence>)
    ensures { first.new ≡ noted first.old (types_offences (outside names.now file) declarations.now) }
{
    for decl in declarations {
        note_type(names, file, &decl.what, first);
    }
}

/// Notes what the types of declarations in a procedure break.
fn note_types_in(names: &Names, file: u32, declarations: &[&Decl], first: &mut Option<Offence>)
    ensures { first.new ≡ noted first.old (types_offences (outside names.now file) (lent declarations.now)) }
{
    for decl in declarations {
        note_type(names, file, &decl.what, first);
    }
}

/// Notes what the head of a procedure and the types of its declarations break.
#[tactic(auto, using(crate::proofs::FirstLemmas::noted_append))]
fn note_procedure(
    alloc: Global,
    names: &Names,
    file: u32,
    procedure: &Proc,
    first: &mut Option<Offence>,
) -> Result<(), NoMemory>
    ensures { OnOk result (first.new ≡
        noted first.old (procedure_head_and_types (outside names.now file) procedure.now)) }
{
    note_head(names, file, &procedure.head, first);
    let mut declarations = Vec::new(alloc);
    gather_all(procedure.body.as_slice(), &mut declarations)?;
    note_types_in(names, file, declarations.as_slice(), first);
    Ok(())
}

/// Notes what the head of a part of a program and the types of its declarations break.
fn note_part(
    alloc: Global,
    names: &Names,
    part: ProgramPart,
    first: &mut Option<Offence>,
) -> Result<(), NoMemory>
    ensures { OnOk result (first.new ≡ noted first.old (head_and_types names.now (part_in part.entry))) }
{
    match part {
        ProgramPart::Globals { file, declarations } => {
            note_types(names, file, declarations, first);
            Ok(())
        }
        ProgramPart::Procedure {
            file,
            procedure,
            ..
        } => note_procedure(alloc, names, file, procedure, first),
    }
}

/// Notes what the heads of parts of a program and the types of their declarations break.
#[tactic(auto, using(crate::proofs::FirstLemmas::noted_append))]
pub(crate) fn note_parts(
    alloc: Global,
    names: &Names,
    parts: &[ProgramPart],
    first: &mut Option<Offence>,
) -> Result<(), NoMemory>
    ensures { OnOk result (first.new ≡
        noted first.old (flat_map (head_and_types names.now) (parts_in parts.now))) }
{
    for part in parts {
        note_part(alloc, names, *part, first)?;
    }
    Ok(())
}
