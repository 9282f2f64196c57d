// The parts of a program.

ghost use Rattle.std.specs.Prelude.{◌≡◌, ◌≤◌, ◌<◌, ◌+◌, ◌^◌, ◌∷◌, [], IfOk, OnOk, length};
ghost use Rattle.capl_meaning.specs.Variable.{parts_of};
ghost use Rattle.check_names.specs.Few.{IsFew};
ghost use Rattle.check_names.specs.Part.{AreItemsListed, IsItemListed, parts_in, parts_of_file};

use capl_tree::{Decl, Proc, Program, TopItem};
use std::alloc::Global;
use texts::NoMemory;

/// A part of a program that declares.
#[derive(Clone, Copy)]
pub enum ProgramPart<'p> {
    /// Variables for all procedures.
    Globals {
        /// The number of the file.
        file: u32,
        /// The declarations.
        declarations: &'p [Decl],
    },
    /// An event procedure or a function.
    Procedure {
        /// Its number, from 1 on.
        number: u32,
        /// The number of the file.
        file: u32,
        /// The procedure.
        procedure: &'p Proc,
    },
}

/// Appends the part that an item of a file is, and counts procedures.
fn list_item<'p>(
    file: u32,
    item: &'p TopItem,
    procedures: &mut u32,
    into: &mut Vec<ProgramPart<'p>>,
) -> Result<(), NoMemory>
    requires counted { procedures.old ≤ length into.old.items }
    requires few { length into.old.items
        + length (parts_of_file file (item.now ∷ []) procedures.old) < 2 ^ 32 }
    ensures listed { OnOk result (IsItemListed file item.now procedures.old (parts_in into.old.items)
        procedures.new (parts_in into.new.items)) }
    ensures counted { OnOk result (procedures.new ≤ length into.new.items) }
{
    match item {
        TopItem::Includes(_) => {}
        TopItem::Variables(declarations) => into.push(ProgramPart::Globals {
            file,
            declarations: declarations.as_slice(),
        })?,
        TopItem::Proc(procedure) => {
            *procedures += 1;
            into.push(ProgramPart::Procedure {
                number: *procedures,
                file,
                procedure,
            })?;
        }
    }
    Ok(())
}

/// Appends the parts that the items of a file are, and counts procedures.
fn list_items<'p>(
    file: u32,
    items: &'p [TopItem],
    procedures: &mut u32,
    into: &mut Vec<ProgramPart<'p>>,
) -> Result<(), NoMemory>
    requires counted { procedures.old ≤ length into.old.items }
    requires few { length into.old.items
        + length (parts_of_file file items.now procedures.old) < 2 ^ 32 }
    ensures listed { OnOk result (AreItemsListed file items.now procedures.old (parts_in into.old.items)
        procedures.new (parts_in into.new.items)) }
    ensures counted { OnOk result (procedures.new ≤ length into.new.items) }
{
    for item in items {
        list_item(file, item, procedures, into)?;
    }
    Ok(())
}

/// The parts of a program that declare, in program order.
pub fn program_parts<'p>(
    alloc: Global,
    program: &'p Program,
) -> Result<Vec<ProgramPart<'p>>, NoMemory>
    requires { IsFew program.now }
    ensures { IfOk result (λ parts. parts_in parts.items ≡ parts_of program.now) }
{
    let mut parts = Vec::new(alloc);
    let mut procedures = 0;
    let mut file = 0u32;
    for tree in program.files.as_slice() {
        list_items(file, tree.items.as_slice(), &mut procedures, &mut parts)?;
        file += 1;
    }
    Ok(parts)
}
