// Checking a program.

ghost use Rattle.std.specs.Prelude.{◌≡◌, ◌<◌, ◌^◌, IfErr, IfOk, map};
ghost use Rattle.capl_tree.specs.Weight.{weight};
ghost use Rattle.check_names.specs.Few.{IsFew};
ghost use Rattle.check_names.specs.Names.{messages_of};
ghost use Rattle.sound_programs.specs.Given.{IsReadable};
ghost use Rattle.typed_tree.specs.Sound.{IsSound};
ghost use Rattle.check_types.specs.Accepted.{IsTypedOf};
ghost use Rattle.check_types.specs.Refusal.{IsRefusalOf};

use crate::handlers::Source;
use crate::typed::make_program;
use capl_meaning::Offence;
use capl_tree::Program;
use check_calls::Calls;
use check_calls::laws::orders_are_good;
use check_names::Names;
use check_sorts::Constants;
use check_statements::first_offence;
use dbc_reader::Database;
use sound_programs::laws::{
    functions_do_not_reach_their_callers, light_programs_have_short_lists,
    programs_without_offences_are_sound,
};
use std::alloc::Global;
use texts::NoMemory;
use type_alone::StatementTables;
use type_expressions::{Layout, TreeTables};
use typed_tree::Typed;

/// Why a program is not accepted.
#[derive(Clone, Copy, Debug, PartialEq, Eq)]
pub enum CheckRefusal {
    /// It breaks a rule; this is the first offence.
    Offends(Offence),
    /// It breaks no rule, but has more than 1,000,000 cells.
    Size,
    /// There was no memory.
    NoMemory,
}

impl From<NoMemory> for CheckRefusal {
    ghost use Rattle.std.specs.Prelude.{◌≡◌};
    ghost use Rattle.check_types.specs.declared.checking.CheckRefusal.TheVariants.{NoMemory};

    ghost from_gives = { λ _ refusal. refusal ≡ NoMemory };

    fn from(_: NoMemory) -> CheckRefusal {
        CheckRefusal::NoMemory
    }
}

/// The typed program of a program with a database, if it has one, where these are the lines of the tokens of
/// its files, in program order. It is sound where the program is readable, as that of parsed files is.
///
/// # Errors
///
/// `Offends` with the first offence against the rules E09 to E28, by file, token and rule; `Size` where
/// there is none and the program has more than 1,000,000 cells.
pub fn check(
    alloc: Global,
    program: &Program,
    lines: &[Vec<u32>],
    base: Option<&Database>,
) -> Result<Typed, CheckRefusal>
    requires few { IsFew program.now }
    // A program of parsed files is as light as that, so that each format has a number of 32 bits.
    requires light { weight program.now < 2 ^ 35 }
    ensures typed { let rows = map (λ row. row.items) lines.now in
        IfOk result (IsTypedOf (messages_of base.entry) program.now rows) }
    ensures sound { IsReadable program.now → IfOk result IsSound }
    ensures refused { IfErr result (IsRefusalOf (messages_of base.entry) program.now) }
{
    let named = Names::build(alloc, program, base)?;
    let names = &named.names;
    let constants = Constants::build(alloc, names)?;
    let calls = Calls::build(alloc, names)?;
    if let Some(offence) = first_offence(alloc, program, &named, &constants, &calls)? {
        return Err(CheckRefusal::Offends(offence));
    }
    let Some(layout) = Layout::build(alloc, names, &constants)? else {
        return Err(CheckRefusal::Size);
    };
    let tables = StatementTables {
        trees: TreeTables {
            layout: &layout,
            calls: &calls,
        },
        constants: &constants,
    };
    let source = Source {
        names,
        lines,
        tables: &tables,
    };
    light_programs_have_short_lists();
    let typed = make_program(alloc, program, &source)?;
    // The compiler asks for a sound typed program; that of a program without offences is one.
    orders_are_good();
    functions_do_not_reach_their_callers();
    programs_without_offences_are_sound();
    Ok(typed)
}
