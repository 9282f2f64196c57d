// The first offence of a program.

ghost use Rattle.std.specs.Prelude.{◌≡◌, [], IfOk, IfSome, None};
ghost use Rattle.check_calls.specs.Calls.{AreCallsOf};
ghost use Rattle.check_names.specs.Few.{IsFew};
ghost use Rattle.check_names.specs.First.{IsFirstOf};
ghost use Rattle.check_names.specs.Named.{named_offences};
ghost use Rattle.capl_meaning.specs.Names.{names_of};
ghost use Rattle.capl_meaning.specs.Offences.{IsFirstOffence, offences_of};
ghost use Rattle.check_sorts.specs.Constant.{AreConstantsOf};

use crate::part::judge_parts;
use capl_meaning::Offence;
use capl_tree::Program;
use check_calls::Calls;
use check_names::{Named, program_parts};
use check_sorts::Constants;
use std::alloc::Global;
use texts::NoMemory;

/// The first of all that a program breaks, or None where it breaks nothing, by the names of the program
/// with the first of what they break. Takes time linear in the program, but for names of one hash and what
/// its constants and calls take.
pub fn first_offence(
    alloc: Global,
    program: &Program,
    named: &Named,
    constants: &Constants,
    calls: &Calls,
) -> Result<Option<Offence>, NoMemory>
    requires names { let names = named.now.names in names ≡ names_of names.base program.now }
    requires named { IsFirstOf named.now.first (named_offences named.now.names.base program.now) }
    requires constants { AreConstantsOf named.now.names constants.now }
    requires calls { AreCallsOf named.now.names calls.now }
    requires few { IsFew program.now }
    ensures none { IfOk result (λ first. first ≡ None → offences_of named.now.names.base program.now ≡ []) }
    ensures first { IfOk result (λ first. IfSome first (IsFirstOffence named.now.names.base program.now)) }
{
    let mut first = named.first;
    let parts = program_parts(alloc, program)?;
    judge_parts(
        alloc,
        &named.names,
        constants,
        calls,
        parts.as_slice(),
        &mut first,
    )?;
    Ok(first)
}
