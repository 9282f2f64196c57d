// The rules of the parts of a program.

ghost use Rattle.std.specs.Prelude.{◌≡◌, OnOk, flat_map};
ghost use Rattle.check_calls.specs.Calls.{AreCallsOf};
ghost use Rattle.check_names.specs.First.{noted};
ghost use Rattle.check_names.specs.Part.{part_in, parts_in};
ghost use Rattle.check_sorts.specs.Constant.{AreConstantsOf};
ghost use Rattle.check_statements.specs.Part.{body_offences};

use crate::around::in_body;
use crate::declaration::judge_declarations;
use crate::site::Site;
use crate::statement::judge_all;
use capl_meaning::Offence;
use check_calls::Calls;
use check_names::{Names, ProgramPart};
use check_sorts::{Constants, Scope};
use std::alloc::Global;
use texts::NoMemory;

/// Notes what the declarations or the statements of a part of a program break.
fn judge_part(
    alloc: Global,
    names: &Names,
    constants: &Constants,
    calls: &Calls,
    part: ProgramPart,
    first: &mut Option<Offence>,
) -> Result<(), NoMemory>
    requires constants { AreConstantsOf names.now constants.now }
    requires calls { AreCallsOf names.now calls.now }
    ensures { OnOk result (first.new ≡ noted first.old (body_offences names.now (part_in part.entry))) }
{
    match part {
        ProgramPart::Globals { file, declarations } => {
            let site = Site {
                scope: Scope::outside(names, file),
                calls,
                constants,
            };
            judge_declarations(alloc, &site, declarations, first)?;
        }
        ProgramPart::Procedure {
            number,
            file,
            procedure,
        } => {
            let site = Site {
                scope: Scope::inside(names, number, file, &procedure.head),
                calls,
                constants,
            };
            judge_all(alloc, &site, in_body(), procedure.body.as_slice(), first)?;
        }
    }
    Ok(())
}

/// Notes what the declarations and statements of parts of a program break.
pub(crate) fn judge_parts(
    alloc: Global,
    names: &Names,
    constants: &Constants,
    calls: &Calls,
    parts: &[ProgramPart],
    first: &mut Option<Offence>,
) -> Result<(), NoMemory>
    requires constants { AreConstantsOf names.now constants.now }
    requires calls { AreCallsOf names.now calls.now }
    ensures { OnOk result (first.new ≡
        noted first.old (flat_map (body_offences names.now) (parts_in parts.now))) }
{
    for part in parts {
        judge_part(alloc, names, constants, calls, *part, first)?;
    }
    Ok(())
}
