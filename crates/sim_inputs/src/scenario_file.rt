// The scenario.

ghost use Rattle.std.specs.Prelude.{◌≡◌, ◌<◌, ◌≤◌, ◌^◌, length, IfOk, IfSome, IsErrOf};
ghost use Rattle.scenario.specs.Scenario.{IsScenario};
ghost use Rattle.scenario.specs.Within.{IsWithin};
ghost use Rattle.texts.specs.Fault.{HasRisen};
ghost use Rattle.sim_inputs.specs.Answer.{IsTaken};
ghost use Rattle.input_refusals.specs.Agreement.{Agrees, Judges};
ghost use Rattle.sim_inputs.specs.Accepted.{IsLineBlame, IsScenarioBlame, ScenarioAt};

use crate::files::read_text;
use input_refusals::{InputRefusal, blamed_line};
use scenario::{Scenario, ScenarioRefusal, read};
use sim_outside::Files;
use std::alloc::Global;
use texts::Text;

/// The most bytes of a scenario.
const SCENARIO_LIMIT: usize = 1 << 20;

/// The scenario of this name.
pub(crate) fn read_scenario<F: Files>(
    alloc: Global,
    name: &Text,
    files: &mut F,
) -> Result<Scenario, InputRefusal>
    ensures told { IfSome (F.held files.old) (λ contents.
        Agrees (ScenarioAt contents name.now) (IsScenarioBlame contents name.now) result) }
    ensures taken { IfOk result IsTaken }
    ensures within { IfOk result IsWithin }
    ensures failed { IsErrOf result InputRefusal.Failed → HasRisen (F.faults files.old) (F.faults files.new) }
    ensures faults_stay { F.faults files.old ≤ F.faults files.new }
    ensures contents_stay { F.held files.new ≡ F.held files.old }
{
    let text = read_text(alloc, name, SCENARIO_LIMIT, files)?;
    let scenario = scenario_of(alloc, name, &text)?;
    Ok(scenario)
}

/// The scenario that the text of this file is.
fn scenario_of(alloc: Global, name: &Text, text: &[u8]) -> Result<Scenario, InputRefusal>
    requires { length text.now < 2 ^ 32 }
    ensures judged { Judges (IsScenario text.now) (IsLineBlame text.now name.now) result }
    ensures within { IfOk result IsWithin }
{
    match read(alloc, text) {
        Ok(scenario) => Ok(scenario),
        Err(ScenarioRefusal::Broken { line, rule }) => {
            Err(blamed_line(alloc, name.bytes(), line, rule))
        }
        Err(ScenarioRefusal::NoMemory) => Err(InputRefusal::NoMemory),
    }
}
