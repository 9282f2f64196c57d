// The log that a scenario replays.

ghost use Rattle.std.specs.Prelude.{◌≡◌, ◌<◌, ◌≤◌, ◌^◌, length, vec_len, IfOk, IfSome, IsErrOf};
ghost use Rattle.texts.specs.Fault.{HasRisen};
ghost use Rattle.input_refusals.specs.Agreement.{Agrees, Judges};
ghost use Rattle.replay_node.specs.Replay.{IsReplay};
ghost use Rattle.scenario.specs.Within.{IsEpochWithin};
ghost use Rattle.sim_inputs.specs.Answer.{IsPlayable};
ghost use Rattle.sim_inputs.specs.Accepted.{IsLogLineBlame, IsReplayBlame, LogAt, ReplayAt};

use crate::files::read_text;
use crate::rules::BAD_LINE;
use input_refusals::{InputRefusal, blamed_line};
use replay_node::{Replay, ReplayRefusal, requests};
use scenario::Scenario;
use sim_outside::{Files, beside};
use std::alloc::Global;
use texts::Text;

/// The most bytes of a log.
const LOG_LIMIT: usize = 1 << 26;

/// The replay of the scenario of this name, which asks for nothing where the scenario replays no log.
pub(crate) fn read_replay<F: Files>(
    alloc: Global,
    name: &Text,
    scenario: &Scenario,
    files: &mut F,
) -> Result<Replay, InputRefusal>
    requires { IsEpochWithin scenario.now.epoch }
    ensures told { IfSome (F.held files.old) (λ contents.
        Agrees (ReplayAt contents name.now scenario.now)
        (IsReplayBlame contents name.now scenario.now.replay) result) }
    ensures playable { IfOk result IsPlayable }
    ensures failed { IsErrOf result InputRefusal.Failed → HasRisen (F.faults files.old) (F.faults files.new) }
    ensures faults_stay { F.faults files.old ≤ F.faults files.new }
    ensures contents_stay { F.held files.new ≡ F.held files.old }
{
    let Some(file) = &scenario.replay else {
        return replay_of(alloc, name, b"", scenario);
    };
    let file = beside(alloc, name.bytes(), file.bytes())?;
    let log = read_text(alloc, &file, LOG_LIMIT, files)?;
    replay_of(alloc, &file, &log, scenario)
}

/// The replay of a scenario whose log is in the file of this name.
fn replay_of(
    alloc: Global,
    name: &Text,
    log: &[u8],
    scenario: &Scenario,
) -> Result<Replay, InputRefusal>
    requires short { length log.now < 2 ^ 32 }
    requires epoch { IsEpochWithin scenario.now.epoch }
    ensures judged { Judges
        (IsReplay log.now scenario.now.interface scenario.now.bit scenario.now.epoch)
        (IsLogLineBlame log.now name.now) result }
    ensures playable { IfOk result IsPlayable }
{
    let interface = scenario.interface.bytes();
    match requests(alloc, log, interface, scenario.bit, scenario.epoch) {
        Ok(replay) => Ok(replay),
        Err(ReplayRefusal::BadLine { line }) => {
            Err(blamed_line(alloc, name.bytes(), line, BAD_LINE))
        }
        Err(ReplayRefusal::NoMemory) => Err(InputRefusal::NoMemory),
    }
}
