// The top call.

ghost use Rattle.std.specs.Prelude.{◌≡◌, ◌≢◌, ◌↔◌, ◌⊎◌, List, [], ℕ, Some, IsErrOf, map, string_bytes};
ghost use Rattle.texts.specs.Fault.{HasRisen};
ghost use Rattle.sim_outside.specs.Sink.{GrowsBy};
ghost use Rattle.capl_include.specs.Expansion.{Contents};
ghost use Rattle.dbc_reader.specs.declared.message.DbcMessage.{DbcMessage};
ghost use Rattle.replay_node.specs.declared.replay.Replay.{Replay};
ghost use Rattle.scenario.specs.Within.{IsWithin};
ghost use Rattle.scenario.specs.declared.scenario.Scenario.{Scenario};
ghost use Rattle.stack_vm.specs.declared.meter.MeterRow.{MeterRow};
ghost use Rattle.sim_inputs.specs.Accepted.{AreAccepted, NodeSource};
ghost use Rattle.sim_inputs.specs.Answer.{AreCoded, HaveCodeForEach, IsPlayable, IsTaken};
ghost use Rattle.sim_play.specs.Out.{IsUnused};
ghost use Rattle.sim_play.specs.declared.labels.Show.{Show};
ghost use Rattle.sim_run.specs.Answer.{IsAnswer, IsAnsweredInPart, IsAnswerOn, IsBegun};
ghost use Rattle.sim_run.specs.Command.{IsAsked, IsNoCommand};
ghost use Rattle.sim_run.specs.Inside.Answer.{IsBegunOn, status_after};
ghost use Rattle.sim_run.specs.Inside.Played.{AnswersInputs, PlaysInputs};

use crate::blame::write_blame;
use crate::command::{Asked, asked_of, show_of};
use crate::run::{core_of, labels_of, load_nodes};
use crate::status::Status;
use bus_heap::HeapBus;
use input_refusals::InputRefusal;
use node_run::TaskFault;
use run_laws::laws::runs_of_code_are_runs_of_sources;
use sim_gen::{SCENARIO_NAME, generate};
use sim_inputs::laws::one_reading;
use sim_inputs::{Inputs, read_inputs};
use sim_outside::{Files, Sink, SinkRefusal};
use sim_play::{Out, Show, play};
use source_laws::laws::compiled_procedures_end_as_in_the_source;
use stack_vm::Meter;
use std::alloc::Global;
use texts::Text;

/// Runs the command that the words are, over these files, and writes the answer.
///
/// `check NAME` writes `ok` where the inputs of the scenario NAME are accepted. `window NAME` writes one line
/// for each text that a node writes, `log NAME` one for each frame that leaves the wire, and `run NAME` both,
/// each line as it happens, up to the end moment. `profile NAME` writes at the end how often each event
/// procedure ran and how many turns it took. `gen N` makes a scenario of N nodes, 1 to 64, runs it, and
/// writes how many frames, lines and turns there were. The meter, which has no rows, gets one for each event
/// procedure, nodes in the order of the scenario and procedures in program order; for `check` it gets none.
pub fn simulate<F: Files, S: Sink>(
    alloc: Global,
    words: &[String],
    files: &mut F,
    out: &mut Out<S>,
    meter: &mut Meter,
) -> Status
    requires no_rows { meter.old ≡ [] }
    requires unused { IsUnused out.old }

    // The whole answer, where it was written to its end, with its rows.
    ensures whole { (contents : Contents) → F.held files.old ≡ Some contents →
        (result ≡ Status.Done) ⊎ (result ≡ Status.Refused) →
        (bytes : List ℕ) × IsAnswer contents (map string_bytes words.now) result bytes meter.new
        × GrowsBy (S.written out.old.sink) (S.written out.new.sink) bytes }

    // After a fault nothing was written, or a beginning of the answer; nothing where a read failed.
    ensures prefix { (contents : Contents) → F.held files.old ≡ Some contents →
        (result ≡ Status.WriteFault) ⊎ (result ≡ Status.OutOfMemory) →
        IsBegun contents (map string_bytes words.now) (S.written out.old.sink) (S.written out.new.sink) }
    ensures nothing_after_read_fault { result ≡ Status.ReadFault →
        S.written out.new.sink ≡ S.written out.old.sink }

    // Each line is handed over before later tasks run: where a write failed, no event procedure has more runs
    // than up to the first line that is missing.
    ensures as_it_happens { (contents : Contents) → F.held files.old ≡ Some contents →
        (show : Show) → (held : Contents) → (name : List ℕ) →
        IsAsked contents (map string_bytes words.now) (Some show) held name →
        (scenario : Scenario) → (base : List DbcMessage) → (sources : List NodeSource) → (replay : Replay) →
        AreAccepted held name scenario base sources replay → result ≡ Status.WriteFault →
        IsAnsweredInPart show held name (S.written out.old.sink) (S.written out.new.sink) meter.new }

    // Words that are no command touch nothing.
    ensures usage { (result ≡ Status.Usage) ↔ IsNoCommand (map string_bytes words.now) }
    ensures usage_reads_nothing { result ≡ Status.Usage → files.new ≡ files.old }
    ensures usage_writes_nothing { result ≡ Status.Usage → out.new ≡ out.old }

    // Where nothing was run there are no rows.
    ensures no_rows { (result ≡ Status.Usage) ⊎ (result ≡ Status.Refused) ⊎ (result ≡ Status.ReadFault) →
        meter.new ≡ [] }

    // Each fault has its cause.
    ensures read_fault { result ≡ Status.ReadFault → HasRisen (F.faults files.old) (F.faults files.new) }
    ensures write_fault { result ≡ Status.WriteFault →
        HasRisen (S.faults out.old.sink) (S.faults out.new.sink) }

    // With no cause for another status the answer is written, where there is memory.
    ensures complete { (contents : Contents) → F.held files.old ≡ Some contents →
        (bytes : List ℕ) → (rows : List MeterRow) →
        IsAnswer contents (map string_bytes words.now) Status.Done bytes rows →
        ¬ HasRisen (F.faults files.old) (F.faults files.new) →
        ¬ HasRisen (S.faults out.old.sink) (S.faults out.new.sink) →
        (result ≡ Status.Done) ⊎ (result ≡ Status.OutOfMemory) }
{
    match asked_of(words) {
        None => Status::Usage,
        Some(Asked::Files(command, name)) => {
            answer_on(alloc, show_of(command), name, files, out, meter)
        }
        Some(Asked::Generated(count)) => {
            let Ok(mut made) = generate(alloc, count) else {
                return Status::OutOfMemory;
            };
            let name = SCENARIO_NAME.as_bytes();
            answer_on(alloc, Some(Show::Summary), name, &mut made, out, meter)
        }
    }
}

/// Reads the inputs of a name and writes the answer over them, of which this is shown or nothing.
fn answer_on<F: Files, S: Sink>(
    alloc: Global,
    what: Option<Show>,
    name: &[u8],
    files: &mut F,
    out: &mut Out<S>,
    meter: &mut Meter,
) -> Status
    requires no_rows { meter.old ≡ [] }
    requires unused { IsUnused out.old }
    ensures whole { (held : Contents) → F.held files.old ≡ Some held →
        (result ≡ Status.Done) ⊎ (result ≡ Status.Refused) →
        (bytes : List ℕ) × IsAnswerOn what held name.now result bytes meter.new
        × GrowsBy (S.written out.old.sink) (S.written out.new.sink) bytes }
    ensures prefix { (held : Contents) → F.held files.old ≡ Some held →
        (result ≡ Status.WriteFault) ⊎ (result ≡ Status.OutOfMemory) →
        IsBegunOn what held name.now (S.written out.old.sink) (S.written out.new.sink) }
    ensures nothing_after_read_fault { result ≡ Status.ReadFault →
        S.written out.new.sink ≡ S.written out.old.sink }
    ensures as_it_happens { (held : Contents) → F.held files.old ≡ Some held → (show : Show) →
        what ≡ Some show → (scenario : Scenario) → (base : List DbcMessage) → (sources : List NodeSource) →
        (replay : Replay) → AreAccepted held name.now scenario base sources replay →
        result ≡ Status.WriteFault →
        IsAnsweredInPart show held name.now (S.written out.old.sink) (S.written out.new.sink) meter.new }
    ensures not_usage { result ≢ Status.Usage }
    ensures no_rows { (result ≡ Status.Refused) ⊎ (result ≡ Status.ReadFault) → meter.new ≡ [] }
    ensures read_fault { result ≡ Status.ReadFault → HasRisen (F.faults files.old) (F.faults files.new) }
    ensures write_fault { result ≡ Status.WriteFault →
        HasRisen (S.faults out.old.sink) (S.faults out.new.sink) }
    ensures complete { (held : Contents) → F.held files.old ≡ Some held →
        (bytes : List ℕ) → (rows : List MeterRow) → IsAnswerOn what held name.now Status.Done bytes rows →
        ¬ HasRisen (F.faults files.old) (F.faults files.new) →
        ¬ HasRisen (S.faults out.old.sink) (S.faults out.new.sink) →
        (result ≡ Status.Done) ⊎ (result ≡ Status.OutOfMemory) }
{
    one_reading();
    let Ok(name) = Text::make(alloc, name) else {
        return Status::OutOfMemory;
    };
    match read_inputs(alloc, &name, files) {
        Ok(inputs) => {
            let written = answer_inputs(alloc, what, inputs, out, meter);
            status_after(Status::Done, written)
        }
        Err(InputRefusal::Blamed(blame)) => {
            status_after(Status::Refused, write_blame(alloc, &blame, out))
        }
        Err(InputRefusal::Failed) => Status::ReadFault,
        Err(InputRefusal::NoMemory) => Status::OutOfMemory,
    }
}

/// Answers over inputs: `ok` where nothing is shown, and else what is shown of their run.
fn answer_inputs<S: Sink>(
    alloc: Global,
    what: Option<Show>,
    inputs: Inputs,
    out: &mut Out<S>,
    meter: &mut Meter,
) -> Result<(), SinkRefusal>
    requires within { IsWithin inputs.scenario }
    requires taken { IsTaken inputs.scenario }
    requires code_for_each { HaveCodeForEach inputs }
    requires coded { AreCoded inputs }
    requires playable { IsPlayable inputs.replay }
    requires no_rows { meter.old ≡ [] }
    requires unused { IsUnused out.old }
    ensures answers { AnswersInputs what inputs
        (S.written out.old.sink) (S.written out.new.sink) meter.new result }
    ensures failed { IsErrOf result SinkRefusal.Failed →
        HasRisen (S.faults out.old.sink) (S.faults out.new.sink) }
{
    match what {
        None => out.answer(b"ok\n"),
        Some(show) => play_inputs(alloc, show, inputs, out, meter),
    }
}

/// Shows the run of inputs.
fn play_inputs<S: Sink>(
    alloc: Global,
    show: Show,
    inputs: Inputs,
    out: &mut Out<S>,
    meter: &mut Meter,
) -> Result<(), SinkRefusal>
    requires within { IsWithin inputs.scenario }
    requires taken { IsTaken inputs.scenario }
    requires code_for_each { HaveCodeForEach inputs }
    requires coded { AreCoded inputs }
    requires playable { IsPlayable inputs.replay }
    requires no_rows { meter.old ≡ [] }
    requires unused { IsUnused out.old }
    ensures plays { PlaysInputs show inputs
        (S.written out.old.sink) (S.written out.new.sink) meter.new result }
    ensures failed { IsErrOf result SinkRefusal.Failed →
        HasRisen (S.faults out.old.sink) (S.faults out.new.sink) }
{
    compiled_procedures_end_as_in_the_source();
    runs_of_code_are_runs_of_sources::<HeapBus>();
    let Inputs {
        scenario,
        codes,
        files,
        replay,
    } = inputs;
    let nodes = load_nodes(alloc, codes, scenario.turns, meter)?;
    let labels = labels_of(alloc, &scenario, files, &replay)?;
    let mut core = core_of(alloc, nodes, scenario, replay.list);
    match play(alloc, &mut core, show, &labels, out, meter) {
        Ok(()) => Ok(()),
        Err(TaskFault::Record) => Err(SinkRefusal::Failed),
        Err(TaskFault::NoMemory) => Err(SinkRefusal::NoMemory),
    }
}

/// The status of a run that came to write its answer.
fn status_after(status: Status, written: Result<(), SinkRefusal>) -> Status
    ensures { result ≡ status_after status written }
{
    match written {
        Ok(()) => status,
        Err(SinkRefusal::Failed) => Status::WriteFault,
        Err(SinkRefusal::NoMemory) => Status::OutOfMemory,
    }
}
