// Playing a simulation.

ghost use Rattle.std.specs.Prelude.{◌≡◌, ◌<◌, ◌≤◌, ◌^◌, ◌++◌, true, false, codes, decimal, length, IfOk, OnOk, OnErr, IsErrOf};
ghost use Rattle.texts.specs.Fault.{HasRisen};
ghost use Rattle.sim_outside.specs.Sink.{GrowsBy, GrowsByPrefix};
ghost use Rattle.sim_text.specs.Lines.{window_line};
ghost use Rattle.sim_core.specs.declared.simulation.Phase.TheVariants.{New};
ghost use Rattle.sim_core.specs.Core.{HaveRows};
ghost use Rattle.sim_play.specs.Out.{IsUnused};
ghost use Rattle.sim_play.specs.Play.{AreLabelsOf, AreNewRows, HasPlayed, IsPlayedInPart};
ghost use Rattle.sim_play.specs.Show.{shown_first};
ghost use Rattle.sim_play.specs.Inside.Counted.{counted_last, handlers_of, row_count, row_in};
ghost use Rattle.sim_play.specs.Inside.Shown.{HasShown, IsShownInPart};

use crate::labels::{Labels, Show};
use crate::out::Out;
use crate::piece::write_piece;
use crate::profile::show_profile;
use crate::record::{ShowRecord, shows_texts};
use crate::summary::play_summary;
use can_bus::Bus;
use node_run::{Node, TaskFault};
use sim_core::Core;
use sim_outside::Sink;
use sim_text::window_line;
use stack_vm::Meter;
use std::alloc::Global;
use texts::{NoMemory, Text};
use vm_host::RecordFault;

/// Runs a simulation whole, and hands what is shown of it to the sink, line by line as it happens, each line
/// as one piece.
///
/// # Errors
///
/// The sink has then taken a beginning of what is shown. `Record` comes only where the sink's faults rose in
/// this call.
pub fn play<B: Bus, S: Sink>(
    alloc: Global,
    core: &mut Core<B>,
    show: Show,
    labels: &Labels,
    out: &mut Out<S>,
    meter: &mut Meter,
) -> Result<(), TaskFault>
    requires is_new { core.old.phase ≡ New }
    requires unused { IsUnused out.old }
    requires labels { AreLabelsOf labels.now core.old.nodes }
    requires rows { AreNewRows core.old.nodes meter.old }
    ensures plays { OnOk result (HasPlayed B.meaning show labels.now core.old
        (S.written out.old.sink) (S.written out.new.sink) meter.new) }
    ensures as_many_rows { OnOk result (length meter.new ≡ length meter.old) }
    ensures cut { OnErr result (IsPlayedInPart B.meaning show labels.now core.old
        (S.written out.old.sink) (S.written out.new.sink) meter.old meter.new) }
    ensures fault { IsErrOf result TaskFault.Record → HasRisen (S.faults out.old.sink)
        (S.faults out.new.sink) }
    ensures faults_stay { S.faults out.old.sink ≤ S.faults out.new.sink }
    ensures played { out.new.played ≡ true }
    ensures not_answered { out.new.answered ≡ false }
{
    core.has_a_run();
    out.played = true;
    if show == Show::Summary {
        return play_summary(alloc, core, labels, &mut out.sink, meter);
    }
    show_first(alloc, show, labels, &mut out.sink)?;
    show_run(alloc, core, show, labels, &mut out.sink, meter)?;
    show_last(alloc, core.nodes(), show, labels, &mut out.sink, meter)?;
    Ok(())
}

/// Shows how many lines of the log that is replayed were passed over, where any were.
fn show_first<S: Sink>(
    alloc: Global,
    show: Show,
    labels: &Labels,
    sink: &mut S,
) -> Result<(), RecordFault>
    ensures shown { OnOk result (GrowsBy (S.written sink.old) (S.written sink.new)
        (shown_first show labels.now)) }
    ensures refused { OnErr result (GrowsByPrefix (S.written sink.old) (S.written sink.new)
        (shown_first show labels.now)) }
    ensures fault { IsErrOf result RecordFault.Sink → HasRisen (S.faults sink.old) (S.faults sink.new) }
    ensures faults_stay { S.faults sink.old ≤ S.faults sink.new }
{
    if !shows_texts(show) || labels.skipped == 0 {
        return Ok(());
    }
    let line = skipped_line(alloc, labels.skipped)?;
    write_piece(sink, line.bytes())
}

/// The line that says how many lines were passed over.
fn skipped_line(alloc: Global, skipped: u64) -> Result<Text, NoMemory>
    ensures { IfOk result (λ line. line ≡
        window_line 0 (codes "replay") (codes "skipped " ++ decimal skipped)) }
{
    let text = format!(in alloc; "skipped {skipped}")?;
    window_line(alloc, 0, b"replay", text.as_bytes())
}

/// Runs a simulation, and shows what happens as it does.
fn show_run<B: Bus, S: Sink>(
    alloc: Global,
    core: &mut Core<B>,
    show: Show,
    labels: &Labels,
    sink: &mut S,
    meter: &mut Meter,
) -> Result<(), TaskFault>
    requires is_new { core.old.phase ≡ New }
    requires in_range { labels.now.epoch < 2 ^ 32 }
    requires rows { HaveRows meter.old core.old.nodes }
    ensures shows { OnOk result (HasShown B.meaning show labels.now core.old core.new
        (S.written sink.old) (S.written sink.new) meter.old meter.new) }
    ensures cut { OnErr result (IsShownInPart B.meaning show labels.now core.old
        (S.written sink.old) (S.written sink.new) meter.old meter.new) }
    ensures fault { IsErrOf result TaskFault.Record → HasRisen (S.faults sink.old) (S.faults sink.new) }
    ensures faults_stay { S.faults sink.old ≤ S.faults sink.new }
{
    let mut line = Vec::new(alloc);
    let mut into = ShowRecord {
        show,
        labels,
        sink,
        line: &mut line,
    };
    run_into(core, &mut into, meter)?;
    Ok(())
}

/// Runs a simulation into a record, whose references stay.
fn run_into<'n, 'a, 'l, B: Bus, S: Sink>(
    core: &mut Core<B>,
    into: &mut ShowRecord<'n, 'a, 'l, S>,
    meter: &mut Meter,
) -> Result<(), TaskFault>
    requires is_new { core.old.phase ≡ New }
    requires rows { HaveRows meter.old core.old.nodes }
    ensures same_sink { into.new.sink.ghost_name ≡ into.old.sink.ghost_name }
    ensures shows { OnOk result (HasShown B.meaning into.old.show into.old.labels.now core.old core.new
        (S.written into.old.sink.now) (S.written into.new.sink.now) meter.old meter.new) }
    ensures cut { OnErr result (IsShownInPart B.meaning into.old.show into.old.labels.now core.old
        (S.written into.old.sink.now) (S.written into.new.sink.now) meter.old meter.new) }
    ensures fault { IsErrOf result TaskFault.Record →
        HasRisen (S.faults into.old.sink.now) (S.faults into.new.sink.now) }
    ensures faults_stay { S.faults into.old.sink.now ≤ S.faults into.new.sink.now }
{
    core.run_until(into, meter)?;
    Ok(())
}

/// Shows the profile, where it is asked for.
fn show_last<S: Sink>(
    alloc: Global,
    nodes: &[Node],
    show: Show,
    labels: &Labels,
    sink: &mut S,
    meter: &Meter,
) -> Result<(), RecordFault>
    requires names { length labels.now.names ≡ length nodes.now }
    requires files { length labels.now.files ≡ length nodes.now }
    requires rows { row_count (handlers_of nodes.now) ≤ length meter.now }
    ensures shown { OnOk result (GrowsBy (S.written sink.old) (S.written sink.new)
        (counted_last show labels.now (row_in meter.now) (handlers_of nodes.now))) }
    ensures refused { OnErr result (GrowsByPrefix (S.written sink.old) (S.written sink.new)
        (counted_last show labels.now (row_in meter.now) (handlers_of nodes.now))) }
    ensures fault { IsErrOf result RecordFault.Sink → HasRisen (S.faults sink.old) (S.faults sink.new) }
    ensures faults_stay { S.faults sink.old ≤ S.faults sink.new }
{
    if show != Show::Profile {
        return Ok(());
    }
    show_profile(alloc, nodes, labels, sink, meter)
}
