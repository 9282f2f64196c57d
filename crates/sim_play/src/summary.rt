// The summary of a run.

ghost use Rattle.std.specs.Prelude.{◌≡◌, ◌<◌, ◌≤◌, ◌^◌, length, sum_by, OnOk, OnErr, IsErrOf};
ghost use Rattle.texts.specs.Fault.{HasRisen};
ghost use Rattle.sim_outside.specs.Sink.{GrowsBy, GrowsByPrefix};
ghost use Rattle.sim_text.specs.Lines.{summary_line};
ghost use Rattle.sim_core.specs.declared.simulation.Phase.TheVariants.{New};
ghost use Rattle.sim_play.specs.declared.labels.Show.TheVariants.{Summary};
ghost use Rattle.sim_play.specs.Play.{AreNewRows, HasPlayed, IsPlayedInPart};
ghost use Rattle.sim_play.specs.Show.{capped, first_lines};

use crate::labels::Labels;
use crate::piece::write_piece;
use crate::profile::row_in;
use crate::tally::Tally;
use can_bus::Bus;
use node_run::{Node, TaskFault};
use sim_core::Core;
use sim_outside::Sink;
use sim_text::summary_line;
use stack_vm::Meter;
use std::alloc::Global;
use vm_host::RecordFault;

/// Runs a simulation, which writes nothing, and writes its summary at the end.
pub(crate) fn play_summary<B: Bus, S: Sink>(
    alloc: Global,
    core: &mut Core<B>,
    labels: &Labels,
    sink: &mut S,
    meter: &mut Meter,
) -> Result<(), TaskFault>
    requires is_new { core.old.phase ≡ New }
    requires rows { AreNewRows core.old.nodes meter.old }
    ensures plays { OnOk result (HasPlayed B.meaning Summary labels.now core.old
        (S.written sink.old) (S.written sink.new) meter.new) }
    ensures as_many_rows { OnOk result (length meter.new ≡ length meter.old) }
    ensures cut { OnErr result (IsPlayedInPart B.meaning Summary labels.now core.old
        (S.written sink.old) (S.written sink.new) meter.old meter.new) }
    ensures fault { IsErrOf result TaskFault.Record → HasRisen (S.faults sink.old) (S.faults sink.new) }
    ensures faults_stay { S.faults sink.old ≤ S.faults sink.new }
{
    let mut tally = Tally {
        frames: 0,
        lines: first_lines(labels),
    };
    core.run_until(&mut tally, meter)?;
    show_summary(alloc, core.nodes(), &tally, sink, meter)?;
    Ok(())
}

/// How many lines of text stand before those of a run.
fn first_lines(labels: &Labels) -> u64
    ensures { result ≡ first_lines labels.now }
{
    if labels.skipped == 0 { 0 } else { 1 }
}

/// Writes the summary of a run of nodes, by what was counted in it and by its rows.
fn show_summary<S: Sink>(
    alloc: Global,
    nodes: &[Node],
    tally: &Tally,
    sink: &mut S,
    meter: &Meter,
) -> Result<(), RecordFault>
    requires few { length nodes.now < 2 ^ 32 }
    ensures shown { OnOk result (GrowsBy (S.written sink.old) (S.written sink.new)
        (summary_line (length nodes.now) tally.now.frames tally.now.lines
        (capped (sum_by (λ row. row.turns) meter.now)))) }
    ensures refused { OnErr result (GrowsByPrefix (S.written sink.old) (S.written sink.new)
        (summary_line (length nodes.now) tally.now.frames tally.now.lines
        (capped (sum_by (λ row. row.turns) meter.now)))) }
    ensures fault { IsErrOf result RecordFault.Sink → HasRisen (S.faults sink.old) (S.faults sink.new) }
    ensures faults_stay { S.faults sink.old ≤ S.faults sink.new }
{
    let count = nodes.len() as u32;
    let line = summary_line(alloc, count, tally.frames, tally.lines, turns_in(meter))?;
    write_piece(sink, line.bytes())
}

/// The sum of the turns of all rows, and 2^64 - 1 where it is above that.
fn turns_in(meter: &Meter) -> u64
    ensures { result ≡ capped (sum_by (λ row. row.turns) meter.now) }
{
    let mut turns: u64 = 0;
    for number in 0..meter.rows() {
        turns = turns.saturating_add(row_in(meter, number).turns);
    }
    turns
}
