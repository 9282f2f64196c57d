// The profile of a run.

ghost use Rattle.std.specs.Prelude.{◌≡◌, ◌+◌, ◌<◌, ◌≤◌, ◌^◌, length, OnOk, OnErr, IsErrOf};
ghost use Rattle.texts.specs.Fault.{HasRisen};
ghost use Rattle.sim_outside.specs.Sink.{GrowsBy, GrowsByPrefix};
ghost use Rattle.sim_play.specs.Show.{file_of};
ghost use Rattle.sim_play.specs.Profile.{handler_lines};
ghost use Rattle.sim_play.specs.Inside.Counted.{handler_line, handlers_of, lines_from, row_count, row_in};

use crate::labels::Labels;
use crate::piece::write_piece;
use bytecode::Handler;
use node_run::Node;
use sim_outside::Sink;
use sim_text::profile_line;
use stack_vm::{Meter, MeterRow};
use std::alloc::Global;
use texts::Text;
use vm_host::RecordFault;

/// Writes the line of each event procedure of nodes, each under the name of its node, with their rows from
/// the first one on.
pub(crate) fn show_profile<S: Sink>(
    alloc: Global,
    nodes: &[Node],
    labels: &Labels,
    sink: &mut S,
    meter: &Meter,
) -> Result<(), RecordFault>
    requires names { length labels.now.names ≡ length nodes.now }
    requires files { length labels.now.files ≡ length nodes.now }
    requires rows { row_count (handlers_of nodes.now) ≤ length meter.now }
    ensures shown { OnOk result (GrowsBy (S.written sink.old) (S.written sink.new)
        (lines_from labels.now.names labels.now.files (row_in meter.now) 0 (handlers_of nodes.now))) }
    ensures refused { OnErr result (GrowsByPrefix (S.written sink.old) (S.written sink.new)
        (lines_from labels.now.names labels.now.files (row_in meter.now) 0 (handlers_of nodes.now))) }
    ensures fault { IsErrOf result RecordFault.Sink → HasRisen (S.faults sink.old) (S.faults sink.new) }
    ensures faults_stay { S.faults sink.old ≤ S.faults sink.new }
{
    let mut first_row = 0;
    for (number, node) in nodes.iter().enumerate() {
        let name = &labels.names.as_slice()[number];
        let files = labels.files.as_slice()[number].as_slice();
        let handlers = node.code().code().handlers.as_slice();
        // The rows of the node are in the meter, so their numbers fit.
        prove!(handlers.len() <= meter.rows() - first_row);
        show_handlers(alloc, handlers, name, files, first_row, sink, meter)?;
        first_row += handlers.len();
    }
    Ok(())
}

/// Writes the line of each event procedure of a node, with their rows from the one of a number on.
fn show_handlers<S: Sink>(
    alloc: Global,
    handlers: &[Handler],
    name: &Text,
    files: &[Text],
    first_row: usize,
    sink: &mut S,
    meter: &Meter,
) -> Result<(), RecordFault>
    requires in_range { first_row + length handlers.now < 2 ^ 64 }
    ensures shown { OnOk result (GrowsBy (S.written sink.old) (S.written sink.new)
        (handler_lines name.now files.now (row_in meter.now) first_row handlers.now)) }
    ensures refused { OnErr result (GrowsByPrefix (S.written sink.old) (S.written sink.new)
        (handler_lines name.now files.now (row_in meter.now) first_row handlers.now)) }
    ensures fault { IsErrOf result RecordFault.Sink → HasRisen (S.faults sink.old) (S.faults sink.new) }
    ensures faults_stay { S.faults sink.old ≤ S.faults sink.new }
{
    for (place, handler) in handlers.iter().enumerate() {
        let row = row_in(meter, first_row + place);
        show_handler(alloc, handler, name, files, row, sink)?;
    }
    Ok(())
}

/// Writes the line of an event procedure, with its row.
fn show_handler<S: Sink>(
    alloc: Global,
    handler: &Handler,
    name: &Text,
    files: &[Text],
    row: MeterRow,
    sink: &mut S,
) -> Result<(), RecordFault>
    ensures shown { OnOk result (GrowsBy (S.written sink.old) (S.written sink.new)
        (handler_line name.now files.now row handler.now)) }
    ensures refused { OnErr result (GrowsByPrefix (S.written sink.old) (S.written sink.new)
        (handler_line name.now files.now row handler.now)) }
    ensures fault { IsErrOf result RecordFault.Sink → HasRisen (S.faults sink.old) (S.faults sink.new) }
    ensures faults_stay { S.faults sink.old ≤ S.faults sink.new }
{
    let file = file_of(files, handler.file);
    let line = profile_line(alloc, name.bytes(), file, handler.line, &handler.event, row)?;
    write_piece(sink, line.bytes())
}

/// The name of a file of a node: where the node has one file alone, that one.
fn file_of(files: &[Text], file: u32) -> &[u8]
    ensures { result.now ≡ file_of files.now file }
{
    let place = if files.len() == 1 { 0 } else { file as usize };
    match files.get(place) {
        Some(name) => name.bytes(),
        None => &[],
    }
}

/// The row of a number, and one of zeros past the end.
pub(crate) fn row_in(meter: &Meter, number: usize) -> MeterRow
    ensures { result ≡ row_in meter.now number }
{
    meter.row(number).unwrap_or(MeterRow { runs: 0, turns: 0 })
}
