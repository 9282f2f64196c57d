// Reading a log.

ghost use Rattle.std.specs.Prelude.{◌≡◌, ◌<◌, ◌^◌, All, length, IfOk, IfErr};
ghost use Rattle.std.specs.List.Sorted.{IsNonDecreasingBy};
ghost use Rattle.log_line.specs.Written.{IsLoggable};
ghost use Rattle.scenario.specs.Within.{IsEpochWithin};
ghost use Rattle.replay_node.specs.Replay.{IsReplay};
ghost use Rattle.replay_node.specs.Refusal.{IsRefusalOf};

use crate::progress::Progress;
use crate::replay::{Replay, ReplayRefusal};
use log_line::laws::read_frames_are_loggable;
use log_line::view_line;
use scenario::Epoch;
use std::alloc::Global;
use text_parts::first_line;

/// The replay of the log on this interface, on a bus whose bit takes so many microseconds. A bad line
/// is the first that neither reads, nor is passed over, nor is a last line without a line feed. Takes
/// time linear in the bytes, and memory for the requests alone.
pub fn requests(
    alloc: Global,
    log: &[u8],
    interface: &[u8],
    bit: u32,
    epoch: Epoch,
) -> Result<Replay, ReplayRefusal>
    requires { length log.now < 2 ^ 32 }
    ensures replay { IfOk result (IsReplay log.now interface.now bit epoch) }
    ensures refusal { IfErr result (IsRefusalOf log.now) }

    // The moments do not fall, and the frames are of the first channel and can be sent.
    ensures by_moment { IfOk result (λ replay. IsNonDecreasingBy (λ request. request.at) replay.list) }
    ensures frames { IfOk result (λ replay. All (λ request. IsLoggable request.frame) replay.list) }
    ensures epoch { IsEpochWithin epoch → IfOk result (λ replay. replay.epoch < 2 ^ 32) }
{
    read_frames_are_loggable();
    read_lines(alloc, log, interface, bit, epoch)
}

/// Reads the lines of the log.
fn read_lines(
    alloc: Global,
    log: &[u8],
    interface: &[u8],
    bit: u32,
    epoch: Epoch,
) -> Result<Replay, ReplayRefusal>
    requires { length log.now < 2 ^ 32 }
    ensures replay { IfOk result (IsReplay log.now interface.now bit epoch) }
    ensures refusal { IfErr result (IsRefusalOf log.now) }
{
    let mut progress = Progress::start(alloc, epoch);
    let mut rest = log;
    let mut number: u32 = 0;
    while let Some(first) = first_line(rest) {
        number += 1;
        match view_line(first.line) {
            Some(line) => progress.take(&line, interface, bit)?,
            None if first.is_ended => return Err(ReplayRefusal::BadLine { line: number }),
            None => {
                progress.skip();
                return Ok(progress.replay());
            }
        }
        rest = first.rest;
    }
    Ok(progress.replay())
}
