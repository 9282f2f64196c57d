//! Whether a log can be replayed, without the requests of its replay.
//!
//! [`bad_line`] names the line for which a log is refused. It answers for each log and takes no memory, so
//! a log has a replay or a bad line; that it has not both, and one of either alone, is a law of replay_node.
#![tactic(auto)]

ghost use Rattle.std.specs.Prelude.{◌<◌, ◌^◌, length, MatchOption};
ghost use Rattle.replay_node.specs.Replay.{IsBadLine};
ghost use Rattle.replay_check.specs.Replayable.{HasReplays};

use log_line::view_line;
use text_parts::first_line;

/// The number of the first line of a log, counted from 1, that neither reads, nor is passed over, nor is a
/// last line without a line feed; or None where the log has a replay. Takes time linear in the bytes, and no
/// memory.
pub fn bad_line(log: &[u8]) -> Option<u32>
    requires { length log.now < 2 ^ 32 }
    ensures { MatchOption result (HasReplays log.now) (IsBadLine log.now) }
{
    let mut rest = log;
    let mut number: u32 = 0;
    while let Some(first) = first_line(rest) {
        number += 1;
        match view_line(first.line) {
            Some(_line) => rest = first.rest,
            None if first.is_ended => return Some(number),
            None => return None,
        }
    }
    None
}
