//! What the log of a run of sources is, and which sources reproduce a log.
//!
//! A source asks for the frames of messages, and a log line can carry each of these. So the log of each run
//! of sources is well spaced. A program with no call of `output` and none of `stop` asks for no frame and
//! not to stop: nodes with such programs, which a log is replayed to, leave it byte for byte.
//!
//! `Silent` in specs/ says which programs these are. There is no code that runs: [`laws`] has what holds.
#![tactic(auto)]

pub use reaction::SourceReaction;

pub mod laws;
mod reaction;
