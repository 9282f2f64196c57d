//! A simulation that is played: run whole, and shown to a sink as it happens.
//!
//! An [`Out`] holds a sink and is the only way to it: either an answer is written, or one simulation is
//! played, once. [`play`] runs a simulation and hands each line that a command asks for to the sink in the
//! moment in which it happens: the texts that nodes write, the frames that left the wire, both, or at the end
//! the profile or the summary. `specs/Play.antt` says what is shown of which run.
#![tactic(auto)]

pub use labels::{Labels, Show};
pub use out::Out;
pub use playing::play;

mod labels;
mod out;
mod piece;
mod playing;
mod profile;
mod record;
mod summary;
mod tally;
