//! Bounds on how long a frame waits for the bus: the worst-case response times of CAN, for streams of
//! frames whose requests come apart.
//!
//! A [`Stream`] says that data frames of its identifier, with at most so many bytes, are requested at
//! least so long apart. A wait is good for a stream where it is long enough for one frame that has
//! begun and for all frames of stronger streams that can begin within it, and is over before the
//! stream's next request. [`find`] gives the least good wait of each stream, and [`accept`] tells of
//! given waits whether they are good. What they promise is the contract of [`accept`]: in the timeline
//! of any requests that keep to the streams, no frame with a given wait begins later than that after
//! its request. `specs/Timeline.antt` has the timeline, over the bus that can_bus defines.
//!
//! Moments and waits are whole microseconds.
#![tactic(auto)]

pub use accepted::accept;
pub use found::find;
pub use line::bound_line;
pub use stream::Stream;

mod accepted;
mod busiest;
mod found;
mod line;
mod starts;
mod stream;
mod times;
mod waits;
