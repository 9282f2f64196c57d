//! The timers of a node, in order of their settings.
//!
//! A [`TimerQueue`] has a fixed number of timers, named by numbers from 0. Each is inactive, or has
//! one setting: a moment at which it is due, and a period where it is cyclic. Of the timers that are
//! due, [`TimerQueue::take_due`] takes the one that was set first, and begins its search where it took
//! the last one: of timers that are due at one moment and were set one after the other, each but the
//! first is found in constant time. Moments are whole microseconds from the start of the measurement.
//! Only [`TimerQueue::make`] takes memory.
#![tactic(auto)]

pub use queue::TimerQueue;
pub use setting::Setting;

mod minima;
mod queue;
mod setting;
mod slots;
