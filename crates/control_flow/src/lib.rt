//! What a part of a program does to the world around it: definitions, over any memory.
//!
//! A world is a memory, the turns that are left and the effects so far. A part of a program gives
//! something and leaves a world, or the whole run ends in it, by a trap or by a cut. The meaning of
//! a source, whose memory are variables with names, and that of its typed tree, whose memory are
//! cells, are said with these definitions, so that they can be compared step by step.
//!
//! `World` has worlds and runs, `Control` has statements in order, tests, loops and calls, and `Turns`
//! says what it means that no turns are added. There is no code: [`laws`] has what holds of them.
#![tactic(auto)]

pub mod laws;
