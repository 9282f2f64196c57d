//! A program without offences has a sound typed program: laws, point by point.
//!
//! What holds: of a program that breaks no rule and is readable (`Given` and `Small` in specs/), its typed
//! program has its tables; each expression of which an integer is needed is a number; each statement has a
//! sound tree; the formats read arrays of characters that are there, and are short; the initial values are
//! held by the kinds of their cells; no two event procedures are for one event; the functions and event
//! procedures are sound, in an order in which functions stand behind those that they call; no function that
//! a function calls reaches it; no list is too long; and all of this together is soundness, where the
//! program has at most 1,000,000 cells and a weight below 2^35.
//!
//! What is asked for is shown elsewhere: check_calls makes such an order (from E26), and small_trees has that
//! a program that was parsed is readable and as light as that (from the grammar, the texts of files and the
//! count of tokens). There is no code that runs.
#![tactic(auto)]

pub mod laws;
