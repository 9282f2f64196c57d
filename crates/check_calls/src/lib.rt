//! Which functions of a program call which.
//!
//! [`Calls`] has an order of the functions in which each stands behind those that it calls, where no
//! calls go round (`laws`), and answers whether a call is recursive: whether the function that is called
//! reaches, by calls, the procedure that calls it.
#![tactic(auto)]

pub use calls::Calls;

mod calls;
mod components;
mod depth;
mod expression;
pub mod laws;
mod marks;
mod ranks;
mod rows;
mod search;
mod statement;
