//! Code of CAPL programs for a stack machine, what the machine does with it, and its verifier.
//!
//! [`Code`] is a list of instructions with its functions, handlers, cells, timers and formats. The
//! machine is a definition, one row for each instruction: the state after it, the way the run ends,
//! or that it is stuck, since an operand, a place, a cell or an entry of a table is not there.
//! [`verify`] takes code and gives [`Verified`] code exactly where every rule of the verifier
//! holds, and the first place whose rule fails otherwise. Verified code is never stuck, and each of
//! its runs ends; [`laws`] says what else holds of runs.
#![tactic(auto)]

pub use code::{Code, Fun, Handler};
pub use instr::Instr;
pub use refusal::VerifyRefusal;
pub use verified::{Verified, verify};

mod code;
mod distinct;
mod failure;
mod instr;
pub mod laws;
mod refusal;
mod rule;
mod shape;
mod tables;
mod verified;
