//! What holds of the meaning of sources that capl_meaning defines, whatever rules they break.
//!
//! The meaning is a recursion on a number that stands for the turns, at whose 0 a loop or a call would
//! be cut. The laws say that this number is no part of the meaning: no expression, statement, body of a
//! procedure or call adds turns; what one of them does is the same for each number that is not less than
//! the turns that are left; and where one of them is cut, no turn is left.
//!
//! In proofs/, `Expressions`, `Statements` and `Calls` show by recursion on the tree and on that number
//! that no turns are added, the files whose names begin with `Same` that it does not matter, and those that
//! begin with `Cut` that a part is cut last.
#![tactic(auto)]

pub mod laws;
