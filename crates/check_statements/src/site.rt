// Where a part of a program stands, with what is known of the program.

use check_calls::Calls;
use check_sorts::{Constants, Scope};

/// Where a part of a program stands, with the calls and the const integers of the program.
#[derive(Clone, Copy)]
pub(crate) struct Site<'a, 'p> {
    /// Where it stands.
    pub scope: Scope<'a, 'p>,
    /// The calls of the program.
    pub calls: &'a Calls,
    /// Its const integers.
    pub constants: &'a Constants,
}
