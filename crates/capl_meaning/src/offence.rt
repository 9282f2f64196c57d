// Offences.

use texts::Rule;

/// A place of a program at which it breaks a rule.
#[derive(Clone, Copy, Debug, PartialEq, Eq)]
pub struct Offence {
    /// The number of the file in program order.
    pub file: u32,
    /// The number of the token in the file.
    pub token: u32,
    /// The rule.
    pub rule: Rule,
}
