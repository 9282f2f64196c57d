// A rule, and the place where an input breaks it.

use crate::text::Text;

/// A rule by its group's letter (S, D, E, L, F or N) and its number in the group.
#[derive(Clone, Copy, Debug, PartialEq, Eq)]
pub struct Rule {
    /// The letter, as its ASCII byte.
    pub group: u8,
    /// The number, shown in two digits.
    pub number: u8,
}

/// The place where an input breaks a rule.
#[derive(Debug, Drop)]
pub struct Blame {
    /// The name of the file.
    pub file: Text,
    /// The line, counted from 1, where the rule belongs to one.
    pub line: Option<u32>,
    /// The column in bytes, counted from 1, where the rule belongs to one.
    pub column: Option<u32>,
    /// The rule.
    pub rule: Rule,
}
