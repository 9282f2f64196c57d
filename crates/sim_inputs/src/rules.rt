// The rules that scenarios, databases, logs and the programs of nodes together break, and files that are not
// there.

use texts::Rule;

/// There is no such file.
pub(crate) const MISSING: Rule = Rule {
    group: b'F',
    number: 1,
};

/// The file has more bytes than it may.
pub(crate) const TOO_LONG: Rule = Rule {
    group: b'F',
    number: 2,
};

/// A line of a log that is replayed has no reading.
pub(crate) const BAD_LINE: Rule = Rule {
    group: b'L',
    number: 1,
};

/// A statement of a database has no spelling.
pub(crate) const STATEMENT: Rule = Rule {
    group: b'D',
    number: 1,
};

/// An identifier or a name of a database stands for the second time.
pub(crate) const TWICE: Rule = Rule {
    group: b'D',
    number: 2,
};

/// The programs of the nodes so far are too large together.
pub(crate) const TOO_LARGE: Rule = Rule {
    group: b'E',
    number: 29,
};
