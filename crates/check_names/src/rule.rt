// The rules that names break, and noting that one is broken.

ghost use Rattle.std.specs.Prelude.{◌≡◌};
ghost use Rattle.check_names.specs.First.{broken_at, noted};

use crate::first::note;
use capl_meaning::Offence;
use texts::Rule;

/// The name after `on timer` is no global timer.
pub(crate) const NO_TIMER: Rule = Rule {
    group: b'E',
    number: 9,
};

/// A name is declared for the second time.
pub(crate) const TWICE: Rule = Rule {
    group: b'E',
    number: 10,
};

/// A message name is not in the database.
pub(crate) const NO_MESSAGE: Rule = Rule {
    group: b'E',
    number: 11,
};

/// A number is no identifier, or two are no range.
pub(crate) const NO_IDENTIFIER: Rule = Rule {
    group: b'E',
    number: 21,
};

/// A message of the database cannot be used.
pub(crate) const UNUSABLE: Rule = Rule {
    group: b'E',
    number: 23,
};

/// Two procedures are for the same.
pub(crate) const SAME_PURPOSE: Rule = Rule {
    group: b'E',
    number: 25,
};

/// Notes that a rule is broken at a token of a file, if it is.
pub(crate) fn note_where(
    broken: bool,
    file: u32,
    token: u32,
    rule: Rule,
    first: &mut Option<Offence>,
)
    ensures { first.new ≡ noted first.old (broken_at broken file token rule) }
{
    if broken {
        note(first, Offence { file, token, rule });
    }
}
