// The blames of a program's files.

ghost use Rattle.capl_include.specs.Blame.{file_blame, place_blame};
ghost use Rattle.capl_include.specs.Inside.Refusal.{IsBlamedOrNoMemory};

use crate::refusal::ExpandRefusal;
use std::alloc::Global;
use texts::{Blame, NoMemory, Rule, Text};

/// No blank, comment or token begins here.
pub(crate) const NO_TOKEN: Rule = Rule {
    group: b'E',
    number: 1,
};

/// The files met so far have more than 300,000 tokens.
pub(crate) const TOO_MANY_TOKENS: Rule = Rule {
    group: b'E',
    number: 4,
};

/// There is no such file.
pub(crate) const MISSING: Rule = Rule {
    group: b'E',
    number: 7,
};

/// A file is included by what is no name of a file.
pub(crate) const NO_NAME: Rule = Rule {
    group: b'E',
    number: 8,
};

/// There are more than 32 files.
pub(crate) const TOO_MANY_FILES: Rule = Rule {
    group: b'E',
    number: 29,
};

/// The file has more than 1 MiB.
pub(crate) const TOO_LONG: Rule = Rule {
    group: b'F',
    number: 2,
};

/// The refusal that blames a whole file, or that of want of memory.
pub(crate) fn blamed(alloc: Global, name: &Text, rule: Rule) -> ExpandRefusal
    ensures { IsBlamedOrNoMemory (file_blame name.now rule) result }
{
    match Text::make(alloc, name.bytes()) {
        Ok(file) => ExpandRefusal::Blamed(Blame {
            file,
            line: None,
            column: None,
            rule,
        }),
        Err(NoMemory) => ExpandRefusal::NoMemory,
    }
}

/// The refusal that blames a place of a file, or that of want of memory.
pub(crate) fn blamed_at(
    alloc: Global,
    name: &Text,
    line: u32,
    column: u32,
    rule: Rule,
) -> ExpandRefusal
    ensures { IsBlamedOrNoMemory (place_blame name.now line column rule) result }
{
    match Text::make(alloc, name.bytes()) {
        Ok(file) => ExpandRefusal::Blamed(Blame {
            file,
            line: Some(line),
            column: Some(column),
            rule,
        }),
        Err(NoMemory) => ExpandRefusal::NoMemory,
    }
}
