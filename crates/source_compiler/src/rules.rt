// The rules that sources break.

ghost use Rattle.std.specs.Prelude.{◌≡◌};
ghost use Rattle.texts.specs.Rule.{source_rule};

use texts::Rule;

/// The tokens of a file spell no tree.
pub(crate) const NOT_SPELLED: Rule = Rule {
    group: b'E',
    number: 2,
};

/// The tokens of a file nest too deep.
pub(crate) const TOO_DEEP: Rule = Rule {
    group: b'E',
    number: 3,
};

/// The program has too many cells or too great a weight.
pub(crate) const TOO_LARGE: Rule = Rule {
    group: b'E',
    number: 29,
};

/// The rule on sources of this number.
pub(crate) fn source_rule(number: u8) -> Rule
    ensures { result ≡ source_rule number }
{
    Rule {
        group: b'E',
        number,
    }
}
