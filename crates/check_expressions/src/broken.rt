// Broken rules.

ghost use Rattle.std.specs.Prelude.{◌≡◌};
ghost use Rattle.texts.specs.Rule.{source_rule};
ghost use Rattle.capl_meaning.specs.ExpressionRules.{broken_where};
ghost use Rattle.check_names.specs.First.{noted};
ghost use Rattle.check_sorts.specs.Scope.{scope_in};

use capl_meaning::Offence;
use check_names::note;
use check_sorts::Scope;
use texts::Rule;

/// The rule on sources of this number.
pub fn source_rule(number: u8) -> Rule
    ensures { result ≡ source_rule number }
{
    Rule {
        group: b'E',
        number,
    }
}

/// Notes that the rule of a number is broken at a token where a part stands, if it is.
pub fn note_broken(scope: Scope, broken: bool, token: u32, number: u8, first: &mut Option<Offence>)
    ensures { first.new ≡
        noted first.old (broken_where broken (scope_in scope.entry) token number) }
{
    if broken {
        note(
            first,
            Offence {
                file: scope.file,
                token,
                rule: source_rule(number),
            },
        );
    }
}
