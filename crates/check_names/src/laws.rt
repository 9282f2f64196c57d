//! Laws of noted offences. Each call does nothing: its contract is the law.

ghost use Rattle.std.specs.Prelude.{◌≡◌, ◌++◌, [], Contains, List, Option, None, Some};
ghost use Rattle.dbc_reader.specs.declared.message.DbcMessage.{DbcMessage};
ghost use Rattle.capl_tree.specs.declared.file.Program.{Program};
ghost use Rattle.capl_meaning.specs.declared.offence.Offence.{Offence};
ghost use Rattle.capl_meaning.specs.Offences.{IsFirst, offences_of};
ghost use Rattle.check_names.specs.First.{noted};
ghost use Rattle.check_names.specs.Named.{named_offences};

/// What is left of offences that are noted one after another is the first of them, and there is none
/// exactly where none was noted. They may be noted in parts.
pub fn the_first_is_noted()
    ensures first { (offences : List Offence) (offence : Offence) →
        noted None offences ≡ Some offence → IsFirst offence offences }
    ensures none { (offences : List Offence) → noted None offences ≡ None → offences ≡ [] }
    ensures parts { (first : Option Offence) (one other : List Offence) →
        noted first (one ++ other) ≡ noted (noted first one) other }
{}

/// What names break in a program is among what it breaks.
pub fn named_offences_are_offences()
    ensures { (base : List DbcMessage) (program : Program) (offence : Offence) →
        Contains (named_offences base program) offence → Contains (offences_of base program) offence }
{}
