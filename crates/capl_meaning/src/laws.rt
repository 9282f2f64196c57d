//! Laws of the definitions. Each call does nothing: its contract is the law.

ghost use Rattle.std.specs.Prelude.{◌≡◌, [], ◌∷◌, List, false, true};
ghost use Rattle.dbc_reader.specs.declared.message.DbcMessage.{DbcMessage};
ghost use Rattle.capl_tree.specs.declared.file.Program.{Program};
ghost use Rattle.capl_meaning.specs.declared.offence.Offence.{Offence};
ghost use Rattle.int_kinds.specs.declared.kinds.Kind.TheVariants as kind;
ghost use Rattle.capl_meaning.specs.Message.{kind_of_signal};
ghost use Rattle.capl_meaning.specs.Offences.{IsFirstOffence};
ghost use Rattle.capl_meaning.specs.Example.{broken, argument_missing, array_as_test, break_outside, empty_array, identifier_too_great, key_twice, label_twice, member_of_number, name_twice, number_assigned, number_too_great, recursion, this_in_start, too_few_arguments, too_many_elements, unknown_message, unknown_name, value_returned, variable_as_constant};
ghost use Rattle.std.specs.Prelude.{codes, neg_ℤ, pos, Some};
ghost use Rattle.run_effects.specs.declared.outcome.Outcome.TheVariants.{Cut, Done, Trapped};
ghost use Rattle.run_effects.specs.declared.outcome.TrapKind.TheVariants.{Index, ZeroDivisor};
ghost use Rattle.capl_meaning.specs.ChoiceExample.{added_to_message, broken_with, constant_assigned, constant_of_itself, direction_assigned, equal_ends, far_recursion, inner_block, labels_that_wrap, local_beside_function, long_message, message_added, message_stepped, message_too_long, mixed_case, needed_division, number_too_great_for_a_size, of_bits, one_channel_of_both, one_for_an_array, one_on_each_channel, text_assigned, text_in_parentheses, this_copied, unknown_in_size, unknown_to_message, unneeded_division, variable_in_size};
ghost use Rattle.capl_meaning.specs.RunExample.{counts, divides_by_zero, fills, keeps_its_local, left, needs_one_side, passes_the_end, puts_signals, ran, signals_put, two_messages, wraps, wrote};

/// A program has one first offence at most: two of them have the same file, token and rule number.
pub fn one_first_offence()
    ensures file { (base : List DbcMessage) (program : Program) (a b : Offence) →
        IsFirstOffence base program a → IsFirstOffence base program b → a.file ≡ b.file }
    ensures token { (base : List DbcMessage) (program : Program) (a b : Offence) →
        IsFirstOffence base program a → IsFirstOffence base program b → a.token ≡ b.token }
    ensures rule { (base : List DbcMessage) (program : Program) (a b : Offence) →
        IsFirstOffence base program a → IsFirstOffence base program b → a.rule.number ≡ b.rule.number }
{}

/// Each of these sources breaks its rule, at its token, and no other.
pub fn sources_break_their_rules()
    ensures unknown_name { broken unknown_name ≡ (3, 9) ∷ [] }
    ensures name_twice { broken name_twice ≡ (6, 10) ∷ [] }
    ensures unknown_message { broken unknown_message ≡ (2, 11) ∷ [] }
    ensures empty_array { broken empty_array ≡ (3, 12) ∷ [] }
    ensures array_as_test { broken array_as_test ≡ (11, 13) ∷ [] }
    ensures number_assigned { broken number_assigned ≡ (3, 14) ∷ [] }
    ensures this_in_start { broken this_in_start ≡ (7, 15) ∷ [] }
    ensures argument_missing { broken argument_missing ≡ (14, 16) ∷ [] }
    ensures too_few_arguments { broken too_few_arguments ≡ (5, 17) ∷ [] }
    ensures number_too_great { broken number_too_great ≡ (8, 18) ∷ [] }
    ensures variable_as_constant { broken variable_as_constant ≡ (8, 19) ∷ [] }
    ensures label_twice { broken label_twice ≡ (11, 20) ∷ [] }
    ensures identifier_too_great { broken identifier_too_great ≡ (2, 21) ∷ [] }
    ensures break_outside { broken break_outside ≡ (3, 22) ∷ [] }
    ensures value_returned { broken value_returned ≡ (3, 24) ∷ [] }
    ensures key_twice { broken key_twice ≡ (5, 25) ∷ [] }
    ensures recursion { broken recursion ≡ (5, 26) ∷ [] }
    ensures too_many_elements { broken too_many_elements ≡ (8, 27) ∷ [] }
    ensures member_of_number { broken member_of_number ≡ (6, 28) ∷ [] }
{}

/// Each of these sources breaks these rules at these tokens, and no others.
pub fn sources_at_the_edges()
    ensures message_too_long { broken_with long_message message_too_long ≡ (3, 23) ∷ [] }
    ensures local_beside_function { broken local_beside_function ≡ [] }
    ensures message_stepped { broken message_stepped ≡ (10, 14) ∷ [] }
    ensures message_added { broken message_added ≡ (13, 28) ∷ [] }
    ensures added_to_message { broken added_to_message ≡ (10, 14) ∷ (10, 28) ∷ [] }
    ensures unknown_to_message { broken unknown_to_message ≡ (12, 9) ∷ [] }
    ensures mixed_case { broken mixed_case ≡ (10, 28) ∷ [] }
    ensures direction_assigned { broken direction_assigned ≡ (10, 14) ∷ [] }
    ensures this_copied { broken this_copied ≡ (15, 14) ∷ [] }
    ensures text_assigned { broken text_assigned ≡ (8, 13) ∷ [] }
    ensures one_for_an_array { broken one_for_an_array ≡ (11, 27) ∷ [] }
    ensures variable_in_size { broken variable_in_size ≡ (8, 19) ∷ [] }
    ensures unknown_in_size { broken unknown_in_size ≡ (10, 9) ∷ [] }
    ensures number_too_great_for_a_size { broken number_too_great_for_a_size ≡ (5, 18) ∷ [] }
    ensures constant_of_itself { broken constant_of_itself ≡ (9, 19) ∷ [] }
    ensures constant_assigned { broken constant_assigned ≡ (9, 14) ∷ [] }
    ensures unneeded_division { broken unneeded_division ≡ [] }
    ensures needed_division { broken needed_division ≡ (8, 19) ∷ [] }
    ensures equal_ends { broken equal_ends ≡ [] }
    ensures one_on_each_channel { broken one_on_each_channel ≡ [] }
    ensures one_channel_of_both { broken one_channel_of_both ≡ (7, 25) ∷ [] }
    ensures far_recursion { broken far_recursion ≡ (5, 26) ∷ (15, 16) ∷ (15, 26) ∷ [] }
    ensures text_in_parentheses { broken text_in_parentheses ≡ [] }
    ensures labels_that_wrap { broken labels_that_wrap ≡ (15, 20) ∷ [] }
    ensures inner_block { broken inner_block ≡ [] }
{}

/// Signals of so many bits are of these kinds.
pub fn signals_have_these_kinds()
    ensures unsigned_31 { kind_of_signal (of_bits 31 false) ≡ kind.Long }
    ensures unsigned_32 { kind_of_signal (of_bits 32 false) ≡ kind.Dword }
    ensures unsigned_33 { kind_of_signal (of_bits 33 false) ≡ kind.Int64 }
    ensures unsigned_64 { kind_of_signal (of_bits 64 false) ≡ kind.Qword }
    ensures signed_32 { kind_of_signal (of_bits 32 true) ≡ kind.Long }
    ensures signed_33 { kind_of_signal (of_bits 33 true) ≡ kind.Int64 }
    ensures signed_64 { kind_of_signal (of_bits 64 true) ≡ kind.Int64 }
{}

/// Each of these event procedures does what was worked out by hand: its lines, how many turns it takes,
/// and how it ends; or what it leaves in its variables.
#[tactic(auto, unfolding(signal_codec::specs::Signal::payload_with))]
pub fn worked_procedures_end_so()
    ensures divides_by_zero { ran [] divides_by_zero 9 ≡ wrote (codes "a" ∷ []) 0 (Trapped ZeroDivisor) }
    ensures passes_the_end { ran [] passes_the_end 9 ≡ wrote (codes "ok" ∷ []) 0 (Trapped Index) }
    ensures counts { ran [] counts 9 ≡ wrote ((0 ∷ []) ∷ (1 ∷ []) ∷ (2 ∷ []) ∷ (3 ∷ []) ∷ []) 4 Done }
    ensures is_cut { ran [] counts 3 ≡ wrote ((0 ∷ []) ∷ (1 ∷ []) ∷ (2 ∷ []) ∷ []) 3 Cut }
    ensures keeps_its_local { ran [] keeps_its_local 9 ≡ wrote ((6 ∷ []) ∷ (7 ∷ []) ∷ []) 2 Done }
    ensures wraps { left [] wraps 9 ≡
        Some (pos 0 ∷ neg_ℤ (pos 32768) ∷ pos 4294967295 ∷ neg_ℤ (pos 2147483648) ∷ []) }
    ensures needs_one_side { ran [] needs_one_side 9 ≡ wrote (codes "y" ∷ []) 0 Done }
    ensures fills { ran [] fills 9 ≡ wrote (codes "[   ab][*  ]" ∷ []) 0 Done }
    ensures puts_signals { left two_messages puts_signals 9 ≡ Some signals_put }
{}
