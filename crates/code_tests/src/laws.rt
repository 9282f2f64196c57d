// Calls of the laws on typed trees and their code.

#[test]
fn trees_have_laws() {
    typed_tree::laws::no_turns_are_added();
    typed_tree::laws::turns_left_are_enough();
}

#[test]
fn code_has_laws() {
    code_listing::laws::code_has_its_size();
    code_listing::laws::expressions_do_what_they_mean();
    code_listing::laws::examples_have_their_listings();
}

#[test]
fn code_keeps_the_rules() {
    code_verified::laws::code_is_verified();
}
