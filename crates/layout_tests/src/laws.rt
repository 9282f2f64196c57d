// Calls of the laws on what a program means, and on its typed program.

#[test]
fn meaning_has_laws() {
    capl_meaning::laws::one_first_offence();
    capl_meaning::laws::sources_break_their_rules();
    capl_meaning::laws::sources_at_the_edges();
    capl_meaning::laws::signals_have_these_kinds();
    capl_meaning::laws::worked_procedures_end_so();
}

#[test]
fn typed_trees_mean_their_sources() {
    typed_laws::laws::event_procedures_end_as_in_the_source();
    typed_laws::laws::accepted_programs_declare_no_name_twice();
    typed_laws::laws::what_is_not_seen_changes_nothing();
    typed_laws::laws::cells_hold_the_store();
    typed_laws::laws::broken_expressions_have_trees();
    typed_laws::laws::broken_statements_have_trees();
}

#[test]
fn sources_have_typed_programs() {
    typed_source::laws::trees_do_what_their_parts_do();
    typed_source::laws::typed_programs_do_what_their_sources_do();
    typed_source::laws::numbers_have_sound_trees();
    typed_source::laws::tables_have_what_names_need();
    typed_source::laws::code_is_within_the_weight();
}
