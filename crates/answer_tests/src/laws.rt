// Calls of the laws of all inputs, of the programs among them, and of the turns that sources take.

#[test]
fn each_text_has_a_reading_or_a_refusal() {
    whole_readings::laws::each_text_has_tokens_or_a_bad_place();
    whole_readings::laws::each_text_is_a_scenario_or_breaks_a_rule();
    whole_readings::laws::each_text_is_a_database_or_has_a_wrong_statement();
    whole_readings::laws::each_log_has_a_replay_or_a_bad_line();
    whole_readings::laws::each_token_list_is_right_or_has_a_first_break();
    whole_readings::laws::each_token_list_spells_a_tree_or_has_a_first_wrong();
    whole_readings::laws::each_program_is_right_or_has_a_first_offence();
    whole_readings::laws::each_expansion_has_an_outcome();
}

#[test]
fn each_input_has_one_answer() {
    sim_answers::laws::one_of_three_holds();
    sim_answers::laws::each_input_has_one_answer();
    sim_answers::laws::commands_without_a_blame_have_a_whole_answer();
}

#[test]
fn sources_are_cut_for_want_of_turns_alone() {
    meaning_laws::laws::no_turns_are_added();
    meaning_laws::laws::turns_left_are_enough();
    meaning_laws::laws::cuts_leave_no_turn();
}

#[test]
fn trees_of_texts_are_small() {
    small_trees::laws::tokens_of_texts_are_small();
    small_trees::laws::programs_of_small_texts_are_readable();
    small_trees::laws::programs_weigh_eight_times_their_tokens();
    small_trees::laws::programs_declare_no_more_than_their_tokens();
}

#[test]
fn programs_without_offences_are_sound() {
    sound_programs::laws::needed_expressions_are_numbers();
    sound_programs::laws::statements_have_sound_trees();
    sound_programs::laws::programs_have_their_tables();
    sound_programs::laws::programs_have_sound_formats();
    sound_programs::laws::programs_keep_events_apart();
    sound_programs::laws::programs_have_sound_procedures();
    sound_programs::laws::programs_have_held_starts();
    sound_programs::laws::functions_do_not_reach_their_callers();
    sound_programs::laws::light_programs_have_short_lists();
    sound_programs::laws::programs_without_offences_are_sound();
}
