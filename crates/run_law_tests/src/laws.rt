// Calls of the laws on the choice of procedures, on the code of sources and their runs, on orders of tasks,
// and on logs.

use arbitration::PlainBus;
use run_laws::{CodeAndSource, Sources};
use run_records::MemRecord;
use source_logs::SourceReaction;

#[test]
fn code_does_as_its_source() {
    source_laws::laws::compiled_procedures_end_as_in_the_source();
    source_laws::laws::code_follows_its_source();
    source_laws::laws::sources_do_each_task_in_one_way();
    node_run::laws::nodes_do_each_task_in_one_way();
}

#[test]
fn sources_run_as_their_code() {
    run_laws::laws::runs_of_code_are_runs_of_sources::<PlainBus>();
    run_laws::laws::sources_have_one_run::<PlainBus>();
    run_laws::laws::sources_have_a_run::<PlainBus>();
    node_rounds::laws::equal_parts::<CodeAndSource>();
    node_rounds::laws::timers_move_on::<CodeAndSource>();
    run_meaning::laws::equal_runs::<CodeAndSource, PlainBus>();
    run_meaning::laws::each_run::<Sources, PlainBus>();
    run_meaning::laws::one_run::<Sources, PlainBus>();
    run_meaning::laws::picks_change_no_row();
}

#[test]
fn each_order_of_tasks_comes_to_the_same() {
    task_orders::laws::neighbours_change_places::<Sources, PlainBus>();
    task_orders::laws::picks_give_an_interleaving::<Sources, PlainBus>();
    task_orders::laws::picks_are_found::<Sources, PlainBus>();
    task_orders::laws::interleavings_end_alike::<Sources, PlainBus>();
    task_orders::laws::picks_change_order_alone();
    task_orders::laws::picks_change_no_meter();
    sim_core::laws::neighbours_change_places::<PlainBus>();
    sim_core::laws::interleavings_end_alike::<PlainBus, MemRecord>();
    sim_core::laws::picks_choose_an_interleaving::<PlainBus, MemRecord>();
    sim_core::laws::picks_change_order_alone::<PlainBus, MemRecord>();
}

#[test]
fn logs_are_well_spaced_and_replayed() {
    replay_laws::laws::recorded::<SourceReaction>();
    replay_laws::laws::reproduced::<SourceReaction>();
    replay_laws::laws::recorded_and_reproduced::<SourceReaction, SourceReaction>();
    replay_laws::laws::replays_can_be_logged();
    replay_laws::laws::scenarios_can_be_replayed();
    source_logs::laws::sources_ask_for_what_a_log_can_carry();
    source_logs::laws::silent_sources_ask_for_nothing();
    source_logs::laws::sources_log_well_spaced_frames();
    source_logs::laws::silent_sources_reproduce_a_log();
}

#[test]
fn selectors_choose_one_procedure() {
    msg_select::laws::one_choice();
    msg_select::laws::any_order();
}
