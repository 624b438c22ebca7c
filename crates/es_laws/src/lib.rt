//! The laws of the definitions: what holds of every history, plan and run that they allow, each the contract of
//! a function that does nothing. And examples of what histories mean: small histories worked by hand that the
//! definitions accept, and their neighbours, which they refuse. Nothing that runs stands on either.
#![tactic(auto)]

mod laws;
mod memory;

pub use laws::{
    Members, a_caught_refusal_assigns_its_text_alone, a_closed_set_stays_closed,
    a_message_may_come, a_plan_has_one_outcome, a_plan_has_one_whole_run,
    a_refusal_changes_nothing, each_registration_has_one_fate, each_run_comes_to_its_end,
    fates_move_forward, keys_are_those_of_properties, later_tests_lose_nothing,
    no_callback_runs_while_one_is_open, no_cleanup_is_lost, no_later_collection_stays_open,
    nothing_dead_is_live, nothing_emptied_was_live, nothing_is_left_open, nothing_is_taken_twice,
    nothing_kept_is_gone, nothing_late_is_live, nothing_reached_is_gone,
    nothing_that_a_closed_set_lacks_is_live, one_event_comes_next, reached_is_led_to,
    some_event_comes_next, tests_lose_nothing, the_dead_are_one_list, the_dead_can_be_listed,
    the_late_are_one_list, the_late_are_the_dead, the_late_can_be_listed,
    what_a_cell_holds_is_live, what_a_deref_gave_stays, what_is_heard_settles_a_run,
    what_is_held_is_live, what_is_reached_with_these_is_led_to,
};
pub use memory::{
    a_word_stays_till_it_is_written, accesses_have_one_order, no_add_loses_another,
    what_was_stored_before_a_post_is_seen,
};
