//! What holds of runs as a whole. By turns an agent's next event, with what it does in the ledger, is settled by what it
//! is and did and by what the ledger says, so two runs of one plan come to the same end; each agent that is asked takes a
//! turn, so each plan comes to an end. A run in threads comes to nothing that turns do not come to. A sleeper's block
//! stays. And of plans whose agents never sleep (Atomics.wait and notify): those that share no words, or whose accesses
//! to words messages order, do the same, whatever their order.
#![tactic(auto)]

mod races;
mod sleepers;
mod threads;
mod turns;
mod without_words;

pub use races::{
    messages_alone_do_not_race, messages_alone_do_not_race_by_turns, without_races_no_turns_race,
    without_races_threads_report_as_by_turns, without_races_threads_say_as_by_turns,
    without_races_turns_say_alike,
};
pub use sleepers::a_sleepers_block_is_not_released;
pub use threads::{
    by_turns_is_an_outcome, each_plan_has_an_outcome, threads_end_as_turns_do,
    threads_refine_turns, threads_report_as_turns_do, turns_are_outcomes,
};
pub use turns::{
    each_agent_takes_a_turn, each_plan_comes_to_an_end, no_cluster_is_stuck, turns_are_one_run,
    turns_have_one_end, what_is_left_comes_to_an_end, what_is_left_has_one_end,
};
pub use without_words::{
    messages_report_alike, messages_say_alike, messages_say_alike_in_threads,
    threads_report_as_by_turns,
};
