//! Moves the agents of a plan by a list of turns. By the calls of es_agent and es_ledger, where a call that
//! finds no memory is made once more, or all is given up there: what `tests/program/refused_calls.py` looks at, with
//! each growth refused in turn. Or as a cluster, with an audit after each turn, and then to their ends: what
//! `tests/program/turns.py` compares with the second implementation.
#![tactic(auto)]

mod alone;
mod asking;
mod cluster;
mod fault;
mod given;
mod play;
mod player;
mod repeats;
mod seating;
mod taking;
mod telling;

use std::process::ExitCode;

fn main(rt: HostRuntime) -> ExitCode {
    match play::play_words(&rt) {
        Ok(()) => ExitCode::SUCCESS,
        Err(_) => ExitCode::FAILURE,
    }
}
