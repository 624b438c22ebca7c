//! The words `run` and `check` of the program, with a file or none, by turns. The script ./clusterrun runs it as it
//! stands where nothing is built: it has far less code below it than the program, so that it is compiled sooner.
#![tactic(auto)]

mod answer;
mod program;

use es_engine::status_for;
use std::process::ExitCode;

fn main(rt: HostRuntime) -> ExitCode {
    let ended = program::run_program(&rt, &mut rt.stderr());
    ExitCode::from(status_for(ended))
}
