//! What the program says of words that ask for no plan: help, the version, and a word that is none. The script
//! ./clusterrun runs it as it stands where nothing is built: it has far less code below it than the program, so that
//! it is compiled sooner.
#![tactic(auto)]

mod shown;

use std::process::ExitCode;

fn main(rt: HostRuntime) -> ExitCode {
    ExitCode::from(shown::show_words(&rt, &mut rt.stderr()).status())
}
