//! What the words of the command line ask for.

use es_options::{Options, View};

/// What the words of the command line ask for.
#[derive(Clone, Copy, Debug, PartialEq, Eq)]
pub enum Request {
    /// A run of a plan, or only a check of it.
    Run(Options),
    /// Whether two agents race for a word, in a run of a plan by turns.
    Races,
    /// What the first fault of a plan is.
    Explain,
    /// What happened in a run of a plan, by turns, and what of it is shown.
    Trace(View),
}
