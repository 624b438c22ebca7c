//! How the program ends, and its status.

ghost use Rattle.std.specs.Prelude.{◌≡◌};
ghost use Rattle.es_engine.specs.Statuses.{status_for};

use crate::RunFault;

/// How the program ended.
#[derive(Clone, Copy, Debug, PartialEq, Eq)]
pub enum Ending {
    /// What was asked for ended well, after so many audits beside it. Its caller says so once what was
    /// written has reached standard output.
    Done(u32),
    /// The plan has no fault, and what it is warned of was told.
    Warned,
    /// The words asked for help, and its caller has shown it.
    Helped,
    /// The words are none of the program's.
    Mistaken,
    /// The run, or the writing of help, did not end well.
    Failed(RunFault),
}

/// The program's status: 0 where all went well or help was shown, 1 where the plan has a fault, 2 for
/// mistaken words, 3 for want of memory, 4 where reading or writing failed, 5 where histories do not match.
pub fn status_for(ending: Ending) -> u8
    ensures { result ≡ status_for ending }
{
    match ending {
        Ending::Done(_) | Ending::Warned | Ending::Helped => 0,
        Ending::Failed(RunFault::Script(_)) => 1,
        Ending::Mistaken => 2,
        Ending::Failed(RunFault::NoMemory) => 3,
        Ending::Failed(RunFault::Read | RunFault::Write) => 4,
        Ending::Failed(RunFault::Mismatch) => 5,
    }
}
