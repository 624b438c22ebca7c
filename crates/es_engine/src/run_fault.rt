//! Why a run did not end well.

use es_run::RunStop;
use es_script::{ReadFault, ScriptFault};
use es_value::NoMemory;
use thiserror::Error;

/// Why a run did not end well. As an error it has a word or two, without the fault's place.
#[derive(Clone, Copy, Debug, PartialEq, Eq, Error)]
pub enum RunFault {
    /// The plan has a fault.
    #[error("faulty plan")]
    Script(ScriptFault),
    /// There was no memory, or a thread could not be made.
    #[error("no memory")]
    NoMemory,
    /// The histories of a run in threads are not those of one cluster.
    #[error("no match")]
    Mismatch,
    /// The reader failed, or gave more bytes than a plan has at most.
    #[error("failed reading")]
    Read,
    /// The writer failed.
    #[error("failed writing")]
    Write,
}

impl From<NoMemory> for RunFault {
    ghost use Rattle.std.specs.Prelude.{◌≡◌};
    ghost use Rattle.es_engine.specs.declared.run_fault.RunFault.TheVariants.{NoMemory};

    ghost from_gives = { λ _ e. e ≡ NoMemory };

    fn from(_: NoMemory) -> Self {
        RunFault::NoMemory
    }
}

impl From<ReadFault> for RunFault {
    ghost use Rattle.std.specs.Prelude.{◌≡◌};
    ghost use Rattle.es_engine.specs.Faults.{run_fault};

    ghost from_gives = { λ f e. e ≡ run_fault f };

    fn from(fault: ReadFault) -> Self {
        match fault {
            ReadFault::Script(fault) => RunFault::Script(fault),
            ReadFault::NoMemory => RunFault::NoMemory,
        }
    }
}

impl From<RunStop> for RunFault {
    ghost use Rattle.std.specs.Prelude.{◌≡◌};
    ghost use Rattle.es_engine.specs.Faults.{stop_fault};

    ghost from_gives = { λ s e. e ≡ stop_fault s };

    fn from(stop: RunStop) -> Self {
        match stop {
            RunStop::NoMemory => RunFault::NoMemory,
            RunStop::Mismatch => RunFault::Mismatch,
        }
    }
}
