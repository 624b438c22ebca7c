//! Why there is no answer.

use es_script::{ReadFault, ScriptFault};
use es_value::NoMemory;

/// Why there is no answer to some bytes.
#[derive(Clone, Copy, Debug, PartialEq, Eq)]
pub enum TurnsFault {
    /// The plan has a fault.
    Script(ScriptFault),
    /// There was no memory.
    NoMemory,
    /// There are more bytes than a plan has at most.
    TooLong,
}

impl From<NoMemory> for TurnsFault {
    ghost use Rattle.std.specs.Prelude.{◌≡◌};
    ghost use Rattle.es_turns.specs.declared.fault.TurnsFault.TheVariants.{NoMemory};

    ghost from_gives = { λ _ e. e ≡ NoMemory };

    fn from(_: NoMemory) -> Self {
        TurnsFault::NoMemory
    }
}

impl From<ReadFault> for TurnsFault {
    ghost use Rattle.std.specs.Prelude.{◌≡◌};
    ghost use Rattle.es_turns.specs.Faults.{turns_fault};

    ghost from_gives = { λ f e. e ≡ turns_fault f };

    fn from(fault: ReadFault) -> Self {
        match fault {
            ReadFault::Script(fault) => TurnsFault::Script(fault),
            ReadFault::NoMemory => TurnsFault::NoMemory,
        }
    }
}
