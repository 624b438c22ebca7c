//! Why a run of threads did not end well.

use es_value::NoMemory;

/// Why a run of threads did not end well. All tickets were spent.
#[derive(Clone, Copy, Debug, PartialEq, Eq)]
pub enum RunStop {
    /// There was no memory, or a thread could not be made.
    NoMemory,
    /// The histories are not those of one cluster whose agents have ended, or an agent is not in its
    /// place.
    Mismatch,
}

impl From<NoMemory> for RunStop {
    ghost use Rattle.std.specs.Prelude.{◌≡◌};
    ghost use Rattle.es_outcome.specs.declared.stop.RunStop.TheVariants.{NoMemory};

    ghost from_gives = { λ _ e. e ≡ NoMemory };

    fn from(_: NoMemory) -> Self {
        RunStop::NoMemory
    }
}
