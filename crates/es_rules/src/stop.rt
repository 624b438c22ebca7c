//! Why a command was not done.

use es_event::Refusal;
use es_value::NoMemory;

/// Why a command was not done: the rules refuse it, or there was no memory.
#[derive(Clone, Copy, Debug)]
pub enum Stop {
    /// The rules refuse the command.
    Refused(Refusal),
    /// A growth was refused.
    NoMemory,
}

impl From<Refusal> for Stop {
    ghost use Rattle.std.specs.Prelude.{◌≡◌};
    ghost use Rattle.es_rules.specs.declared.stop.Stop.TheVariants.{Refused};

    ghost from_gives = { λ code e. e ≡ Refused code };

    fn from(code: Refusal) -> Self {
        Stop::Refused(code)
    }
}

impl From<NoMemory> for Stop {
    ghost use Rattle.std.specs.Prelude.{◌≡◌};
    ghost use Rattle.es_rules.specs.declared.stop.Stop.TheVariants.{NoMemory};

    ghost from_gives = { λ _ e. e ≡ NoMemory };

    fn from(_: NoMemory) -> Self {
        Stop::NoMemory
    }
}
