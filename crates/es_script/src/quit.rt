//! Why a plan is not read quickly.

use es_reading::ReadFault;
use es_value::{NameFault, NoMemory};
use json::Invalid;
use std::alloc::{AllocError, AllocFailed};

/// Why a plan is not read quickly.
#[derive(Clone, Copy, Debug, Drop)]
pub enum Quit {
    /// The text is written in an unusual way, or is that of no plan.
    Unusual,
    /// There was no memory.
    NoMemory,
}

impl From<NoMemory> for Quit {
    fn from(_: NoMemory) -> Self {
        Quit::NoMemory
    }
}

impl From<AllocError> for Quit {
    fn from(_: AllocError) -> Self {
        Quit::NoMemory
    }
}

impl<T: Drop> From<AllocFailed<T>> for Quit {
    fn from(_: AllocFailed<T>) -> Self {
        Quit::NoMemory
    }
}

impl From<Invalid> for Quit {
    fn from(_: Invalid) -> Self {
        Quit::Unusual
    }
}

impl From<NameFault> for Quit {
    fn from(fault: NameFault) -> Self {
        match fault {
            NameFault::BadName => Quit::Unusual,
            NameFault::NoMemory => Quit::NoMemory,
        }
    }
}

impl From<ReadFault> for Quit {
    fn from(fault: ReadFault) -> Self {
        match fault {
            ReadFault::Script(_) => Quit::Unusual,
            ReadFault::NoMemory => Quit::NoMemory,
        }
    }
}
