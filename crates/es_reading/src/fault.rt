//! What is wrong with a plan, and where.

ghost use Rattle.std.specs.Prelude.{◌≡◌};
ghost use Rattle.es_reading.specs.Places.{at};

use es_value::NoMemory;
use std::alloc::{AllocError, AllocFailed};
use thiserror::Error;

/// What is wrong with a plan's text. It is printed as `S1` to `S10`.
#[derive(Clone, Copy, Debug, PartialEq, Eq)]
pub enum FaultCode {
    /// S1: the bytes are no JSON text in UTF-8.
    NotJson,
    /// S2: the value has not the shape of a plan.
    Shape,
    /// S3: the version is not one that is read.
    Version,
    /// S4: there is no agent, or there are more than a plan has at most.
    AgentCount,
    /// S5: a name is not spelled as one, or an agent's name was used by an earlier agent.
    Name,
    /// S6: there is no such callback, or no such other agent.
    Unknown,
    /// S7: the command is unknown, or its operands are of a wrong number or JSON kind.
    Operands,
    /// S8: a number or a text is outside the profile.
    Profile,
    /// S9: a callback collects.
    Collection,
    /// S10: there are more callbacks, jobs, commands or words than the limits allow.
    Limit,
}

impl FaultCode {
    ghost use Rattle.std.specs.Prelude.{◌≡◌};
    ghost use Rattle.es_reading.specs.Numbers.{number_of};

    /// Its number, 1 to 10.
    pub fn number(self) -> u8
        ensures { result ≡ number_of self }
    {
        match self {
            FaultCode::NotJson => 1,
            FaultCode::Shape => 2,
            FaultCode::Version => 3,
            FaultCode::AgentCount => 4,
            FaultCode::Name => 5,
            FaultCode::Unknown => 6,
            FaultCode::Operands => 7,
            FaultCode::Profile => 8,
            FaultCode::Collection => 9,
            FaultCode::Limit => 10,
        }
    }
}

/// Where a fault is. Agents are counted from 0; the callbacks of an agent from 1, by rising byte
/// order of their names; its jobs from 1.
#[derive(Clone, Copy, Debug, PartialEq, Eq)]
pub enum Place {
    /// In the whole text.
    Whole,
    /// In an agent.
    Agent(usize),
    /// In a callback of an agent.
    Callback(usize, usize),
    /// In a job of an agent.
    Job(usize, usize),
}

/// The first fault of a plan's text.
#[derive(Clone, Copy, Debug, PartialEq, Eq)]
pub struct ScriptFault {
    /// What is wrong.
    pub code: FaultCode,
    /// Where.
    pub place: Place,
    /// In which command of the callback or job, counted from 1; 0 where it is in none.
    pub command: usize,
}

/// Why no plan was read. As an error it has a word or two, without the fault's place.
#[derive(Clone, Copy, Debug, PartialEq, Eq, Error)]
pub enum ReadFault {
    /// The text has a fault.
    #[error("faulty plan")]
    Script(ScriptFault),
    /// There was no memory.
    #[error("no memory")]
    NoMemory,
}

impl From<NoMemory> for ReadFault {
    ghost use Rattle.std.specs.Prelude.{◌≡◌};
    ghost use Rattle.es_reading.specs.declared.fault.ReadFault.TheVariants.{NoMemory};

    ghost from_gives = { λ _ e. e ≡ NoMemory };

    fn from(_: NoMemory) -> Self {
        ReadFault::NoMemory
    }
}

impl<T: Drop> From<AllocFailed<T>> for ReadFault {
    ghost use Rattle.std.specs.Prelude.{◌≡◌};
    ghost use Rattle.es_reading.specs.declared.fault.ReadFault.TheVariants.{NoMemory};

    ghost from_gives = { λ _ e. e ≡ NoMemory };

    fn from(_: AllocFailed<T>) -> Self {
        ReadFault::NoMemory
    }
}

/// Where the reader is: a place, and the command in it, counted from 1; 0 outside of commands.
#[derive(Clone, Copy, Debug)]
pub struct Spot {
    /// The place.
    pub place: Place,
    /// The command, or 0.
    pub command: usize,
}

impl Spot {
    ghost use Rattle.std.specs.Prelude.{◌≡◌};
    ghost use Rattle.es_reading.specs.Reading.{fault_at};

    /// A fault here.
    pub fn fault(self, code: FaultCode) -> ReadFault
        ensures { result ≡ ReadFault.Script (fault_at self code) }
    {
        ReadFault::Script(ScriptFault {
            code,
            place: self.place,
            command: self.command,
        })
    }
}

/// A fault at a place, in no command.
pub fn fault_in(place: Place, code: FaultCode) -> ReadFault
    ensures { result ≡ ReadFault.Script (at place 0 code) }
{
    Spot { place, command: 0 }.fault(code)
}
