//! What a job or a callback runs, while it is read.

ghost use Rattle.std.specs.Prelude.{◌≡◌, ◌∷◌, ◌++◌, ◌-◌, ◌≤◌, [], List, None, Some, length, OnOk, replicate};
ghost use Rattle.es_reading.specs.Lines.{Line};
ghost use Rattle.es_reading.specs.Run.{HasLines};

use es_event::{Command, OptionalName, Sequence};
use es_value::{Name, NoMemory};
use std::alloc::Global;

/// The commands so far, and the variables that catch their refusals, by their places up to the last that has one.
pub(crate) struct Run {
    pub commands: Sequence<Command>,
    pub catches: Sequence<OptionalName>,
}

impl Drop for Run {
    fn drop(self) {
        let Run {
            commands: _,
            catches: _,
        } = self;
    }
}

impl Run {
    pub fn new(alloc: Global) -> Run
        ensures { HasLines [] result }
    {
        Run {
            commands: Sequence::new(alloc),
            catches: Sequence::new(alloc),
        }
    }

    /// Its commands and its variables.
    pub fn into_parts(self) -> (Sequence<Command>, Sequence<OptionalName>)
        ensures { result ≡ (self.commands, self.catches) }
    {
        let Run { commands, catches } = self;
        (commands, catches)
    }

    /// One more command, and the variable that catches its refusal where it stands behind `try`. It fails for want of
    /// memory alone.
    pub fn push(
        &mut self,
        alloc: Global,
        catch: Option<Name>,
        command: Command,
    ) -> Result<(), NoMemory>
        ensures { OnOk result ((ls : List Line) → HasLines ls self.old → HasLines (ls ++ (catch, command) ∷ []) self.new) }
    {
        match catch {
            Some(to) => self.push_caught(alloc, to, command),
            None => self.commands.push(command),
        }
    }

    fn push_caught(&mut self, alloc: Global, to: Name, command: Command) -> Result<(), NoMemory>
        ensures { OnOk result ((ls : List Line) → HasLines ls self.old → HasLines (ls ++ (Some to, command) ∷ []) self.new) }
    {
        let place = self.commands.as_slice().len();
        fill(&mut self.catches, alloc, place)?;
        self.catches.push(OptionalName::some(alloc, to)?)?;
        self.commands.push(command)
    }
}

/// Nothing catches a refusal at the places up to this one that the list has not.
fn fill(catches: &mut Sequence<OptionalName>, alloc: Global, place: usize) -> Result<(), NoMemory>
    ensures { OnOk result (catches.new ≡ catches.old ++ replicate (place - length catches.old) None) }
{
    let missing = place.saturating_sub(catches.as_slice().len());
    for _ in 0..missing {
        catches.push(OptionalName::none(alloc)?)?;
    }
    Ok(())
}
