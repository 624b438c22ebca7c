//! A command of a plan, as the event that did it has it.

ghost use Rattle.std.specs.Prelude.{◌≡◌, ◌<◌, Some, length, slice_get, IfOk};

use crate::{Command, SharedList};
use es_value::NoMemory;
use std::marker::Model;

/// A command of a job or a callback, which contracts see as the command alone: the list that it stands in,
/// which the plan shares, and its place there. So an event copies no name and no operand.
#[derive(Drop)]
pub struct PlanCommand {
    pub(crate) commands: SharedList<Command>,
    pub(crate) place: u32,
}

impl Model for PlanCommand {
    ghost use Rattle.std.specs.Prelude.{◌<◌, length, slice_index_or};
    ghost use Rattle.es_event.specs.declared.command.Command.{Command as CommandSaid};
    ghost use Rattle.es_event.specs.declared.command.Command.TheVariants.{Collect};

    ghost Value = { CommandSaid };

    ghost view = { λ c. slice_index_or c.commands c.place Collect };

    ghost invariant = { λ c. c.place < length c.commands };
}

impl PlanCommand {
    /// The command at this place. An error where the place is past 2^32, or the list has more owners than can be
    /// counted.
    pub fn at(commands: &SharedList<Command>, place: usize) -> Result<PlanCommand, NoMemory>
        requires { place < length commands.now }
        ensures { IfOk result (λ c. slice_get commands.now place ≡ Some c) }
    {
        let place = u32::try_from(place).map_err(|_| NoMemory)?;
        let commands = commands.copy()?;
        Ok(PlanCommand { commands, place })
    }

    /// The command.
    pub fn get(&self) -> &Command
        ensures { result.now ≡ self.now }
    {
        &self.commands.as_slice()[self.place as usize]
    }
}
