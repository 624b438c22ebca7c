//! What comes next by the plan.

ghost use Rattle.std.specs.Prelude.{◌≡◌, drop, slice_get, unwrap_or, Option, None};
ghost use Rattle.std.specs.Option.{option_copied};
ghost use Rattle.es_event.specs.History.{History};
ghost use Rattle.es_event.specs.Due.{shown, due_of};

use crate::{Command, OptionalName};
use es_value::Name;

/// What comes next by the plan.
#[derive(Clone, Copy)]
pub enum Due<'a> {
    /// The job of this number, counted from 1, begins.
    Begin(usize),
    /// The job of this number, counted from 1, takes a message of its sender, or is skipped.
    Receive { job: usize, sender: usize },
    /// A command is run, and the variable, if there is one, catches its refusal (ECMA-262, TryStatement).
    Run(Option<&'a Name>, &'a Command),
    /// The cleanup job of the registry that is first in the queue begins: the number of its identity.
    Clean(u32),
    /// The running cleanup job takes the cell of the registration of this number.
    Take(usize),
    /// The running job ends, once the open later collection is finished, if there is one.
    EndJob,
    /// The agent closes.
    Close,
    /// Nothing comes any more.
    Nothing,
}

/// The next of these commands, or the job's end. What catches refusals stands beside them, by their places.
#[inline(always)]
pub fn due_command<'a>(commands: &'a [Command], catches: &'a [OptionalName], at: usize) -> Due<'a>
    ensures { (o : Option History) → shown o result ≡ due_of o (unwrap_or (slice_get catches.now at) None) (drop at commands.now) }
{
    match commands.get(at) {
        Some(command) => Due::Run(caught_in(catches, at), command),
        None => Due::EndJob,
    }
}

/// The variable that catches the refusal of the command at this place, if one does.
#[inline(always)]
fn caught_in(catches: &[OptionalName], at: usize) -> Option<&Name>
    ensures { option_copied result ≡ unwrap_or (slice_get catches.now at) None }
{
    match catches.get(at) {
        Some(name) => name.get(),
        None => None,
    }
}
