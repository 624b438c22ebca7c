//! What is done in the place of a command whose refusal is caught.

ghost use Rattle.std.specs.Prelude.{◌≡◌, ◌∷◌, [], IfOk};
ghost use Rattle.es_event.specs.Report.{refusal_text};

use crate::literal::Literal;
use crate::{Answer, Command, Done, PlanCommand, Refusal, Sequence, SharedList};
use es_value::{Name, NoMemory, Text, TextFault, Value};
use std::alloc::Global;

/// The assignment of the refusal's text (ECMA-262, TryStatement), done. It fails for want of memory alone.
pub fn catch_refusal(alloc: Global, to: &Name, code: Refusal) -> Result<Done, NoMemory>
    ensures { IfOk result (λ d. d ≡ (Command.Let to.now (Literal.Text (refusal_text code)), [], Answer.Gives (Value.Text (refusal_text code)))) }
{
    let text = text_of(alloc, code)?;
    let literal = Literal::Text(text.copy()?);
    let command = Command::Let {
        to: to.copy()?,
        literal,
    };
    let mut done = Done::of(alone(alloc, command)?);
    done.give(alloc, Answer::Gives(Value::Text(text)))?;
    Ok(done)
}

/// The refusal's text, as a variable has it.
fn text_of(alloc: Global, code: Refusal) -> Result<Text, NoMemory>
    ensures { IfOk result (λ t. t ≡ refusal_text code) }
{
    match Text::read(alloc, code.text()) {
        Ok(text) => Ok(text),
        Err(TextFault::NoMemory) => Err(NoMemory),
        Err(TextFault::BadText) => unreachable!(),
    }
}

/// A command that stands in no plan, as its event has it: in a list of its own.
fn alone(alloc: Global, command: Command) -> Result<PlanCommand, NoMemory>
    ensures { IfOk result (λ c. c ≡ command) }
{
    let commands = Vec::from_array(alloc, [command])?;
    let commands = SharedList::of(Sequence::from_vec(commands))?;
    PlanCommand::at(&commands, 0)
}
