//! A command that was done, as the event that did it has it.

ghost use Rattle.std.specs.Prelude.{◌≡◌, ◌<◌, ◌++◌, ◌∷◌, [], length, OnOk};
ghost use Rattle.es_event.specs.Answers.{answer_said};

use crate::kept::Kept;
use crate::{Answer, Command, PlanCommand, Sequence, SharedList};
use es_value::{Name, NoMemory, Value};
use std::alloc::Global;
use std::marker::Model;

/// A command that was done, which contracts see as the command, the values of the variables that it read,
/// and what it gave.
///
/// It takes 64 bytes. Three values lie in place, be they read or given; of more there is a list.
pub struct Done {
    commands: SharedList<Command>,
    kept: Kept,
}

impl Drop for Done {
    #[inline]
    fn drop(self) {
        let Done {
            commands: _,
            kept: _,
        } = self;
    }
}

impl Model for Done {
    ghost use Rattle.std.specs.Prelude.{◌≡◌, List, ◌<◌, length, true, slice_index_or};
    ghost use Rattle.es_value.specs.declared.value.Value.{Value as Operand};
    ghost use Rattle.es_event.specs.declared.command.Command.{Command as CommandSaid};
    ghost use Rattle.es_event.specs.declared.command.Command.TheVariants.{Collect};
    ghost use Rattle.es_event.specs.declared.event.Answer.{Answer as AnswerSaid};
    ghost use Rattle.es_event.specs.declared.event.Answer.TheVariants.{Nothing};
    ghost use Rattle.es_event.specs.Kept.{place_in, values_in, answer_in, has_room};

    ghost Value = { CommandSaid × List Operand × AnswerSaid };

    ghost view = { λ d. (slice_index_or d.commands (place_in d.kept) Collect, values_in d.kept, answer_in d.kept) };

    ghost invariant = { λ d. (place_in d.kept < length d.commands) × (answer_in d.kept ≡ Nothing → length (values_in d.kept) < 3 → has_room d.kept ≡ true) };
}

/// What a command gave, where it is kept.
#[derive(Clone, Copy)]
pub enum AnswerRef<'a> {
    /// Nothing.
    Nothing,
    /// The value that it assigns.
    Gives(&'a Value),
    /// An object's keys, in order.
    Listed(&'a [Name]),
}

impl Done {
    /// A command that is done; it read and gave nothing yet.
    #[inline(always)]
    pub fn of(command: PlanCommand) -> Done
        ensures { result ≡ (command, [], Answer.Nothing) }
    {
        let PlanCommand { commands, place } = command;
        let kept = Kept::none(place);
        Done { commands, kept }
    }

    /// It read this value too, the third at most. It gave nothing yet.
    #[inline(always)]
    pub fn read(&mut self, value: Value)
        requires few { length self.old.1 < 3 }
        requires nothing { self.old.2 ≡ Answer.Nothing }
        ensures { self.new ≡ (self.old.0, self.old.1 ++ value ∷ [], Answer.Nothing) }
    {
        self.kept.read(value);
    }

    /// It read these values, more than three, and none before. It gave nothing yet.
    pub fn read_all(&mut self, values: Sequence<Value>)
        requires many { 3 < length values }
        requires nothing { (self.old.1 ≡ []) × (self.old.2 ≡ Answer.Nothing) }
        ensures { self.new ≡ (self.old.0, values, Answer.Nothing) }
    {
        self.kept.read_all(values);
    }

    /// The command.
    #[inline(always)]
    pub fn command(&self) -> &Command
        ensures { result.now ≡ self.now.0 }
    {
        let place = self.kept.place() as usize;
        &self.commands.as_slice()[place]
    }

    /// The values of the variables that it read, in order.
    #[inline(always)]
    pub fn values(&self) -> &[Value]
        ensures { result.now ≡ self.now.1 }
    {
        self.kept.values()
    }

    /// What it gave.
    #[inline(always)]
    pub fn answer(&self) -> AnswerRef<'_>
        ensures { answer_said result ≡ self.now.2 }
    {
        self.kept.answer()
    }

    /// It gives this answer. That takes memory where more than three values are read and given, or keys; where there
    /// is none, nothing is said of what it read and gave.
    #[inline(always)]
    pub fn give(&mut self, alloc: Global, answer: Answer) -> Result<(), NoMemory>
        requires { self.old.2 ≡ Answer.Nothing }
        ensures { OnOk result (self.new ≡ (self.old.0, self.old.1, answer)) }
    {
        match answer {
            Answer::Nothing => Ok(()),
            Answer::Gives(value) => self.kept.give(alloc, value),
            Answer::Listed(keys) => self.kept.list(alloc, keys),
        }
    }
}
