//! Where an agent's plan mentions its variables, and how.

ghost use Rattle.std.specs.Prelude.{◌≡◌};
ghost use Rattle.es_warnings.specs.Mentions.{manner_of as manner_said, of_literal as of_literal_said};

use es_event::{Command, Literal};

/// The part of an agent's plan that a command stands in.
#[derive(Clone, Copy, Debug, PartialEq, Eq)]
pub enum Section {
    /// The job of this number, counted from 0.
    Job(usize),
    /// The callback of this number, counted from 0.
    Callback(usize),
}

/// Where a command stands in an agent's plan.
#[derive(Clone, Copy, Debug, PartialEq, Eq)]
pub struct Place {
    /// What it stands in.
    pub section: Section,
    /// Its number there, counted from 0.
    pub index: usize,
}

/// How a variable is mentioned.
#[derive(Clone, Copy, Debug, PartialEq, Eq)]
pub(crate) enum Manner {
    /// Its value is taken.
    Read,
    /// It is assigned a literal, something new or the answer to a question.
    Answered,
    /// It is assigned in another way.
    Assigned,
}

/// How the command mentions the variable that it assigns.
pub(crate) fn manner_of(command: &Command) -> Manner
    ensures { result ≡ manner_said command.now }
{
    match command {
        Command::Let { literal, .. } => of_literal(literal),
        Command::New { .. }
        | Command::Symbol { .. }
        | Command::SymbolFor { .. }
        | Command::Same { .. }
        | Command::WeakMap { .. }
        | Command::WeakMapHas { .. }
        | Command::WeakSet { .. }
        | Command::WeakSetHas { .. }
        | Command::FinalizationRegistry { .. }
        | Command::SharedArrayBuffer { .. }
        | Command::Length { .. }
        | Command::SameBlock { .. } => Manner::Answered,
        _ => Manner::Assigned,
    }
}

/// Undefined lets go what the variable held.
fn of_literal(literal: &Literal) -> Manner
    ensures { result ≡ of_literal_said literal.now }
{
    match literal {
        Literal::Undefined => Manner::Assigned,
        Literal::Boolean(_) | Literal::Number(_) | Literal::Text(_) => Manner::Answered,
    }
}
