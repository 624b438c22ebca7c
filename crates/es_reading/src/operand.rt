//! What can be an operand of a command.

ghost use Rattle.std.specs.Prelude.{◌≡◌};
ghost use Rattle.es_reading.specs.Forms.{OperandType, name, literal, text, callback, agent, whole, amount, words, Meaning, fits};
ghost use Rattle.es_reading.specs.Reading.{Gives, said, operand_read};
ghost use Rattle.es_reading.specs.Part.{part_data};

use crate::ReadFault;
use crate::fault::{FaultCode, Spot};
use crate::known_names::KnownNames;
use crate::part::Part;
use crate::scope::Scope;
use crate::spelled::{agent_named, callback_named, name_of, text_of, whole_of, words_of};
use es_event::{Literal, Operand as Amount};
use es_value::{Name, Text};

/// What can be an operand of a command.
pub(crate) trait Operand: Sized + Drop {
    ghost kind: { OperandType };

    ghost meaning: { Self → Meaning kind };

    /// Whether a value is of the JSON kind that such an operand has.
    fn fits(part: Part<'_>) -> bool
        ensures { result ≡ fits kind (part_data part.entry) };

    /// The operand that a value of its JSON kind stands for.
    fn read(
        names: &mut KnownNames,
        scope: &Scope,
        part: Part<'_>,
        spot: Spot,
    ) -> Result<Self, ReadFault>
        ensures { Gives meaning result (operand_read (said scope.now) spot kind (part_data part.entry)) };
}

/// A variable, or a property's key.
impl Operand for Name {
    ghost kind = { name };

    ghost meaning = { λ n. n };

    fn fits(part: Part<'_>) -> bool {
        matches!(part, Part::Text(_))
    }

    fn read(
        names: &mut KnownNames,
        _scope: &Scope,
        part: Part<'_>,
        spot: Spot,
    ) -> Result<Name, ReadFault> {
        match part {
            Part::Text(chars) => name_of(names, chars, spot),
            _ => Err(spot.fault(FaultCode::Operands)),
        }
    }
}

impl Operand for Literal {
    ghost kind = { literal };

    ghost meaning = { λ l. l };

    fn fits(part: Part<'_>) -> bool {
        !matches!(part, Part::List)
    }

    fn read(
        names: &mut KnownNames,
        _scope: &Scope,
        part: Part<'_>,
        spot: Spot,
    ) -> Result<Literal, ReadFault> {
        match part {
            Part::Null => Ok(Literal::Undefined),
            Part::Bool(b) => Ok(Literal::Boolean(b)),
            Part::Number(number) => Ok(Literal::Number(whole_of(&number, spot)?)),
            Part::Text(chars) => Ok(Literal::Text(text_of(names.allocator(), chars, spot)?)),
            _ => Err(spot.fault(FaultCode::Operands)),
        }
    }
}

impl Operand for Text {
    ghost kind = { text };

    ghost meaning = { λ t. t };

    fn fits(part: Part<'_>) -> bool {
        matches!(part, Part::Text(_))
    }

    fn read(
        names: &mut KnownNames,
        _scope: &Scope,
        part: Part<'_>,
        spot: Spot,
    ) -> Result<Text, ReadFault> {
        match part {
            Part::Text(chars) => text_of(names.allocator(), chars, spot),
            _ => Err(spot.fault(FaultCode::Operands)),
        }
    }
}

/// The number of a callback, which is named.
impl Operand for usize {
    ghost kind = { callback };

    ghost meaning = { λ n. n };

    fn fits(part: Part<'_>) -> bool {
        matches!(part, Part::Text(_))
    }

    fn read(
        names: &mut KnownNames,
        scope: &Scope,
        part: Part<'_>,
        spot: Spot,
    ) -> Result<usize, ReadFault> {
        match part {
            Part::Text(chars) => callback_named(names, scope, chars, spot),
            _ => Err(spot.fault(FaultCode::Operands)),
        }
    }
}

/// The number of another agent, which is named.
#[derive(Clone, Copy)]
pub(crate) struct AgentNumber(pub(crate) usize);

impl Operand for AgentNumber {
    ghost kind = { agent };

    ghost meaning = { λ a. a.0 };

    fn fits(part: Part<'_>) -> bool {
        matches!(part, Part::Text(_))
    }

    fn read(
        names: &mut KnownNames,
        scope: &Scope,
        part: Part<'_>,
        spot: Spot,
    ) -> Result<AgentNumber, ReadFault> {
        match part {
            Part::Text(chars) => {
                let number = agent_named(names, scope, chars, spot)?;
                Ok(AgentNumber(number))
            }
            _ => Err(spot.fault(FaultCode::Operands)),
        }
    }
}

/// A number of the profile.
impl Operand for i64 {
    ghost kind = { whole };

    ghost meaning = { λ z. z };

    fn fits(part: Part<'_>) -> bool {
        matches!(part, Part::Number(_))
    }

    fn read(
        _names: &mut KnownNames,
        _scope: &Scope,
        part: Part<'_>,
        spot: Spot,
    ) -> Result<i64, ReadFault> {
        match part {
            Part::Number(number) => whole_of(&number, spot),
            _ => Err(spot.fault(FaultCode::Operands)),
        }
    }
}

/// A number, or the variable whose value is taken.
impl Operand for Amount {
    ghost kind = { amount };

    ghost meaning = { λ a. a };

    fn fits(part: Part<'_>) -> bool {
        matches!(part, Part::Text(_) | Part::Number(_))
    }

    fn read(
        names: &mut KnownNames,
        _scope: &Scope,
        part: Part<'_>,
        spot: Spot,
    ) -> Result<Amount, ReadFault> {
        match part {
            Part::Text(chars) => Ok(Amount::Variable(name_of(names, chars, spot)?)),
            Part::Number(number) => Ok(Amount::Number(whole_of(&number, spot)?)),
            _ => Err(spot.fault(FaultCode::Operands)),
        }
    }
}

/// A number of words.
impl Operand for u32 {
    ghost kind = { words };

    ghost meaning = { λ n. n };

    fn fits(part: Part<'_>) -> bool {
        matches!(part, Part::Number(_))
    }

    fn read(
        _names: &mut KnownNames,
        _scope: &Scope,
        part: Part<'_>,
        spot: Spot,
    ) -> Result<u32, ReadFault> {
        match part {
            Part::Number(number) => words_of(&number, spot),
            _ => Err(spot.fault(FaultCode::Operands)),
        }
    }
}
