//! A number that a command takes.

ghost use Rattle.std.specs.Prelude.{◌≡◌, [], false, drop};
ghost use Rattle.std.specs.Option.{option_copied, option_to_list};
ghost use Rattle.es_event.specs.Access.{variable_of};
ghost use Rattle.es_event.specs.Numbers.{after_operand, operand_number};

use crate::Refusal;
use crate::numbers::number_of;
use es_value::{Name, Value};

/// A number that a command takes: as the plan has it, or the value of a variable (ECMA-262,
/// ToIntegerOrInfinity).
pub enum Operand {
    /// A whole number within ±9007199254740991.
    Number(i64),
    /// A variable.
    Variable(Name),
}

impl Drop for Operand {
    #[inline]
    fn drop(self) {
        match self {
            Operand::Number(_) => {}
            Operand::Variable(_) => {}
        }
    }
}

impl Operand {
    /// The variable whose value is taken, if one is.
    pub fn variable(&self) -> Option<&Name>
        ensures { option_to_list (option_copied result) ≡ variable_of self.now }
    {
        match self {
            Operand::Number(_) => None,
            Operand::Variable(name) => Some(name),
        }
    }

    /// Whether it is a variable.
    #[inline]
    pub(crate) fn is_variable(&self) -> bool
        ensures { result ≡ false → variable_of self.now ≡ [] }
    {
        matches!(self, Operand::Variable(_))
    }

    /// Its number, where these are the values of the variables from it on.
    #[inline]
    pub fn number(&self, values: &[Value]) -> Result<i64, Refusal>
        ensures { result ≡ operand_number self.now values.now }
    {
        match self {
            Operand::Number(number) => Ok(*number),
            Operand::Variable(_) => match values.first() {
                Some(value) => number_of(value),
                None => Ok(0),
            },
        }
    }

    /// The values of the variables after it.
    #[inline]
    pub fn rest<'a>(&self, values: &'a [Value]) -> &'a [Value]
        ensures { result.now ≡ after_operand self.now values.now }
    {
        match self {
            Operand::Number(_) => values,
            Operand::Variable(_) => without_first(values),
        }
    }
}

/// The values after the first.
pub(crate) fn without_first(values: &[Value]) -> &[Value]
    ensures { result.now ≡ drop 1 values.now }
{
    match values {
        [_, rest @ ..] => rest,
        [] => &[],
    }
}
