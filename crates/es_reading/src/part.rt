//! JSON values as the reader of operands sees them.

ghost use Rattle.std.specs.Prelude.{◌≡◌};
ghost use Rattle.serde_json.specs.Data.{Data};
ghost use Rattle.serde_json.specs.View.{view};
ghost use Rattle.es_reading.specs.declared.fault.Spot.{Spot};
ghost use Rattle.es_reading.specs.Scope.{Scope};
ghost use Rattle.es_reading.specs.Forms.{OperandType, fits};
ghost use Rattle.es_reading.specs.Reading.{operand_read};
ghost use Rattle.es_reading.specs.Part.{part_data};

use serde_json::{Number, Value};

/// A JSON value that is no array and no object, or that it is one of these.
#[derive(Clone, Copy, Drop)]
pub enum Part<'a> {
    Null,
    Bool(bool),
    Number(Number),
    Text(&'a str),
    List,
}

/// What can be seen as a part.
pub trait Seen: Sized {
    ghost shown: { Self → Data };

    /// The same for every kind of operand.
    fn part(&self) -> Part<'_>
        ensures fits { (k : OperandType) → fits k (part_data result) ≡ fits k (shown self.now) }
        ensures read { (scope : Scope) (s : Spot) (k : OperandType) → operand_read scope s k (part_data result)
            ≡ operand_read scope s k (shown self.now) };
}

impl Seen for Value {
    ghost shown = { view };

    fn part(&self) -> Part<'_> {
        match self {
            Value::Null => Part::Null,
            Value::Bool(b) => Part::Bool(*b),
            Value::Number(number) => Part::Number(*number),
            Value::String(chars) => Part::Text(chars.as_str()),
            Value::Array(_) => Part::List,
            Value::Object(_) => Part::List,
        }
    }
}

impl<'p> Seen for Part<'p> {
    ghost shown = { part_data };

    fn part(&self) -> Part<'_> {
        *self
    }
}
