//! Commands, from their tokens.

ghost use Rattle.std.specs.Prelude.{◌≡◌, ◌≤◌, ◌<◌, IfOk, None, map, length, ℕ};
ghost use Rattle.serde_json.specs.View.{items_of};
ghost use Rattle.es_value.specs.Limits.{most_commands};
ghost use Rattle.es_reading.specs.Part.{part_data};
ghost use Rattle.es_reading.specs.Reading.{said, line_read, lines_read};
ghost use Rattle.es_reading.specs.Shape.{is_command};
ghost use Rattle.es_script.specs.Taking.{plain, TakesValue, TakesItems, IsRead, Took, TookItems};
ghost use Rattle.es_script.specs.Drafts.{IsRun};

use crate::marks;
use crate::number::whole_number;
use crate::quit::Quit;
use es_event::{Command, Sequence, SharedList};
use es_reading::{KnownNames, Part, Place, Scope, Spot, command_named};
use es_value::MOST_COMMANDS;
use json::{Reader, Token};

/// The next token, where it is a value by itself.
fn part_in<'a>(reader: &mut Reader<'a>) -> Result<Part<'a>, Quit>
    ensures taken { IfOk result (λ p. (depth : ℕ) → TakesValue depth reader.old (part_data p) reader.new) }
    ensures shorter { IfOk result (λ p. length reader.new < length reader.old) }
{
    let Some(token) = reader.next() else {
        return Err(Quit::Unusual);
    };
    match token {
        Token::String(text) => Ok(Part::Text(text)),
        Token::Number(text) => match whole_number(text) {
            Some(number) => Ok(Part::Number(number)),
            None => Err(Quit::Unusual),
        },
        Token::Bool(b) => Ok(Part::Bool(b)),
        Token::Null => Ok(Part::Null),
        _ => Err(Quit::Unusual),
    }
}

/// The parts up to the bracket that closes their array.
pub(crate) fn parts_in<'a>(reader: &mut Reader<'a>, parts: &mut Vec<Part<'a>>) -> Result<(), Quit>
    ensures taken { IfOk result (λ _. (depth : ℕ) → TakesItems depth reader.old (items_of (map part_data parts.new.items)) reader.new) }
    ensures shorter { IfOk result (λ _. length reader.new < length reader.old) }
{
    parts.clear();
    'parts: while !reader.take_end_array() {
        let part = part_in(reader)?;
        parts.push(part)?;
    }
    Ok(())
}

/// The command that comes next. One behind `try` is left to the other reader.
fn command_in<'a>(
    names: &mut KnownNames,
    scope: &Scope,
    reader: &mut Reader<'a>,
    parts: &mut Vec<Part<'a>>,
    spot: Spot,
) -> Result<Command, Quit>
    ensures { IfOk result (λ c. Took 1 (IsRead is_command (line_read (said scope.now) spot)) reader.old (None, c) reader.new) }
{
    marks::open_array(reader)?;
    let word = marks::text(reader)?;
    parts_in(reader, parts)?;
    match command_named(names, scope, word, parts.as_slice(), spot) {
        Ok(command) => Ok(command),
        Err(fault) => Err(fault.into()),
    }
}

/// The commands up to the bracket that closes their array.
fn commands_in<'a>(
    names: &mut KnownNames,
    scope: &Scope,
    reader: &mut Reader<'a>,
    parts: &mut Vec<Part<'a>>,
    place: Place,
) -> Result<Sequence<Command>, Quit>
    ensures taken { IfOk result (λ cs. TookItems 1 is_command (lines_read (said scope.now) place 1) reader.old (plain cs) reader.new) }
    ensures few { IfOk result (λ cs. length cs ≤ most_commands) }
{
    let mut commands = Sequence::new(names.allocator());
    let mut number = 0;
    'commands: while !reader.take_end_array() {
        if number >= MOST_COMMANDS {
            return Err(Quit::Unusual);
        }
        number += 1;
        let spot = Spot {
            place,
            command: number,
        };
        let command = command_in(names, scope, reader, parts, spot)?;
        commands.push(command)?;
    }
    Ok(commands)
}

/// The array of commands that comes next.
pub(crate) fn run_in<'a>(
    names: &mut KnownNames,
    scope: &Scope,
    reader: &mut Reader<'a>,
    parts: &mut Vec<Part<'a>>,
    place: Place,
) -> Result<SharedList<Command>, Quit>
    ensures { IfOk result (λ cs. Took 2 (IsRun (said scope.now) place) reader.old cs reader.new) }
{
    marks::open_array(reader)?;
    let commands = commands_in(names, scope, reader, parts, place)?;
    Ok(SharedList::of(commands)?)
}
