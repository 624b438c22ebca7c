//! Values in JSON.

ghost use Rattle.std.specs.Prelude.{◌≡◌, ◌++◌, codes, decimal, OnOk};
ghost use Rattle.std.specs.Io.KnownBytes.{Appends};
ghost use Rattle.es_value.specs.Printed.{quoted};
ghost use Rattle.es_trace_json.specs.Values.{value_json};

use es_value::{Id, Value};
use std::io;
use std::io::Write;

/// Writes a value: undefined as `null`, booleans, numbers and texts as JSON has them, and
/// `{"symbolfor":"t"}`, `{"object":1}` or `{"symbol":2}`.
pub(crate) fn write_value<W: Write>(value: &Value, writer: &mut W) -> Result<(), io::Error>
    ensures { OnOk result (Appends (W.contents writer.old) (W.contents writer.new) (value_json value.now)) }
{
    match value {
        Value::Undefined => writer.write_all(b"null"),
        Value::Boolean(true) => writer.write_all(b"true"),
        Value::Boolean(false) => writer.write_all(b"false"),
        Value::Number(n) => write!(writer, "{n}"),
        Value::Text(t) => write_quoted(t.as_str(), writer),
        Value::Registered(t) => write_registered(t.as_str(), writer),
        Value::Object(i) => write_object(*i, writer),
        Value::Symbol(i) => write_symbol(*i, writer),
    }
}

/// Writes a text or a name between quotation marks. None of its characters needs an escape.
pub(crate) fn write_quoted<W: Write>(text: &str, writer: &mut W) -> Result<(), io::Error>
    ensures { OnOk result (Appends (W.contents writer.old) (W.contents writer.new) (quoted text.now)) }
{
    write!(writer, "\"{text}\"")
}

fn write_registered<W: Write>(text: &str, writer: &mut W) -> Result<(), io::Error>
    ensures { OnOk result (Appends (W.contents writer.old) (W.contents writer.new) (codes "{\"symbolfor\":" ++ (quoted text.now ++ codes "}"))) }
{
    write!(writer, "{{\"symbolfor\":\"{text}\"}}")
}

fn write_object<W: Write>(id: Id, writer: &mut W) -> Result<(), io::Error>
    ensures { OnOk result (Appends (W.contents writer.old) (W.contents writer.new) (codes "{\"object\":" ++ (decimal id ++ codes "}"))) }
{
    let number = id.number();
    write!(writer, "{{\"object\":{number}}}")
}

fn write_symbol<W: Write>(id: Id, writer: &mut W) -> Result<(), io::Error>
    ensures { OnOk result (Appends (W.contents writer.old) (W.contents writer.new) (codes "{\"symbol\":" ++ (decimal id ++ codes "}"))) }
{
    let number = id.number();
    write!(writer, "{{\"symbol\":{number}}}")
}
