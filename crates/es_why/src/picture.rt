//! The picture of an agent's heap.

ghost use Rattle.std.specs.Prelude.{◌≡◌, ◌++◌, ℕ, List, codes, OnOk};
ghost use Rattle.std.specs.Io.KnownBytes.{Appends};
ghost use Rattle.std.specs.List.{IsDistinct};
ghost use Rattle.std.specs.Str.{bytes_eq};
ghost use Rattle.es_why.specs.Lines.{head};
ghost use Rattle.es_why.specs.Picture.{IsPicture};
ghost use Rattle.es_why.specs.Leads.{AreAllNames};

use crate::around::write_around_each;
use crate::registration::write_registrations;
use crate::root::{write_kept, write_variables};
use crate::thing::{write_emptied, write_things};
use es_record::AgentRecord;
use es_value::{Id, Name, NoMemory};
use std::alloc::Global;
use std::io;
use std::io::{ErrorKind, Write};

/// Writes the picture of what an agent has after it emptied these, as one graph in Graphviz's language: a node
/// for each object and symbol that is there or was emptied now, and an edge for each variable, for what
/// KeptAlive has, for each property, for each entry of a WeakMap (by a point that both the WeakMap and the key
/// lead to), and for what WeakRefs, WeakSets and FinalizationRegistries hold. Each is drawn once. What is held weakly
/// is dashed.
///
/// It takes memory for the names of the variables and for what is around one object. Fails where there is
/// none, and where the writer fails; then a part of the picture may be written.
pub fn write_picture<W: Write>(
    alloc: Global,
    agent: &AgentRecord,
    emptied: &[Id],
    writer: &mut W,
) -> Result<(), io::Error>
    ensures { OnOk result ((text : List ℕ) × IsPicture agent.now emptied.now text × Appends (W.contents writer.old) (W.contents writer.new) text) }
{
    match agent.assigned() {
        Ok(names) => write_with_names(alloc, agent, names.as_slice(), emptied, writer),
        Err(NoMemory) => Err(io::Error::from(ErrorKind::OutOfMemory)),
    }
}

/// Writes the picture, with the variables of these names.
fn write_with_names<W: Write>(
    alloc: Global,
    agent: &AgentRecord,
    names: &[Name],
    emptied: &[Id],
    writer: &mut W,
) -> Result<(), io::Error>
    requires all { AreAllNames agent.now names.now }
    requires once { IsDistinct bytes_eq names.now }
    ensures { OnOk result ((text : List ℕ) × IsPicture agent.now emptied.now text × Appends (W.contents writer.old) (W.contents writer.new) text) }
{
    write_head(&agent.plan().name, writer)?;
    write_emptied(emptied, writer)?;
    write_things(agent, writer)?;
    write_variables(agent, names, writer)?;
    write_kept(agent, writer)?;
    write_around_each(alloc, agent, writer)?;
    write_registrations(agent, writer)?;
    writer.write_all(b"}\n")
}

/// Writes the first lines, with the agent's name.
fn write_head<W: Write>(name: &Name, writer: &mut W) -> Result<(), io::Error>
    ensures { OnOk result (Appends (W.contents writer.old) (W.contents writer.new) (head name.now)) }
{
    writer.write_all(b"digraph {\n  label=\"")?;
    writer.write_all(name.as_bytes())?;
    writer.write_all(b"\"\n  labelloc=t\n  node [shape=box]\n")
}
