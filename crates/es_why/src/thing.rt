//! Nodes: what is there, and what was emptied.

ghost use Rattle.std.specs.Prelude.{◌≡◌, ◌<◌, codes, OnOk};
ghost use Rattle.std.specs.Io.KnownBytes.{Appends};
ghost use Rattle.std.specs.List.{flat_map};
ghost use Rattle.es_why.specs.Lines.{emptied_line, node_line};
ghost use Rattle.es_why.specs.Picture.{thing_at, things};
ghost use Rattle.es_why.specs.Written.{tag_shape, tag_text, tagged_line};

use es_record::AgentRecord;
use es_tables::Tag;
use es_value::Id;
use std::io;
use std::io::Write;

/// Writes a node for each object and symbol that was emptied.
pub(crate) fn write_emptied<W: Write>(ids: &[Id], writer: &mut W) -> Result<(), io::Error>
    ensures { OnOk result (Appends (W.contents writer.old) (W.contents writer.new) (flat_map emptied_line ids.now)) }
{
    for id in ids {
        write_one_emptied(*id, writer)?;
    }
    Ok(())
}

fn write_one_emptied<W: Write>(id: Id, writer: &mut W) -> Result<(), io::Error>
    ensures { OnOk result (Appends (W.contents writer.old) (W.contents writer.new) (emptied_line id)) }
{
    write_node(
        "emptied",
        ",style=filled,color=gray80,fontcolor=gray40",
        id,
        writer,
    )
}

/// Writes a node for each object and symbol that is there, by rising identity.
pub(crate) fn write_things<W: Write>(agent: &AgentRecord, writer: &mut W) -> Result<(), io::Error>
    ensures { OnOk result (Appends (W.contents writer.old) (W.contents writer.new) (things agent.now.history)) }
{
    for before in 0..agent.identities() {
        let id = Id::of(before + 1);
        write_thing_at(agent, id, writer)?;
    }
    Ok(())
}

fn write_thing_at<W: Write>(agent: &AgentRecord, id: Id, writer: &mut W) -> Result<(), io::Error>
    ensures { OnOk result (Appends (W.contents writer.old) (W.contents writer.new) (thing_at agent.now.history id)) }
{
    write_tagged(id, agent.tag(id), writer)
}

/// Writes what has this tag, if it has one.
fn write_tagged<W: Write>(id: Id, tag: Option<Tag>, writer: &mut W) -> Result<(), io::Error>
    ensures { OnOk result (Appends (W.contents writer.old) (W.contents writer.new) (tagged_line id tag)) }
{
    match tag {
        Some(tag) => write_node(text_of(tag), shape_of(tag), id, writer),
        None => Ok(()),
    }
}

fn text_of(tag: Tag) -> &'static str
    ensures { result.now ≡ tag_text tag }
{
    match tag {
        Tag::Symbol => "symbol",
        Tag::Ordinary => "object",
        Tag::WeakRef => "WeakRef",
        Tag::WeakMap => "WeakMap",
        Tag::WeakSet => "WeakSet",
        Tag::FinalizationRegistry => "FinalizationRegistry",
        Tag::SharedArrayBuffer => "SharedArrayBuffer",
    }
}

fn shape_of(tag: Tag) -> &'static str
    ensures { result.now ≡ tag_shape tag }
{
    match tag {
        Tag::Symbol => ",shape=ellipse",
        Tag::Ordinary => "",
        Tag::WeakRef => ",style=dashed",
        Tag::WeakMap => ",shape=cylinder",
        Tag::WeakSet => ",shape=folder",
        Tag::FinalizationRegistry => ",shape=component",
        Tag::SharedArrayBuffer => ",shape=box3d",
    }
}

fn write_node<W: Write>(what: &str, shape: &str, id: Id, writer: &mut W) -> Result<(), io::Error>
    ensures { OnOk result (Appends (W.contents writer.old) (W.contents writer.new) (node_line what.now shape.now id)) }
{
    let number = id.number();
    write!(writer, "  n{number} [label=\"{what} {number}\"{shape}]\n")
}
