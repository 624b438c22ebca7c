//! What is told of a race, as text.

ghost use Rattle.std.specs.Prelude.{OnOk};
ghost use Rattle.std.specs.Io.KnownBytes.{Appends};
ghost use Rattle.es_races.specs.Places.{TellsAccess};
ghost use Rattle.es_races.specs.Texts.{line_text, place_text, race_text, section_text};

use crate::place::{Place, Section};
use es_event::AgentPlan;
use es_trace::{Style, write_command};
use std::io;
use std::io::Write;

/// An access: the name of its agent, and where it stands in the agent's plan.
#[derive(Clone, Copy)]
pub(crate) struct Spot<'a> {
    pub(crate) name: &'a str,
    pub(crate) place: Option<Place<'a>>,
}

/// Writes the lines of two accesses that race. The words of an access name no callback, so any plan of an agent
/// will do.
pub(crate) fn write_race<W: Write>(
    earlier: Spot<'_>,
    later: Spot<'_>,
    plan: &AgentPlan,
    writer: &mut W,
) -> Result<(), io::Error>
    requires earlier_access { TellsAccess earlier.place }
    requires later_access { TellsAccess later.place }
    ensures { OnOk result (Appends (W.contents writer.old) (W.contents writer.new) (race_text earlier.entry later.entry)) }
{
    writer.write_all(b"race\n")?;
    write_line(earlier, plan, writer)?;
    write_line(later, plan, writer)
}

fn write_line<W: Write>(spot: Spot<'_>, plan: &AgentPlan, writer: &mut W) -> Result<(), io::Error>
    requires access { TellsAccess spot.place }
    ensures { OnOk result (Appends (W.contents writer.old) (W.contents writer.new) (line_text spot.entry)) }
{
    writer.write_all(spot.name.as_bytes())?;
    if let Some(place) = spot.place {
        write_place(place, plan, writer)?;
    }
    writer.write_all(b"\n")
}

fn write_place<W: Write>(
    place: Place<'_>,
    plan: &AgentPlan,
    writer: &mut W,
) -> Result<(), io::Error>
    requires access { TellsAccess (Some place) }
    ensures { OnOk result (Appends (W.contents writer.old) (W.contents writer.new) (place_text place.entry)) }
{
    write_section(place.section, writer)?;
    let number = place.number;
    write!(writer, ", command {number}: ")?;
    write_command(Style::Words, place.command, &[], plan, writer)
}

fn write_section<W: Write>(section: Section, writer: &mut W) -> Result<(), io::Error>
    ensures { OnOk result (Appends (W.contents writer.old) (W.contents writer.new) (section_text section)) }
{
    match section {
        Section::Job(job) => write!(writer, ", job {job}"),
        Section::Callback(registration) => {
            write!(writer, ", callback for registration {registration}")
        }
    }
}
