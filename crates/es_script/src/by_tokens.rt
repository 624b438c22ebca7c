//! Whole plans, from the tokens of their text.

ghost use Rattle.std.specs.Prelude.{◌≡◌, ◌<◌, IfOk, IsTrue, Some, length, List};
ghost use Rattle.std.specs.Str.{IsUtf8};
ghost use Rattle.json.specs.Token.{Token as SpecToken};
ghost use Rattle.json.specs.Json.{read_key};
ghost use Rattle.serde_json.specs.Data.{Data};
ghost use Rattle.serde_json.specs.Read.{read};
ghost use Rattle.es_script.specs.Taking.{Took};
ghost use Rattle.es_script.specs.Drafts.{IsVersion, IsPlanDraft};
ghost use Rattle.es_script.specs.Quick.{IsPlanValue};

use crate::agents::agents_in;
use crate::marks;
use crate::overview::{Overview, overview_of};
use crate::quit::Quit;
use es_event::{AgentPlan, Sequence};
use es_reading::Version;
use json::{Reader, Scratch};
use std::alloc::Global;

/// What was read of a plan so far.
#[derive(Drop)]
pub(crate) struct PlanDraft {
    version: Option<Version>,
    agents: Option<Sequence<AgentPlan>>,
}

impl PlanDraft {
    /// The agents, where all of the plan was read, and is of this version.
    fn into_agents(self, version: Version) -> Result<Sequence<AgentPlan>, Quit>
        ensures same { IfOk result (λ ps. self.version ≡ Some version) }
        ensures agents { IfOk result (λ ps. self.agents ≡ Some ps) }
    {
        let PlanDraft {
            version: read,
            agents,
        } = self;
        if !is_version(read, version) {
            return Err(Quit::Unusual);
        }
        match agents {
            Some(agents) => Ok(agents),
            None => Err(Quit::Unusual),
        }
    }
}

/// Whether the version that was read, if any, is this one.
fn is_version(read: Option<Version>, version: Version) -> bool
    ensures { IsTrue result → read ≡ Some version }
{
    match read {
        Some(Version::One) => matches!(version, Version::One),
        Some(Version::Two) => matches!(version, Version::Two),
        Some(Version::Three) => matches!(version, Version::Three),
        None => false,
    }
}

/// The agents of the plan that a text stands for. `Unusual` where it is written in an unusual way, and
/// where it stands for no plan; `NoMemory` for want of memory.
pub fn quick_agents(alloc: Global, bytes: &[u8]) -> Result<Sequence<AgentPlan>, Quit>
    ensures { IfOk result (λ ps. (d : Data) × IsUtf8 bytes.now × (read bytes.now ≡ Some d) × IsPlanValue d ps) }
{
    let Ok(text) = simdutf8::compat::from_utf8(bytes) else {
        return Err(Quit::Unusual);
    };
    let agents = agents_of(alloc, text)?;
    Ok(agents)
}

/// The agents of the plan that a text stands for, read with room for its escapes.
fn agents_of(alloc: Global, text: &str) -> Result<Sequence<AgentPlan>, Quit>
    ensures { IfOk result (λ ps. (d : Data) × (read text.now ≡ Some d) × IsPlanValue d ps) }
{
    let mut scratch = Scratch::new(alloc);
    scratch.reserve(text.len())?;
    let overview = overview_of(alloc, text, &mut scratch)?;
    whole_plan(alloc, text, &overview, &mut scratch)
}

/// The agents of a text that is one plan and nothing more.
fn whole_plan(
    alloc: Global,
    text: &str,
    overview: &Overview,
    scratch: &mut Scratch,
) -> Result<Sequence<AgentPlan>, Quit>
    ensures { IfOk result (λ ps. (d : Data) × (read text.now ≡ Some d) × IsPlanValue d ps) }
{
    let Ok(mut reader) = Reader::new(text, scratch) else {
        return Err(Quit::NoMemory);
    };
    let agents = plan_in(alloc, overview, &mut reader)?;
    if reader.next().is_some() {
        return Err(Quit::Unusual);
    }
    Ok(agents)
}

/// The plan that comes next, whose members come in any order.
fn plan_in(
    alloc: Global,
    overview: &Overview,
    reader: &mut Reader<'_>,
) -> Result<Sequence<AgentPlan>, Quit>
    ensures { IfOk result (λ ps. Took 7 IsPlanValue reader.old ps reader.new) }
{
    marks::open_object(reader)?;
    let mut draft = PlanDraft {
        version: None,
        agents: None,
    };
    'members: while let Some(key) = reader.next_key()? {
        member_in(alloc, overview, reader, key, &mut draft)?;
    }
    let agents = draft.into_agents(overview.version)?;
    Ok(agents)
}

/// The value of the member with this key. Of a key that comes twice the last counts.
fn member_in(
    alloc: Global,
    overview: &Overview,
    reader: &mut Reader<'_>,
    key: &str,
    draft: &mut PlanDraft,
) -> Result<(), Quit>
    ensures taken { IfOk result (λ _. (old now : List SpecToken) → read_key now ≡ Some (Some key.now, reader.old)
        → IsPlanDraft overview.now.version old now draft.old → IsPlanDraft overview.now.version old reader.new draft.new) }
    ensures shorter { IfOk result (λ _. length reader.new < length reader.old) }
{
    match key {
        "agents" => {
            let agents = agents_in(alloc, overview, reader)?;
            draft.agents = Some(agents);
            Ok(())
        }
        "version" => {
            let version = version_in(reader)?;
            draft.version = Some(version);
            Ok(())
        }
        _ => Err(Quit::Unusual),
    }
}

/// The version that comes next.
fn version_in(reader: &mut Reader<'_>) -> Result<Version, Quit>
    ensures { IfOk result (λ v. Took 0 IsVersion reader.old v reader.new) }
{
    let number = marks::number(reader)?;
    if number == "1" {
        return Ok(Version::One);
    }
    if number == "2" {
        return Ok(Version::Two);
    }
    if number == "3" {
        return Ok(Version::Three);
    }
    Err(Quit::Unusual)
}
