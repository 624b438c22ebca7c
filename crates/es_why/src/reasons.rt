//! The reasons for which an agent's values are reached.

ghost use Rattle.std.specs.Prelude.{IfOk};
ghost use Rattle.es_why.specs.Leads.{AreReasons, AreAllNames};

use crate::agent_heap::AgentHeap;
use es_mark::{Ways, find_ways};
use es_record::AgentRecord;
use es_value::{Name, NoMemory};
use std::alloc::Global;

/// A shortest way to each value that an agent reaches, and the names of its variables, by which the
/// ways number them.
#[derive(Drop)]
pub struct Reasons {
    /// The variables that were assigned.
    pub names: Vec<Name>,
    /// One way to each value that is reached, each after those that it comes from.
    pub ways: Ways,
}

/// Why each value that the agent reaches is reached. It fails for want of memory alone.
pub fn find_reasons(alloc: Global, agent: &AgentRecord) -> Result<Reasons, NoMemory>
    ensures { IfOk result (λ r. AreReasons agent.now r.names.items r.ways.list.items) }
{
    let names = agent.assigned()?;
    let ways = ways_of(alloc, agent, names.as_slice())?;
    Ok(Reasons { names, ways })
}

/// The ways, with the variables numbered by these names.
fn ways_of(alloc: Global, agent: &AgentRecord, names: &[Name]) -> Result<Ways, NoMemory>
    requires { AreAllNames agent.now names.now }
    ensures { IfOk result (λ w. AreReasons agent.now names.now w.list.items) }
{
    let _ = agent.history();
    let heap = AgentHeap {
        agent,
        names,
        alloc,
    };
    find_ways(alloc, &heap)
}
