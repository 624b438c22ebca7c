//! What the commands and the jobs of an agent are read by.

ghost use Rattle.std.specs.Prelude.{◌≡◌};
ghost use Rattle.es_reading.specs.Reading.{numbered, said, scope_by};

use crate::number_table::NumberTable;
use crate::version::Version;

/// In which version the commands and the jobs of an agent are written, and what they can name: its
/// callbacks, and each other agent.
#[derive(Drop)]
pub struct Scope<'a> {
    version: Version,
    callbacks: NumberTable,
    agents: &'a NumberTable,
    agent: usize,
}

impl<'a> Scope<'a> {
    /// Of the agent with this number, in a plan of this version.
    #[tactic(auto, unfolding(crate::specs::Reading::said))]
    pub fn new(
        version: Version,
        callbacks: NumberTable,
        agents: &'a NumberTable,
        agent: usize,
    ) -> Scope<'a>
        ensures { said result ≡ scope_by version (numbered callbacks) (numbered agents.now) agent }
    {
        Scope {
            version,
            callbacks,
            agents,
            agent,
        }
    }

    /// The version of the plan.
    #[tactic(auto, unfolding(crate::specs::Reading::said))]
    pub(crate) fn version(&self) -> Version
        ensures { result ≡ (said self.now).version }
    {
        self.version
    }

    /// The number of the callback with this name.
    #[tactic(auto, unfolding(crate::specs::Reading::said))]
    pub(crate) fn callback(&self, name: &str) -> Option<usize>
        ensures { result ≡ (said self.now).callbacks name.now }
    {
        self.callbacks.number(name)
    }

    /// The number of the other agent with this name.
    #[tactic(auto, unfolding(crate::specs::Reading::said))]
    pub(crate) fn other_agent(&self, name: &str) -> Option<usize>
        ensures { result ≡ (said self.now).agents name.now }
    {
        match self.agents.number(name) {
            Some(number) if number != self.agent => Some(number),
            _ => None,
        }
    }
}
