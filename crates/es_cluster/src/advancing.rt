//! One turn of a run, of which a watcher is told.

ghost use Rattle.std.specs.Prelude.{◌≡◌, ◌<◌, false, true, length, IfOk, OnOk, OnErr};
ghost use Rattle.es_cluster.specs.Asked.{Hears, Works};
ghost use Rattle.es_cluster.specs.Moves.{cleans_quietly};
ghost use Rattle.es_cluster.specs.State.{plans};
ghost use Rattle.es_cluster.specs.Turns.{Turned};

use crate::cluster::ClusterCore;
use crate::member::Progress;
use crate::planned::Planned;
use crate::watcher::Watcher;
use es_value::NoMemory;

impl<L: Planned> ClusterCore<L> {
    /// A turn of which the watcher is told, with what it leaves of the agent's work. Want of memory that the
    /// watcher has counts as the turn's.
    pub(crate) fn advance<W: Watcher>(
        &mut self,
        agent: usize,
        watcher: &mut W,
    ) -> Result<Progress, NoMemory>
        requires known { agent < length self.old.agents }
        requires quiet { cleans_quietly self.old ≡ true }
        requires whole { self.old.failed ≡ false }
        requires knows { W.knows self.old watcher.old }
        ensures turned { IfOk result (λ p. Turned p agent self.old self.new) }
        ensures works { IfOk result (λ p. Works p agent self.old self.new) }
        ensures hears { IfOk result (λ p. Hears p agent self.old self.new) }
        ensures told { IfOk result (λ p. W.tells (record { progress = p; agent = agent; before = self.old; after = self.new }) watcher.old watcher.new) }
        ensures known { OnOk result (W.knows self.new watcher.new) }
        ensures err { OnErr result (self.new.failed ≡ true) }
        ensures plans { plans self.new.agents ≡ plans self.old.agents }
        ensures agents { length self.new.agents ≡ length self.old.agents }
    {
        let Ok(()) = watcher.turning(self, agent) else {
            return Err(self.stop());
        };
        let progress = self.take_turn(agent)?;
        let Ok(()) = watcher.turned(self, agent, progress) else {
            return Err(self.stop());
        };
        Ok(progress)
    }

    /// A turn, with what it leaves of the agent's work.
    fn take_turn(&mut self, agent: usize) -> Result<Progress, NoMemory>
        requires known { agent < length self.old.agents }
        requires quiet { cleans_quietly self.old ≡ true }
        requires whole { self.old.failed ≡ false }
        ensures turned { IfOk result (λ p. Turned p agent self.old self.new) }
        ensures works { IfOk result (λ p. Works p agent self.old self.new) }
        ensures hears { IfOk result (λ p. Hears p agent self.old self.new) }
        ensures err { OnErr result (self.new.failed ≡ true) }
        ensures plans { plans self.new.agents ≡ plans self.old.agents }
        ensures agents { length self.new.agents ≡ length self.old.agents }
    {
        let _ = self.members[agent].core().history();
        self.step(agent)
    }

    /// Ends the run for want of memory: no agent has changed, and every later step fails.
    fn stop(&mut self) -> NoMemory
        ensures agents { self.new.agents ≡ self.old.agents }
        ensures failed { self.new.failed ≡ true }
    {
        self.failed = true;
        NoMemory
    }
}
