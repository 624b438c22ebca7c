//! Who watches a run by turns.

ghost use Rattle.std.specs.Prelude.{◌<◌, ℕ, length, OnOk, ⊤};
ghost use Rattle.es_cluster.specs.State.{ClusterView};
ghost use Rattle.es_cluster.specs.Turns.{Turned};
ghost use Rattle.es_cluster.specs.Watched.{TakenTurn};

use crate::cluster::ClusterCore;
use crate::member::Progress;
use crate::planned::Planned;
use es_value::NoMemory;

/// Who is told of each turn of a run, before and after it, in the order of the turns.
///
/// The owner says by definitions of its own what it knows of the cluster between two turns, and what it has done
/// about a turn, as that its text has grown by the turn's rows: of itself before it was told of the turn, and
/// after. `ClusterCore::run_turns_watched` ensures these of each turn that was taken.
///
/// Each call may fail for want of memory. That ends the run, and then nothing is said of the watcher.
pub trait Watcher {
    /// What it knows of the cluster between two turns.
    ghost knows: { ClusterView → Self → Type 0 };

    /// What it keeps while the agent of this number takes its turn: of the cluster before the turn, of itself
    /// before it was told of it, and of itself now.
    ghost expects: { ℕ → ClusterView → Self → Self → Type 0 };

    /// What it has done about a turn: of itself before it was told of it, and after.
    ghost tells: { TakenTurn → Self → Self → Type 0 };

    /// The agent is asked for its turn. The cluster is as it was before.
    fn turning<L: Planned>(
        &mut self,
        cluster: &ClusterCore<L>,
        agent: usize,
    ) -> Result<(), NoMemory>
        requires agent { agent < length cluster.now.agents }
        requires knows { knows cluster.now self.old }
        ensures { OnOk result (expects agent cluster.now self.old self.new) };

    /// The agent took its turn, or waits on or has ended. The cluster is as it is after it.
    fn turned<L: Planned>(
        &mut self,
        cluster: &ClusterCore<L>,
        agent: usize,
        progress: Progress,
    ) -> Result<(), NoMemory>
        requires { (before : ClusterView) × (was : Self) × expects agent before was self.old × Turned progress agent before cluster.now }
        ensures knows { OnOk result (knows cluster.now self.new) }
        ensures tells { OnOk result ((before : ClusterView) (was : Self) → expects agent before was self.old → Turned progress agent before cluster.now → tells (record { progress = progress; agent = agent; before = before; after = cluster.now }) was self.new) };
}

/// Nobody.
#[derive(Drop)]
pub(crate) struct Nobody;

impl Watcher for Nobody {
    ghost knows = { λ c w. ⊤ };

    ghost expects = { λ n c was now. ⊤ };

    ghost tells = { λ t was now. ⊤ };

    fn turning<L: Planned>(
        &mut self,
        _cluster: &ClusterCore<L>,
        _agent: usize,
    ) -> Result<(), NoMemory> {
        Ok(())
    }

    fn turned<L: Planned>(
        &mut self,
        _cluster: &ClusterCore<L>,
        _agent: usize,
        _progress: Progress,
    ) -> Result<(), NoMemory> {
        Ok(())
    }
}
