//! Agents move in order, each until it rests or sleeps.

ghost use Rattle.std.specs.Prelude.{◌≡◌, ◌≤◌, ◌<◌, false, true, None, length, reverse, IfOk, IfSome, OnOk, OnErr, is_err, if◌then◌else◌};
ghost use Rattle.es_event.specs.Waiters.{asleep};
ghost use Rattle.es_cluster.specs.Asked.{AskedEach, BeginsMove, CleansUp, cleans_at, cleanup_left, plan_left, plans_left};
ghost use Rattle.es_cluster.specs.Moves.{Rest, RunsOut, RunsToEnd, all_over, cleans_quietly, is_between as is_between_said, rests_at};
ghost use Rattle.es_cluster.specs.State.{ClusterView, plans};
ghost use Rattle.es_cluster.specs.Watched.{IsWatched, busy};
ghost use Rattle.es_cluster.specs.Watching.{IsKept, begun};

use crate::cluster::ClusterCore;
use crate::member::Progress;
use crate::planned::Planned;
use crate::watcher::{Nobody, Watcher};
use es_event::Event;
use es_value::NoMemory;

/// A move that has begun.
#[derive(Clone, Copy)]
pub(crate) struct Begun {
    /// Whose it is.
    pub agent: usize,
    /// Whether the agent was at its cleanup queue before.
    pub cleans: bool,
}

impl<L: Planned> ClusterCore<L> {
    /// Runs all agents to their ends: as long as one has not ended, the lowest-numbered that can move moves, by a
    /// whole job with its cleanup jobs, or what is left of them, up to their end or a sleep, by a skip, or by its closing.
    /// Then the messages that nobody took are taken out. After want of memory every later step fails.
    pub fn run_turns(&mut self) -> Result<(), NoMemory>
        requires { cleans_quietly self.old ≡ true }
        ensures runs { OnOk result (RunsToEnd self.old self.new) }
        ensures over { OnOk result ((all_over self.new ≡ true) × (self.new.failed ≡ false)) }
        ensures err { OnErr result (self.new.failed ≡ true) }
        ensures failed { self.old.failed ≡ true → is_err result ≡ true }
        ensures plans { plans self.new.agents ≡ plans self.old.agents }
        ensures agents { length self.new.agents ≡ length self.old.agents }
    {
        self.run_turns_watched(&mut Nobody)
    }

    /// The same run, of which a watcher that knows the cluster is told: of each turn that is taken, once, in the
    /// order of the turns, before it and after it. The messages that nobody took are taken out after the last turn,
    /// and nothing is told of that. Want of memory that the watcher has ends the run as any other does.
    pub fn run_turns_watched<W: Watcher>(&mut self, watcher: &mut W) -> Result<(), NoMemory>
        requires quiet { cleans_quietly self.old ≡ true }
        requires knows { W.knows self.old watcher.old }
        ensures runs { OnOk result (RunsToEnd self.old self.new) }
        ensures watched { OnOk result (IsWatched W.knows W.tells self.old self.new watcher.old watcher.new) }
        ensures over { OnOk result ((all_over self.new ≡ true) × (self.new.failed ≡ false)) }
        ensures err { OnErr result (self.new.failed ≡ true) }
        ensures failed { self.old.failed ≡ true → is_err result ≡ true }
        ensures plans { plans self.new.agents ≡ plans self.old.agents }
        ensures agents { length self.new.agents ≡ length self.old.agents }
    {
        if self.failed {
            return Err(NoMemory);
        }
        while self.make_moves(watcher)? {}
        let _ = self.ledger.history();
        self.ledger.drain();
        Ok(())
    }

    // Moves, up to one that does not begin in a cleanup job, so that less is left of a plan: whether there was one, or all
    // have ended.
    fn make_moves<W: Watcher>(&mut self, watcher: &mut W) -> Result<bool, NoMemory>
        requires quiet { cleans_quietly self.old ≡ true }
        requires whole { self.old.failed ≡ false }
        requires knows { W.knows self.old watcher.old }
        ensures runs { IfOk result (λ more. (end : ClusterView) → RunsOut self.new end → RunsOut self.old end) }
        ensures watched { IfOk result (λ more. IsKept W.knows W.tells None None self.old self.new watcher.old watcher.new) }
        ensures less { IfOk result (λ more. more ≡ true → plans_left self.new < plans_left self.old) }
        ensures over { IfOk result (λ more. more ≡ false → all_over self.new ≡ true) }
        ensures whole { IfOk result (λ more. self.new.failed ≡ false) }
        ensures err { OnErr result (self.new.failed ≡ true) }
        ensures plans { plans self.new.agents ≡ plans self.old.agents }
        ensures agents { length self.new.agents ≡ length self.old.agents }
    {
        while let Some(begun) = self.begin_move(watcher)? {
            if !begun.cleans {
                self.finish_move(begun.agent, watcher)?;
                return Ok(true);
            }
            let _ = self.clean_up(begun.agent, watcher)?;
        }
        Ok(false)
    }

    // The first turn of the next move: whose it is, or none where all have ended. Where none moves when
    // it is asked, all wait or sleep; then the lowest is told to go on when it is asked again.
    fn begin_move<W: Watcher>(&mut self, watcher: &mut W) -> Result<Option<Begun>, NoMemory>
        requires quiet { cleans_quietly self.old ≡ true }
        requires whole { self.old.failed ≡ false }
        requires knows { W.knows self.old watcher.old }
        ensures begins { IfOk result (λ r. BeginsMove r self.old self.new) }
        ensures watched { IfOk result (λ r. IsKept W.knows W.tells None (begun r self.new) self.old self.new watcher.old watcher.new) }
        ensures known { IfOk result (λ r. IfSome r (λ b. b.agent < length self.new.agents)) }
        ensures err { OnErr result (self.new.failed ≡ true) }
        ensures plans { plans self.new.agents ≡ plans self.old.agents }
        ensures agents { length self.new.agents ≡ length self.old.agents }
    {
        match self.ask_each(watcher)? {
            Some(begun) => Ok(Some(begun)),
            None => self.ask_each(watcher),
        }
    }

    // Asks each agent for a turn, by rising number, until one moves.
    fn ask_each<W: Watcher>(&mut self, watcher: &mut W) -> Result<Option<Begun>, NoMemory>
        requires quiet { cleans_quietly self.old ≡ true }
        requires whole { self.old.failed ≡ false }
        requires knows { W.knows self.old watcher.old }
        ensures asked { IfOk result (λ r. AskedEach r self.old self.new) }
        ensures watched { IfOk result (λ r. IsKept W.knows W.tells None (begun r self.new) self.old self.new watcher.old watcher.new) }
        ensures known { IfOk result (λ r. IfSome r (λ b. b.agent < length self.new.agents)) }
        ensures err { OnErr result (self.new.failed ≡ true) }
        ensures plans { plans self.new.agents ≡ plans self.old.agents }
        ensures agents { length self.new.agents ≡ length self.old.agents }
    {
        for agent in 0..self.agents() {
            let cleans = self.is_cleaning(agent);
            match self.advance(agent, watcher)? {
                Progress::Moved => return Ok(Some(Begun { agent, cleans })),
                Progress::Waiting | Progress::Ended => (),
            }
        }
        Ok(None)
    }

    // The rest of a move.
    fn finish_move<W: Watcher>(&mut self, agent: usize, watcher: &mut W) -> Result<(), NoMemory>
        requires known { agent < length self.old.agents }
        requires quiet { cleans_quietly self.old ≡ true }
        requires whole { self.old.failed ≡ false }
        requires awake { asleep self.old.ledger.history agent ≡ false }
        requires knows { W.knows self.old watcher.old }
        ensures rests { OnOk result (Rest agent self.old self.new) }
        ensures watched { OnOk result (IsKept W.knows W.tells (busy agent self.old) None self.old self.new watcher.old watcher.new) }
        ensures less { OnOk result ((plan_left agent self.new ≤ plan_left agent self.old) × (self.new.failed ≡ false)) }
        ensures err { OnErr result (self.new.failed ≡ true) }
        ensures plans { plans self.new.agents ≡ plans self.old.agents }
        ensures agents { length self.new.agents ≡ length self.old.agents }
    {
        if self.clean_up(agent, watcher)? {
            return Ok(());
        }
        while !self.is_at_rest(agent) {
            match self.advance(agent, watcher)? {
                Progress::Moved => {
                    if self.clean_up(agent, watcher)? {
                        return Ok(());
                    }
                }
                Progress::Waiting | Progress::Ended => return Ok(()),
            }
        }
        Ok(())
    }

    // Works the agent's cleanup queue off, unless it begins to sleep before: whether it does.
    fn clean_up<W: Watcher>(&mut self, agent: usize, watcher: &mut W) -> Result<bool, NoMemory>
        requires known { agent < length self.old.agents }
        requires quiet { cleans_quietly self.old ≡ true }
        requires whole { self.old.failed ≡ false }
        requires awake { asleep self.old.ledger.history agent ≡ false }
        requires knows { W.knows self.old watcher.old }
        ensures goes { IfOk result (λ slept. CleansUp slept agent self.old self.new) }
        ensures watched { IfOk result (λ slept. IsKept W.knows W.tells (busy agent self.old) (if slept then None else busy agent self.new) self.old self.new watcher.old watcher.new) }
        ensures less { IfOk result (λ slept. (plan_left agent self.new ≡ plan_left agent self.old) × (cleanup_left agent self.new ≤ cleanup_left agent self.old) × (self.new.failed ≡ false)) }
        ensures err { OnErr result (self.new.failed ≡ true) }
        ensures plans { plans self.new.agents ≡ plans self.old.agents }
        ensures agents { length self.new.agents ≡ length self.old.agents }
    {
        while self.is_cleaning(agent) {
            match self.advance(agent, watcher)? {
                Progress::Moved => (),
                Progress::Waiting | Progress::Ended => return Ok(true),
            }
        }
        Ok(false)
    }

    // Whether the agent's cleanup queue is worked off.
    fn is_cleaning(&self, agent: usize) -> bool
        requires { agent < length self.now.agents }
        ensures { result ≡ cleans_at agent self.now }
    {
        self.members[agent].core().is_cleaning_up()
    }

    // Whether no job of the agent is under way, and no cleanup job is left to run.
    fn is_at_rest(&self, agent: usize) -> bool
        requires { agent < length self.now.agents }
        ensures { result ≡ rests_at agent self.now }
    {
        let core = self.members[agent].core();
        is_between(core.history()) && !core.is_cleaning_up()
    }
}

// Whether the newest of these events, the oldest first, ended a job, or skipped one, or closed the
// agent, or there is none.
fn is_between(events: &[Event]) -> bool
    ensures { result ≡ is_between_said (reverse events.now) }
{
    match events.last() {
        None | Some(Event::JobEnded | Event::Skipped { .. } | Event::Closed) => true,
        Some(_) => false,
    }
}
