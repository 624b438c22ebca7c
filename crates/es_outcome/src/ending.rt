//! What agents that ran beside each other came to.

ghost use Rattle.std.specs.Prelude.{◌≡◌, ◌≤◌, ◌↔◌, ℕ, [], true, false, map, length, reverse, vec_capacity, IfOk, IfErr};
ghost use Rattle.es_event.specs.Ledger.{port_of};
ghost use Rattle.es_event.specs.LegalLedger.{LegalLedger};
ghost use Rattle.es_cluster.specs.Ends.{AreEnded, AreHistories, HaveNoTicket};
ghost use Rattle.es_cluster.specs.State.{cores};
ghost use Rattle.es_report.specs.Counts.{IsCountsOf};
ghost use Rattle.es_match.specs.Calm.{AreCalm};
ghost use Rattle.es_outcome.specs.Outcomes.{DoNotMatch, IsClusterOutcome, at_last};
ghost use Rattle.es_outcome.specs.Places.{AreAtPlaces, ArePlanned, SomeGoesOn};
ghost use Rattle.es_outcome.specs.Said.{IsTold};

use crate::calm::all_calm;
use crate::counting::tallies_of;
use crate::said::{Said, all_said, are_said};
use crate::stop::RunStop;
use es_cluster::{Member, Parts, Planned, end_all, give_up, into_histories};
use es_event::{Outcome, Sequence};
use es_match::came_of;
use es_report::Counts;
use es_value::NoMemory;
use std::alloc::Global;
use std::thread::Threads;

/// What a plan's run came to, and the totals that its report has.
#[derive(Drop)]
pub struct Counted {
    pub outcome: Outcome,
    pub counts: Counts,
}

/// What agents that ran beside each other came to, if it is an outcome of their plan: each counts as
/// ended, and the messages that nobody took are taken out. Whatever comes of it, all tickets are spent.
pub fn outcome_of<R: Threads + Sync, L: Planned>(
    rt: &R,
    alloc: Global,
    parts: Parts<L>,
) -> Result<Counted, RunStop>
    requires size { length parts.members.items ≡ length L.plan.agents }
    requires names { parts.names ≡ map (λ p. p.name) L.plan.agents }
    requires place { (parts.histories.items ≡ []) × (length parts.members.items ≤ vec_capacity parts.histories) }
    ensures outcome { IfOk result (λ r. IsClusterOutcome L.plan r.outcome) }
    ensures counts { IfOk result (λ r. IsCountsOf r.outcome r.counts) }
    ensures mismatch { IfErr result (λ e. e ≡ RunStop.Mismatch → DoNotMatch (cores parts.members.items) parts.ledger) }
    ensures open { SomeGoesOn (cores parts.members.items) → IfErr result (λ e. e ≡ RunStop.Mismatch) }
{
    let agents = parts.ledger.agents();
    if parts.members.len() != agents
        || !are_at_places(parts.members.as_slice())
        || !have_closed(parts.members.as_slice())
    {
        abandon(parts);
        return Err(RunStop::Mismatch);
    }
    let tallies = match tallies_of(alloc, parts.members.as_slice()) {
        Ok(tallies) => tallies,
        Err(error) => {
            abandon(parts);
            return Err(error.into());
        }
    };
    let said = match all_said(alloc, parts.members.as_slice()) {
        Ok(said) => said,
        Err(error) => {
            abandon(parts);
            return Err(error.into());
        }
    };
    let calm = match all_calm(alloc, parts.members.as_slice()) {
        Ok(calm) => calm,
        Err(error) => {
            abandon(parts);
            return Err(error.into());
        }
    };
    let outcome = finish(parts);
    let told = is_told(rt, alloc, &outcome, &calm, &said)?;
    match judge(told) {
        Ok(()) => {
            let counts = Counts::of_ended(&outcome, tallies);
            Ok(Counted { outcome, counts })
        }
        Err(stop) => Err(stop),
    }
}

/// Histories that are not those of one cluster are a mismatch, and nothing else.
fn judge(told: bool) -> Result<(), RunStop>
    ensures told { IfOk result (λ _. told ≡ true) }
    ensures mismatch { IfErr result (λ e. (e ≡ RunStop.Mismatch) × (told ≡ false)) }
{
    if told { Ok(()) } else { Err(RunStop::Mismatch) }
}

/// Whether the histories are those of one cluster, and what each agent says came to it came to it.
fn is_told<R: Threads + Sync>(
    rt: &R,
    alloc: Global,
    outcome: &Outcome,
    calm: &[bool],
    said: &[Said],
) -> Result<bool, NoMemory>
    requires { AreCalm calm.now outcome.now.histories }
    ensures { IfOk result (λ b. (b ≡ true) ↔ IsTold (map (λ h. reverse h) outcome.now.histories) (reverse outcome.now.ledger) said.now) }
{
    let histories = outcome.histories.as_slice();
    match came_of(rt, alloc, histories, calm, outcome.ledger.as_slice())? {
        Some(came) => Ok(are_said(&came, said)),
        None => Ok(false),
    }
}

/// Gives all agents up: every ticket is spent. It takes no memory.
pub fn abandon<L: Planned>(parts: Parts<L>) {
    let Parts {
        members,
        ledger,
        names: _,
        histories: _,
    } = parts;
    let agents = ledger.agents();
    give_up(members, ledger, agents);
}

/// The outcome of agents that have closed, each of which counts as ended. It takes no memory.
fn finish<L: Planned>(parts: Parts<L>) -> Outcome
    requires closed { AreEnded (cores parts.members.items) }
    requires place { (parts.histories.items ≡ []) × (length parts.members.items ≤ vec_capacity parts.histories) }
    ensures names { result.names ≡ parts.names }
    ensures histories { AreHistories (cores parts.members.items) result.histories }
    ensures ledger { reverse result.ledger ≡ at_last parts.ledger }
    ensures legal { LegalLedger parts.ledger.agents (reverse result.ledger) }
    ensures tickets { HaveNoTicket (cores parts.members.items) (reverse result.ledger) }
    ensures messages { (s r : ℕ) → port_of (reverse result.ledger) s r ≡ [] }
{
    let Parts {
        members,
        mut ledger,
        names,
        histories,
    } = parts;
    let agents = ledger.agents();
    end_all(&mut ledger, agents);
    ledger.drain();
    let histories = into_histories(members, &mut ledger, histories);
    Outcome {
        names,
        histories: Sequence::from_vec(histories),
        ledger: ledger.into_history(),
    }
}

/// Whether each agent is at the place of its number.
fn are_at_places<L: Planned>(members: &[Member<L>]) -> bool
    ensures placed { (result ≡ true) ↔ AreAtPlaces (cores members.now) }
    ensures planned { result ≡ true → ArePlanned L.plan (cores members.now) }
{
    for place in 0..members.len() {
        if members[place].number() != place {
            return false;
        }
    }
    true
}

/// Whether each agent has closed.
fn have_closed<L: Planned>(members: &[Member<L>]) -> bool
    ensures closed { result ≡ true → AreEnded (cores members.now) }
    ensures open { result ≡ false → SomeGoesOn (cores members.now) }
{
    for place in 0..members.len() {
        // It tells that the agent's history is a run of its plan.
        let _ = members[place].core().history();
        if !members[place].has_closed() {
            return false;
        }
    }
    true
}
