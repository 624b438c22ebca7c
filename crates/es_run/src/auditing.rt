//! Audits of a cluster under locks.

ghost use Rattle.std.specs.Prelude.{◌≡◌, map, length, true, IfOk, OnOk};
ghost use Rattle.es_cluster.specs.State.{cores};
ghost use Rattle.es_cluster.specs.Audits.{Audits};
ghost use Rattle.es_outcome.specs.Places.{AreAtPlaces};

use crate::cluster::Cluster;
use es_cluster::{Audit, Member, Planned};
use es_ledger::LedgerCore;
use es_outcome::audit_of;
use es_value::NoMemory;
use std::alloc::Global;
use std::sync::{MutexGuard, Wait};

/// Whether each agent is at the place of its number.
fn are_at_places<L: Planned>(members: &mut [&mut Member<L>]) -> bool
    ensures placed { result ≡ true → AreAtPlaces (cores (map (λ m. m.now) members.old)) }
    ensures same { map (λ m. m.now) members.new ≡ map (λ m. m.now) members.old }
{
    let mut place = 0;
    for member in members.iter_mut() {
        let member: &mut Member<L> = member;
        if member.number() != place {
            return false;
        }
        place += 1;
    }
    true
}

/// An audit of these agents and their ledger, if they are all of its agents, each at the place of its
/// number. It changes nothing.
fn audit_all<L: Planned>(
    members: &mut [&mut Member<L>],
    ledger: &mut LedgerCore<L>,
) -> Result<Audit, NoMemory>
    ensures audit { IfOk result (λ a. Audits (cores (map (λ m. m.now) members.old)) ledger.old a) }
    ensures all { OnOk result (length members.old ≡ ledger.old.agents) }
    ensures placed { OnOk result (AreAtPlaces (cores (map (λ m. m.now) members.old))) }
    ensures members { map (λ m. m.now) members.new ≡ map (λ m. m.now) members.old }
    ensures ledger { ledger.new ≡ ledger.old }
{
    if members.len() != ledger.agents() || !are_at_places(members) {
        return Err(NoMemory);
    }
    audit_of(members, ledger)
}

/// What the guards hold.
fn lent<'a, 'b, L: Planned>(
    alloc: Global,
    guards: &'a mut Vec<MutexGuard<'b, Member<L>>>,
) -> Result<Vec<&'a mut Member<L>>, NoMemory> {
    Ok(guards.iter_mut().map(|guard| &mut **guard).collect(alloc)?)
}

impl<L: Planned> Cluster<L> {
    /// An audit of what stands in the locks, with all of them taken (`audit_all`). Where they do not hold
    /// all of the ledger's agents, each at the place of its number, there is none, as where there is no
    /// memory.
    pub fn audit<R: Wait>(&self, rt: &R, alloc: Global) -> Result<Audit, NoMemory> {
        let mut guards = Vec::with_capacity(alloc, self.agents.len())?;
        for lock in &self.agents {
            guards.push_reserved(lock.lock(rt));
        }
        let mut members = lent(alloc, &mut guards)?;
        let mut guard = self.ledger.lock(rt);
        let ledger: &mut LedgerCore<L> = &mut guard;
        audit_all(members.as_mut_slice(), ledger)
    }
}
