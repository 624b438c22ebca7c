//! Agents get their stakes.

ghost use Rattle.std.specs.Prelude.{◌≡◌, ℕ, [], Some, length, map, slice_get, IfOk};
ghost use Rattle.es_ticket.specs.Stakes.{StakeView};
ghost use Rattle.es_cluster.specs.State.{cores, first_views};

use crate::member::Member;
use crate::planned::Planned;
use es_agent::AgentCore;
use es_event::{AgentPlan, Sequence};
use es_ticket::Stake;
use es_value::{Name, NoMemory};
use std::alloc::Global;

/// The members with these plans, by rising number, each with the stake of its number. Where memory ends,
/// those that there are come back.
pub(crate) fn seat_all<L: Planned>(
    alloc: Global,
    plans: Vec<AgentPlan>,
    mut stakes: Vec<Stake<L>>,
) -> Result<Vec<Member<L>>, (Vec<Member<L>>, NoMemory)>
    requires planned { plans.items ≡ L.plan.agents }
    requires size { length stakes.items ≡ length plans.items }
    requires stakes { (i : ℕ) (s : StakeView) → slice_get stakes.items i ≡ Some s → (s.agent ≡ i) × (s.rows ≡ []) }
    ensures { IfOk result (λ ms. cores ms.items ≡ first_views (length plans.items) 0 plans.items) }
{
    let count = plans.len();
    let mut members = match Vec::with_capacity(alloc, count) {
        Ok(members) => members,
        Err(error) => return Err((Vec::new(alloc), error.into())),
    };
    stakes.reverse();
    for plan in plans {
        let Some(stake) = stakes.pop() else {
            unreachable!()
        };
        match AgentCore::new(alloc, plan, members.len(), count) {
            Ok(core) => members.push_reserved(Member::new(core, stake)),
            Err(error) => return Err((members, error)),
        }
    }
    Ok(members)
}

/// The names of the agents with these plans.
pub(crate) fn copy_names(alloc: Global, plans: &[AgentPlan]) -> Result<Sequence<Name>, NoMemory>
    ensures { IfOk result (λ ns. ns ≡ map (λ p. p.name) plans.now) }
{
    let mut names = Sequence::new(alloc);
    for plan in plans {
        let name = plan.name.copy()?;
        names.push(name)?;
    }
    Ok(names)
}
