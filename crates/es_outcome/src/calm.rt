//! Agents that ask the ledger for nothing before their ends.

ghost use Rattle.std.specs.Prelude.{◌≡◌, map, IfOk};
ghost use Rattle.es_cluster.specs.State.{cores};
ghost use Rattle.es_outcome.specs.Said.{is_calm};

use crate::said::waits_for_nobody;
use es_cluster::{Member, Planned};
use es_value::NoMemory;
use std::alloc::Global;

/// Of each agent, whether it never had a buffer, posted nothing and waits for nobody.
pub(crate) fn all_calm<L: Planned>(
    alloc: Global,
    members: &[Member<L>],
) -> Result<Vec<bool>, NoMemory>
    ensures { IfOk result (λ v. v.items ≡ map is_calm (cores members.now)) }
{
    let mut all = Vec::new(alloc);
    for place in 0..members.len() {
        all.push(is_calm(&members[place]))?;
    }
    Ok(all)
}

fn is_calm<L: Planned>(member: &Member<L>) -> bool
    ensures { result ≡ is_calm member.now.core }
{
    let core = member.core();
    core.buffers().len() == 0
        && core.record().messages_posted() == 0
        && waits_for_nobody(core.plan())
}
