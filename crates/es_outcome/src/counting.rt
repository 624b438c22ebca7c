//! The totals of registrations that a report has.

ghost use Rattle.std.specs.Prelude.{◌≡◌, map, IfOk};
ghost use Rattle.es_cluster.specs.State.{cores};
ghost use Rattle.es_report.specs.Tallies.{end_tally};

use es_cluster::{Member, Planned};
use es_registry::Tally;
use es_value::NoMemory;
use std::alloc::Global;

/// How many registrations of each agent have each fate.
pub fn tallies_of<L: Planned>(alloc: Global, members: &[Member<L>]) -> Result<Vec<Tally>, NoMemory>
    ensures { IfOk result (λ ts. ts.items ≡ map (λ b. end_tally b.history) (cores members.now)) }
{
    let mut tallies = Vec::new(alloc);
    for place in 0..members.len() {
        tallies.push(members[place].core().tally())?;
    }
    Ok(tallies)
}
