//! Runs whose plan is known by name.

use es_ticket::LedgerName;
use std::marker::Brand;

/// One run of a plan: besides its ledger, which plan it is. The plan is named by contracts alone.
pub trait Planned: LedgerName {
    ghost use Rattle.es_event.specs.declared.plan.Plan.{Plan};

    ghost plan: { Plan };
}

impl Planned for Brand {
    ghost use Rattle.es_cluster.specs.NoPlan.{no_plan};

    ghost plan = { no_plan };
}
