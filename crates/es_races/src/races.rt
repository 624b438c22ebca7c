//! The races of a plan in its run by turns.

ghost use Rattle.std.specs.Prelude.{◌≡◌, ◌<◌, true, codes, length, IfErr, IfOk};
ghost use Rattle.es_event.specs.Others.{all_name_others};
ghost use Rattle.es_script.specs.Grammar.{no_callback_collects};
ghost use Rattle.es_turns.specs.Failing.{IsFaultOf};
ghost use Rattle.es_races.specs.Races.{IsSpot, IsTold, TellsRaces, TellsRacesOf};

use crate::place::place_of;
use crate::race::{Mark, Race, race_in};
use crate::sleepless::never_sleeps;
use crate::text::{Spot, write_race};
use es_event::{AgentPlan, Outcome, Plan, Sequence};
use es_trace::name_at;
use es_turns::{TurnsFault, plan_of, run_by_turns};
use es_value::{Name, NameFault, NoMemory};
use std::alloc::Global;
use std::io::Write;

/// Whether two agents race for a word, in a run by turns of the plan that the bytes stand for: `no race` and a line
/// end, and then the plan has one report in threads too; or `race`, and a line for each of two accesses that no
/// message orders, the one that came first in that run first. Of a plan that waits at a word, or notifies, it is not
/// known, and the text says so.
///
/// Fails with the first fault of the bytes, where they stand for no plan; where there are more of them than a plan
/// has at most (`LONGEST_PLAN`), before it looks at any; and where there is no memory.
pub fn races_of(alloc: Global, bytes: &[u8]) -> Result<Vec<u8>, TurnsFault>
    ensures told { IfOk result (λ text. TellsRaces bytes.now text.items) }
    ensures fault { IfErr result (IsFaultOf bytes.now) }
{
    let plan = plan_of(alloc, bytes)?;
    Ok(races_of_plan(alloc, plan)?)
}

fn races_of_plan(alloc: Global, plan: Plan) -> Result<Vec<u8>, NoMemory>
    requires few { length plan.agents < 9 }
    requires others { all_name_others plan ≡ true }
    requires quiet { no_callback_collects plan ≡ true }
    ensures { IfOk result (λ text. TellsRacesOf plan text.items) }
{
    if !never_sleeps(&plan) {
        return told_unknown(alloc);
    }
    let outcome = run_by_turns(alloc, plan)?.outcome;
    let agents = outcome.names.as_slice().len();
    let found = race_in(alloc, agents, outcome.ledger.as_slice())?;
    told(alloc, &outcome, found)
}

/// The text for a plan whose agents sleep.
fn told_unknown(alloc: Global) -> Result<Vec<u8>, NoMemory>
    ensures { IfOk result (λ text. text.items ≡ codes "unknown: the plan waits or notifies\n") }
{
    let mut text = Vec::new(alloc);
    match text.write_all(b"unknown: the plan waits or notifies\n") {
        Ok(()) => Ok(text),
        Err(_) => Err(NoMemory),
    }
}

/// The text of what was found in an outcome.
fn told(alloc: Global, outcome: &Outcome, found: Option<Race>) -> Result<Vec<u8>, NoMemory>
    ensures { IfOk result (λ text. IsTold outcome.now found text.items) }
{
    let mut text = Vec::new(alloc);
    let written = match found {
        None => text.write_all(b"no race\n"),
        Some(race) => {
            let plan = empty_plan(alloc)?;
            let earlier = spot_of(outcome, race.earlier);
            let later = spot_of(outcome, race.later);
            write_race(earlier, later, &plan, &mut text)
        }
    };
    match written {
        Ok(()) => Ok(text),
        Err(_) => Err(NoMemory),
    }
}

fn spot_of(outcome: &Outcome, mark: Mark) -> Spot<'_>
    ensures { IsSpot outcome.now mark result }
{
    let place = match outcome.histories.as_slice().get(mark.agent) {
        Some(history) => place_of(history.as_slice(), mark.number),
        None => None,
    };
    Spot {
        name: name_at(outcome.names.as_slice(), mark.agent),
        place,
    }
}

/// A plan of an agent without jobs and callbacks.
fn empty_plan(alloc: Global) -> Result<AgentPlan, NoMemory> {
    match Name::read(alloc, "nobody") {
        Ok(name) => Ok(AgentPlan {
            name,
            callbacks: Sequence::new(alloc),
            jobs: Sequence::new(alloc),
        }),
        Err(NameFault::BadName | NameFault::NoMemory) => Err(NoMemory),
    }
}
