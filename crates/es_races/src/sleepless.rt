//! Plans whose agents never sleep.

ghost use Rattle.std.specs.Prelude.{◌≡◌, not};
ghost use Rattle.std.specs.List.{list_all, list_any};
ghost use Rattle.es_event.specs.declared.plan.Callback.{Callback};
ghost use Rattle.es_event.specs.declared.plan.Job.{Job};
ghost use Rattle.es_theorems.specs.Sleepless.{is_for_sleep, never_sleeps, never_sleeps_in};

use es_event::{AgentPlan, Command, Plan};

/// Whether no agent of the plan waits at a word, or notifies those that do (ECMA-262, Atomics.wait and notify).
pub(crate) fn never_sleeps(plan: &Plan) -> bool
    ensures { result ≡ never_sleeps plan.now }
{
    plan.agents
        .as_slice()
        .iter()
        .all(|agent| never_sleeps_in(agent))
}

fn never_sleeps_in(plan: &AgentPlan) -> bool
    ensures { result ≡ never_sleeps_in plan.now }
{
    jobs_never_sleep(plan) && callbacks_never_sleep(plan)
}

fn jobs_never_sleep(plan: &AgentPlan) -> bool
    ensures { result ≡ list_all (λ (j : Job). not (list_any is_for_sleep j.run)) plan.now.jobs }
{
    plan.jobs
        .as_slice()
        .iter()
        .all(|job| !any_is_for_sleep(job.run.as_slice()))
}

fn callbacks_never_sleep(plan: &AgentPlan) -> bool
    ensures { result ≡ list_all (λ (c : Callback). not (list_any is_for_sleep c.run)) plan.now.callbacks }
{
    plan.callbacks
        .as_slice()
        .iter()
        .all(|callback| !any_is_for_sleep(callback.run.as_slice()))
}

fn any_is_for_sleep(commands: &[Command]) -> bool
    ensures { result ≡ list_any is_for_sleep commands.now }
{
    commands.iter().any(|command| is_for_sleep(command))
}

fn is_for_sleep(command: &Command) -> bool
    ensures { result ≡ is_for_sleep command.now }
{
    match command {
        Command::Atomic(atomic) => atomic.operation().is_of_sleep(),
        _ => false,
    }
}
