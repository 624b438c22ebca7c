//! Where an agent is in its plan, followed by its events alone.

ghost use Rattle.std.specs.Prelude.{◌≡◌, [], length, slice_get};
ghost use Rattle.std.specs.Option.{option_copied};
ghost use Rattle.es_event.specs.declared.plan.AgentPlan.{AgentPlan as PlanSaid};
ghost use Rattle.es_event.specs.Order.{job_commands as job_said};
ghost use Rattle.es_trace.specs.Places.{IsPlace, Leads, commands_in as commands_said, one_more as more_said, running_callback as running_said};

use es_event::{AgentPlan, Command, Event, callback_commands};
use es_value::Id;

/// Whose commands run.
#[derive(Clone, Copy)]
pub(crate) enum Running {
    /// Nobody's.
    Nothing,
    /// Those of the job of this number, counted from 1.
    Job(usize),
    /// Those of the callback of this number, counted from 1.
    Callback(usize),
}

/// Where an agent is in its plan.
#[derive(Clone, Copy)]
pub(crate) struct Place {
    /// Whose commands run.
    running: Running,
    /// How many of them are done.
    done: usize,
    /// The FinalizationRegistry whose cleanup job runs.
    registry: Option<Id>,
}

impl Place {
    /// Before the first event.
    pub(crate) fn start() -> Place
        ensures { (plan : PlanSaid) → IsPlace plan [] result }
    {
        Place {
            running: Running::Nothing,
            done: 0,
            registry: None,
        }
    }

    /// The FinalizationRegistry whose cleanup job runs.
    pub(crate) fn registry(self) -> Option<Id>
        ensures { result ≡ self.registry }
    {
        self.registry
    }

    /// The next command, if one is left.
    pub(crate) fn at_hand(self, plan: &AgentPlan) -> Option<&Command>
        ensures { option_copied result ≡ slice_get (commands_said plan.now self.running) self.done }
    {
        commands_in(plan, self.running).get(self.done)
    }

    /// Where the agent is after the event. Where that takes a cell, `callback` is the number of its registry's
    /// callback.
    pub(crate) fn after(self, plan: &AgentPlan, event: &Event, callback: Option<usize>) -> Place
        ensures { Leads plan.now event.now callback self result }
    {
        match event {
            Event::JobBegun { job } => self.beginning(Running::Job(*job)),
            Event::CleanupBegun { registry } => Place {
                running: Running::Nothing,
                done: 0,
                registry: Some(*registry),
            },
            Event::Did(_) | Event::Emptied { .. } => self.with_one_done(plan),
            Event::Taken { .. } => self.beginning(running_callback(callback)),
            Event::JobEnded => Place {
                running: Running::Nothing,
                done: 0,
                registry: None,
            },
            Event::Received { .. }
            | Event::Refused { .. }
            | Event::Skipped { .. }
            | Event::Closed => self.beginning(Running::Nothing),
        }
    }

    fn beginning(self, running: Running) -> Place
        ensures { result ≡ record { running = running; done = 0; registry = self.registry } }
    {
        Place {
            running,
            done: 0,
            registry: self.registry,
        }
    }

    fn with_one_done(self, plan: &AgentPlan) -> Place
        ensures { result ≡ record { running = self.running; done = more_said self.done (length (commands_said plan.now self.running)); registry = self.registry } }
    {
        Place {
            running: self.running,
            done: one_more(self.done, commands_in(plan, self.running)),
            registry: self.registry,
        }
    }
}

fn one_more(done: usize, commands: &[Command]) -> usize
    ensures { result ≡ more_said done (length commands.now) }
{
    if done < commands.len() {
        done + 1
    } else {
        done
    }
}

fn running_callback(callback: Option<usize>) -> Running
    ensures { result ≡ running_said callback }
{
    match callback {
        Some(number) => Running::Callback(number),
        None => Running::Nothing,
    }
}

fn commands_in(plan: &AgentPlan, running: Running) -> &[Command]
    ensures { result.now ≡ commands_said plan.now running }
{
    match running {
        Running::Nothing => &[],
        Running::Job(number) => job_commands(plan, number),
        Running::Callback(number) => callback_commands(plan, Some(number)),
    }
}

/// The commands of the job of this number, counted from 1; none where there is no such job.
fn job_commands(plan: &AgentPlan, number: usize) -> &[Command]
    ensures { result.now ≡ job_said plan.now number }
{
    match plan.jobs.as_slice().get(number.saturating_sub(1)) {
        Some(job) => job.run.as_slice(),
        None => &[],
    }
}
