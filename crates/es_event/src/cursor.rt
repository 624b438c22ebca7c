//! Where an agent is in its plan.

ghost use Rattle.std.specs.Prelude.{◌≡◌, ◌∷◌, ◌<◌, ℕ, List, true, length, [], slice_get, IfOk};
ghost use Rattle.es_event.specs.declared.command.Command.{Command as CommandSaid};
ghost use Rattle.es_event.specs.declared.event.Answer.{Answer as AnswerSaid};
ghost use Rattle.es_event.specs.History.{History};
ghost use Rattle.std.specs.Option.{option_and_then};
ghost use Rattle.es_value.specs.declared.value.Value.{Value as HeldValue};
ghost use Rattle.es_event.specs.Jobs.{receivers, cleaning, job as job_said};
ghost use Rattle.es_event.specs.Order.{due, due_between, job_commands, callback_commands, job_catches, callback_catches};
ghost use Rattle.es_event.specs.Registrations.{callback as callback_said};
ghost use Rattle.es_event.specs.Follows.{Permits};
ghost use Rattle.es_event.specs.Sharing.{Buffers};
ghost use Rattle.es_event.specs.Later.{snapshot};
ghost use Rattle.es_event.specs.Due.{shown};
ghost use Rattle.es_event.specs.Cursor.{IsCursorOf, commands_of, catches_of};
ghost use Rattle.es_event.specs.After.{at_after, job_passed, position_after, position_stopped, position_taken};

use crate::due::Due;
use crate::{AgentPlan, Command, Event, OptionalName, PlanCommand, SharedList};
use es_value::{Id, NoMemory};

/// Where an agent is in its plan.
#[derive(Clone, Copy, Debug)]
pub struct Cursor {
    /// The job of the plan that runs or comes next, counted from 1.
    pub job: usize,
    /// Where it stands.
    pub position: Position,
}

/// Where an agent is in a job.
#[derive(Clone, Copy, Debug)]
pub enum Position {
    /// Between two jobs.
    Between,
    /// Before a job that was handed the message that it waited for.
    Handed,
    /// Inside a job of the plan, with this many commands done.
    Inside(usize),
    /// Inside a job of the plan that a refusal stopped.
    Stopped,
    /// Inside a cleanup job.
    Cleaning(Cleanup),
    /// Inside the cleanup job of this registry, which a refusal stopped.
    CleanupStopped(Id),
    /// At its end.
    Ended,
}

/// Where an agent is in a cleanup job.
#[derive(Clone, Copy, Debug)]
pub struct Cleanup {
    /// The registry whose cleanup job it is.
    pub registry: Id,
    /// The number of the callback that runs, none before the first cell is taken.
    pub callback: Option<usize>,
    /// How many commands of the callback are done.
    pub at: usize,
}

impl Cursor {
    /// Before the first job.
    pub const START: Cursor = Cursor {
        job: 1,
        position: Position::Between,
    };

    /// The job of the plan that comes next, or its message, or the closing.
    pub fn due_job<'a>(&self, plan: &'a AgentPlan) -> Due<'a>
        requires { 0 < self.now.job }
        ensures { (h : History) → self.now.job ≡ job_said h → shown (snapshot h) result ≡ due_between plan.now h [] }
    {
        match plan.jobs.as_slice().get(self.job - 1) {
            Some(job) => match &job.on {
                Some((sender, _)) => Due::Receive {
                    job: self.job,
                    sender: *sender,
                },
                None => Due::Begin(self.job),
            },
            None => Due::Close,
        }
    }

    /// Where the agent is after the event, if the plan permits it. Where the event takes a cell,
    /// `callback` is the number of its registry's callback.
    #[inline(always)]
    pub fn after(&self, event: &Event, plan: &AgentPlan, callback: Option<usize>) -> Cursor
        requires { 0 < self.now.job }
        ensures { (h : History) → IsCursorOf plan.now h self.now → (over : Buffers) → Permits over (receivers plan.now.jobs) h (due plan.now h) event.now → ((n : ℕ) (held : HeldValue) → event.now ≡ Event.Taken n held → option_and_then (callback_said h) (cleaning h) ≡ callback) → IsCursorOf plan.now (event.now ∷ h) result }
    {
        let job = self.job;
        match event {
            Event::JobBegun { .. } => Cursor {
                job,
                position: Position::Inside(0),
            },
            Event::CleanupBegun { registry } => Cursor {
                job,
                position: Position::Cleaning(Cleanup {
                    registry: *registry,
                    callback: None,
                    at: 0,
                }),
            },
            Event::Received { .. } => Cursor {
                job,
                position: Position::Handed,
            },
            Event::Did(_) | Event::Emptied { .. } => {
                let mut position = self.position;
                position.pass_command(plan, job);
                Cursor { job, position }
            }
            Event::Refused { .. } => Cursor {
                job,
                position: self.position.after_refusal(),
            },
            Event::Taken { .. } => Cursor {
                job,
                position: self.position.after_taking(callback),
            },
            Event::JobEnded => Cursor {
                job: self.job_after(plan),
                position: Position::Between,
            },
            Event::Skipped { .. } => Cursor {
                job: next_below(job, plan.jobs.as_slice().len() + 1),
                position: Position::Between,
            },
            Event::Closed => Cursor {
                job,
                position: Position::Ended,
            },
        }
    }

    /// Goes past a command that was done.
    #[inline(always)]
    pub fn pass_command(&mut self, plan: &AgentPlan)
        requires { 0 < self.old.job }
        ensures { (h : History) → IsCursorOf plan.now h self.old → (c : CommandSaid) (values : List HeldValue) (answer : AnswerSaid) → IsCursorOf plan.now (Event.Did (c, values, answer) ∷ h) self.new }
    {
        self.position.pass_command(plan, self.job);
    }

    /// The job that comes next after the end of a job: the end of a cleanup job passes none.
    fn job_after(&self, plan: &AgentPlan) -> usize
        ensures { result ≡ job_passed self.now (length plan.now.jobs) }
    {
        match self.position {
            Position::Cleaning(_) | Position::CleanupStopped(_) => self.job,
            _ => next_below(self.job, plan.jobs.as_slice().len() + 1),
        }
    }
}

/// The commands of the nth job, counted from 1.
#[inline(always)]
pub fn commands(plan: &AgentPlan, n: usize) -> &[Command]
    requires { 0 < n }
    ensures { result.now ≡ job_commands plan.now n }
{
    match plan.jobs.as_slice().get(n - 1) {
        Some(job) => job.run.as_slice(),
        None => &[],
    }
}

/// The variables that catch refusals in the nth job, counted from 1, by the places of its commands.
#[inline(always)]
pub fn catches(plan: &AgentPlan, n: usize) -> &[OptionalName]
    requires { 0 < n }
    ensures { result.now ≡ job_catches plan.now n }
{
    match plan.jobs.as_slice().get(n - 1) {
        Some(job) => job.catches.as_slice(),
        None => &[],
    }
}

/// The same of the callback of this number, counted from 1; none where there is no callback.
pub fn callback_catches(plan: &AgentPlan, callback: Option<usize>) -> &[OptionalName]
    ensures { result.now ≡ catches_of plan.now callback }
{
    match callback {
        Some(n) => catches_of_callback(plan, n),
        None => &[],
    }
}

fn catches_of_callback(plan: &AgentPlan, n: usize) -> &[OptionalName]
    ensures { result.now ≡ callback_catches plan.now n }
{
    match plan.callbacks.as_slice().get(n.saturating_sub(1)) {
        Some(callback) => callback.catches.as_slice(),
        None => &[],
    }
}

/// The commands of the callback of this number, counted from 1; none where there is no callback.
#[inline(always)]
pub fn callback_commands(plan: &AgentPlan, callback: Option<usize>) -> &[Command]
    ensures { result.now ≡ commands_of plan.now callback }
{
    match callback {
        Some(n) => commands_of_callback(plan, n),
        None => &[],
    }
}

/// The command at this place of the nth job, counted from 1, as an event has it; none where none stands there. It
/// fails for want of memory alone.
#[inline(always)]
pub fn job_command(plan: &AgentPlan, n: usize, at: usize) -> Result<Option<PlanCommand>, NoMemory>
    requires { 0 < n }
    ensures { IfOk result (λ c. c ≡ slice_get (job_commands plan.now n) at) }
{
    match plan.jobs.as_slice().get(n - 1) {
        Some(job) => command_at(&job.run, at),
        None => Ok(None),
    }
}

/// The same of the callback of this number, counted from 1.
pub fn callback_command(
    plan: &AgentPlan,
    callback: Option<usize>,
    at: usize,
) -> Result<Option<PlanCommand>, NoMemory>
    ensures { IfOk result (λ c. c ≡ slice_get (commands_of plan.now callback) at) }
{
    match callback {
        Some(n) => command_of_callback(plan, n, at),
        None => Ok(None),
    }
}

fn command_of_callback(
    plan: &AgentPlan,
    n: usize,
    at: usize,
) -> Result<Option<PlanCommand>, NoMemory>
    ensures { IfOk result (λ c. c ≡ slice_get (callback_commands plan.now n) at) }
{
    match plan.callbacks.as_slice().get(n.saturating_sub(1)) {
        Some(callback) => command_at(&callback.run, at),
        None => Ok(None),
    }
}

#[inline(always)]
fn command_at(commands: &SharedList<Command>, at: usize) -> Result<Option<PlanCommand>, NoMemory>
    ensures { IfOk result (λ c. c ≡ slice_get commands.now at) }
{
    if at < commands.as_slice().len() {
        Ok(Some(PlanCommand::at(commands, at)?))
    } else {
        Ok(None)
    }
}

fn commands_of_callback(plan: &AgentPlan, n: usize) -> &[Command]
    ensures { result.now ≡ callback_commands plan.now n }
{
    match plan.callbacks.as_slice().get(n.saturating_sub(1)) {
        Some(callback) => callback.run.as_slice(),
        None => &[],
    }
}

impl Cleanup {
    /// One more command of the running callback is done.
    fn pass_command(&mut self, plan: &AgentPlan)
        ensures { self.new ≡ record self.old { at = at_after self.old.at (length (commands_of plan.now self.old.callback)) } }
    {
        let commands = callback_commands(plan, self.callback);
        self.at = next_below(self.at, commands.len());
    }
}

impl Position {
    /// One more command of job n, or of the running callback, is done.
    #[inline(always)]
    fn pass_command(&mut self, plan: &AgentPlan, n: usize)
        requires { 0 < n }
        ensures { self.new ≡ position_after plan.now n self.old }
    {
        match self {
            Position::Inside(at) => *at = next_below(*at, commands(plan, n).len()),
            Position::Cleaning(cleanup) => cleanup.pass_command(plan),
            _ => {}
        }
    }

    /// After a refusal.
    fn after_refusal(self) -> Position
        ensures { result ≡ position_stopped self }
    {
        match self {
            Position::Cleaning(cleanup) => Position::CleanupStopped(cleanup.registry),
            _ => Position::Stopped,
        }
    }

    /// After the taking of a cell, where this callback begins.
    fn after_taking(self, callback: Option<usize>) -> Position
        ensures { result ≡ position_taken callback self }
    {
        match self {
            Position::Cleaning(cleanup) => Position::Cleaning(Cleanup {
                registry: cleanup.registry,
                callback,
                at: 0,
            }),
            _ => self,
        }
    }
}

fn next_below(n: usize, end: usize) -> usize
    ensures { result ≡ at_after n end }
{
    if n < end { n + 1 } else { n }
}
