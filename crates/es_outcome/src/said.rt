//! What an agent says came to it from the ledger.

ghost use Rattle.std.specs.Prelude.{◌≡◌, ◌↔◌, ◌++◌, ◌∷◌, List, true, drop, map, reverse, is_some, IfOk, OnOk, if◌then◌else◌};
ghost use Rattle.es_event.specs.declared.plan.AgentPlan.{AgentPlan as PlanSaid};
ghost use Rattle.es_event.specs.declared.plan.Job.{Job as JobSaid};
ghost use Rattle.es_event.specs.History.{History};
ghost use Rattle.es_event.specs.Jobs.{cleaning, passes_job, waits_for_nobody};
ghost use Rattle.es_match.specs.Asks.{asks};
ghost use Rattle.es_match.specs.Cluster.{is_refusal_asked, refused_senders};
ghost use Rattle.es_match.specs.Shown.{listed};
ghost use Rattle.es_cluster.specs.State.{cores};
ghost use Rattle.es_outcome.specs.Said.{IsAt, awaited_first, refused_at, said_by, told_of};

use es_cluster::{Member, Planned};
use es_event::{AgentPlan, Event, Job, Refusal, Row};
use es_match::{Came, ends_job};
use es_value::{Id, NoMemory};
use std::alloc::Global;
use std::marker::Model;

/// What an agent says came to it from the ledger.
#[derive(Drop)]
pub(crate) struct Said {
    // each buffer object that it ever had, with what its ticket named, the oldest first
    buffers: Vec<(Id, Row)>,
    // the senders of the jobs whose messages found no room, the oldest first
    refused: Vec<usize>,
}

impl Model for Said {
    ghost use Rattle.es_outcome.specs.Said.{SaidView};

    ghost Value = { SaidView };

    ghost view = { λ s. record { ever = s.buffers.items; refused = s.refused.items } };
}

impl Said {
    /// Whether this is what came.
    fn is_what_came(&self, came: &Came) -> bool
        ensures { (result ≡ true) ↔ (told_of came.now ≡ self.now) }
    {
        are_same_tickets(came.ever(), self.buffers.as_slice())
            && are_same_senders(came.refused(), self.refused.as_slice())
    }
}

/// What each agent says.
pub(crate) fn all_said<L: Planned>(
    alloc: Global,
    members: &[Member<L>],
) -> Result<Vec<Said>, NoMemory>
    ensures { IfOk result (λ v. v.items ≡ map said_by (cores members.now)) }
{
    let mut all = Vec::new(alloc);
    for place in 0..members.len() {
        all.push(said_by(alloc, &members[place])?)?;
    }
    Ok(all)
}

fn said_by<L: Planned>(alloc: Global, member: &Member<L>) -> Result<Said, NoMemory>
    ensures { IfOk result (λ s. s ≡ said_by member.now.core) }
{
    let core = member.core();
    let refused = refused_senders(alloc, core.plan(), core.history())?;
    let buffers = copied(alloc, core.buffers())?;
    Ok(Said { buffers, refused })
}

fn copied(alloc: Global, buffers: &[(Id, Row)]) -> Result<Vec<(Id, Row)>, NoMemory>
    ensures { IfOk result (λ v. v.items ≡ buffers.now) }
{
    let mut all = Vec::with_capacity(alloc, buffers.len())?;
    for (object, row) in buffers {
        all.push((*object, *row))?;
    }
    Ok(all)
}

/// Whether what each agent says is what came to it.
pub(crate) fn are_said(came: &[Came], said: &[Said]) -> bool
    ensures { (result ≡ true) ↔ (map told_of came.now ≡ said.now) }
{
    if came.len() != said.len() {
        return false;
    }
    for place in 0..said.len() {
        if !said[place].is_what_came(&came[place]) {
            return false;
        }
    }
    true
}

fn are_same_tickets(left: &[(Id, Row)], right: &[(Id, Row)]) -> bool
    ensures { (result ≡ true) ↔ (left.now ≡ right.now) }
{
    if left.len() != right.len() {
        return false;
    }
    for place in 0..left.len() {
        if !is_same_ticket(left[place], right[place]) {
            return false;
        }
    }
    true
}

fn is_same_ticket(left: (Id, Row), right: (Id, Row)) -> bool
    ensures { (result ≡ true) ↔ (left ≡ right) }
{
    left.0 == right.0
        && left.1.serial == right.1.serial
        && left.1.block == right.1.block
        && left.1.words == right.1.words
}

fn are_same_senders(left: &[usize], right: &[usize]) -> bool
    ensures { (result ≡ true) ↔ (left.now ≡ right.now) }
{
    left == right
}

/// Where an agent is in its plan, as far as its receipts ask.
#[derive(Clone, Copy)]
struct Place<'p> {
    // the jobs of the plan that neither ended nor were skipped
    jobs: &'p [Job],
    is_cleaning: bool,
    is_between: bool,
}

impl<'p> Place<'p> {
    /// The place after one more event.
    fn after(self, event: &Event) -> Place<'p>
        ensures { (jobs : List JobSaid) (h : History) → IsAt jobs h self.entry → IsAt jobs (event.now ∷ h) result }
    {
        Place {
            jobs: jobs_after(self.jobs, passes_job(self.is_cleaning, event)),
            is_cleaning: cleans_on(self.is_cleaning, event),
            is_between: ends_job(event),
        }
    }

    /// The sender of the job whose message found no room, if the event says so of one.
    fn refused(self, event: &Event) -> Option<usize>
        ensures { (plan : PlanSaid) (h : History) → IsAt plan.jobs h self.entry → listed result ≡ refused_at plan h event.now }
    {
        if is_out_of_room(self.is_between, event) {
            awaited(self.jobs)
        } else {
            None
        }
    }
}

/// The jobs that are left where one passes, or none does.
fn jobs_after(jobs: &[Job], passes: bool) -> &[Job]
    ensures { result.now ≡ drop (if passes then 1 else 0) jobs.now }
{
    if passes && !jobs.is_empty() {
        &jobs[1..]
    } else {
        jobs
    }
}

/// Whether a job of the plan ends or is skipped.
fn passes_job(is_cleaning: bool, event: &Event) -> bool
    ensures { (h : History) → is_cleaning ≡ is_some (cleaning h) → passes_job h event.now ≡ (if result then 1 else 0) }
{
    match event {
        Event::JobEnded => !is_cleaning,
        Event::Skipped { .. } => true,
        _ => false,
    }
}

/// Whether a cleanup job is under way after the event.
fn cleans_on(is_cleaning: bool, event: &Event) -> bool
    ensures { (h : History) → is_cleaning ≡ is_some (cleaning h) → result ≡ is_some (cleaning (event.now ∷ h)) }
{
    match event {
        Event::CleanupBegun { .. } => true,
        Event::JobEnded => false,
        _ => is_cleaning,
    }
}

/// Whether the event is the refusal of a message for want of room.
fn is_out_of_room(is_between: bool, event: &Event) -> bool
    ensures { result ≡ is_refusal_asked (asks is_between event.now) }
{
    match event {
        Event::Refused { code } => is_between && matches!(code, Refusal::TooManyValues),
        _ => false,
    }
}

/// The sender that the first of these jobs waits for.
fn awaited(jobs: &[Job]) -> Option<usize>
    ensures { listed result ≡ awaited_first jobs.now }
{
    match jobs.first() {
        Some(job) => match &job.on {
            Some((sender, _)) => Some(*sender),
            None => None,
        },
        None => None,
    }
}

/// The senders of the jobs whose messages found no room, by the plan, the oldest first.
fn refused_senders(
    alloc: Global,
    plan: &AgentPlan,
    history: &[Event],
) -> Result<Vec<usize>, NoMemory>
    ensures { IfOk result (λ v. v.items ≡ refused_senders plan.now (reverse history.now)) }
{
    let mut senders = Vec::new(alloc);
    if waits_for_nobody(plan) {
        return Ok(senders);
    }
    let mut place = Place {
        jobs: plan.jobs.as_slice(),
        is_cleaning: false,
        is_between: true,
    };
    for event in history {
        add(&mut senders, place.refused(event))?;
        place = place.after(event);
    }
    Ok(senders)
}

/// Whether no job of the plan waits for a message.
pub(crate) fn waits_for_nobody(plan: &AgentPlan) -> bool
    ensures { result ≡ waits_for_nobody plan.now }
{
    plan.jobs.as_slice().iter().all(|job| job.on.is_none())
}

fn add(senders: &mut Vec<usize>, sender: Option<usize>) -> Result<(), NoMemory>
    ensures { OnOk result (senders.new.items ≡ senders.old.items ++ listed sender) }
{
    if let Some(sender) = sender {
        senders.push(sender)?;
    }
    Ok(())
}
