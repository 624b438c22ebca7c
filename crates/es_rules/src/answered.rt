//! The events of what came from outside: of the ledger's answers, and of messages.

ghost use Rattle.std.specs.Prelude.{◌≡◌, ◌+◌, ◌∷◌, [], ℕ, true, false, None, pos, IfOk, OnOk, nat_lt};
ghost use Rattle.es_value.specs.Limits.{most_identities};
ghost use Rattle.es_value.specs.Values.{identity};
ghost use Rattle.es_event.specs.Access.{wait_text};
ghost use Rattle.es_event.specs.Identities.{made};
ghost use Rattle.es_event.specs.Order.{due, receive, RunsNow};
ghost use Rattle.es_event.specs.declared.command.Command.{Command as CommandSaid};
ghost use Rattle.es_record.specs.AgentView.{IsNext, with_buffer};
ghost use Rattle.es_rules.specs.Needs.{need, asks_message, asks_copy, TakesTicket, TakesWord, TakesWaitResult, TakesDone, IsBefore, IsDone, Brings};
ghost use Rattle.es_rules.specs.Giving.{MayGive};

use es_event::{Answer, Command, Done, Due, Event, PlanCommand, Refusal, Row, WaitResult};
use es_record::AgentRecord;
use es_value::{NoMemory, Text, TextFault, Value};
use std::alloc::Global;

/// The due command, which was not done yet, is done with this word of shared memory, or with how many agents a notify took
/// (The Atomics Object). It fails for want of memory alone.
#[inline(always)]
pub fn answered_word(agent: &AgentRecord, word: u32, done: &mut Done) -> Result<(), NoMemory>
    requires takes { TakesWord (need agent.now) }
    requires before { IsBefore agent.now done.old }
    ensures done { OnOk result (IsDone agent.now (Answer.Gives (Value.Number (pos word))) (Event.Did done.new)) }
    ensures next { OnOk result (IsNext agent.now (Event.Did done.new)) }
{
    answered(agent, Answer::Gives(Value::Number(i64::from(word))), done)
}

/// The same of a wait, with how it ended (Atomics.wait).
pub fn answered_wait(
    agent: &AgentRecord,
    ended: WaitResult,
    done: &mut Done,
) -> Result<(), NoMemory>
    requires takes { TakesWaitResult (need agent.now) }
    requires before { IsBefore agent.now done.old }
    ensures done { OnOk result (IsDone agent.now (Answer.Gives (Value.Text (wait_text ended))) (Event.Did done.new)) }
    ensures next { OnOk result (IsNext agent.now (Event.Did done.new)) }
{
    let text = text_of(agent.alloc(), ended)?;
    answered(agent, Answer::Gives(Value::Text(text)), done)
}

/// How a wait ended, as a variable has it.
fn text_of(alloc: Global, ended: WaitResult) -> Result<Text, NoMemory>
    ensures { IfOk result (λ t. t ≡ wait_text ended) }
{
    match Text::read(alloc, ended.text()) {
        Ok(text) => Ok(text),
        Err(TextFault::NoMemory) => Err(NoMemory),
        Err(TextFault::BadText) => unreachable!(),
    }
}

/// The same of a store or a post, which gives nothing.
pub fn answered_done(agent: &AgentRecord, done: &mut Done) -> Result<(), NoMemory>
    requires takes { TakesDone (need agent.now) }
    requires before { IsBefore agent.now done.old }
    ensures done { OnOk result (IsDone agent.now Answer.Nothing (Event.Did done.new)) }
    ensures next { OnOk result (IsNext agent.now (Event.Did done.new)) }
{
    answered(agent, Answer::Nothing, done)
}

/// The same, with this answer.
#[inline(always)]
fn answered(agent: &AgentRecord, answer: Answer, done: &mut Done) -> Result<(), NoMemory>
    requires gives { MayGive agent.now answer }
    requires before { IsBefore agent.now done.old }
    ensures done { OnOk result (IsDone agent.now answer (Event.Did done.new)) }
    ensures next { OnOk result (IsNext agent.now (Event.Did done.new)) }
{
    match agent.due() {
        Due::Run(_, command) => {
            agent.read(command, done)?;
            done.give(agent.alloc(), answer)
        }
        _ => unreachable!(),
    }
}

/// The event by which a buffer object of the next identity comes to the agent, over the block that
/// the row of its ticket names: the answer of the command that asked for a block
/// (SharedArrayBuffer ( length )), or a receipt. It fails for want of memory alone.
pub fn brought(agent: &AgentRecord, row: Row) -> Result<Event, NoMemory>
    requires takes { TakesTicket (need agent.now) row }
    requires room { nat_lt (made agent.now.history) most_identities ≡ true }
    ensures brings { IfOk result (Brings (due agent.now.plan agent.now.history) (made agent.now.history + 1)) }
    ensures next { IfOk result (IsNext (with_buffer row agent.now)) }
    ensures comes { IfOk result (λ e. made (e ∷ agent.now.history) ≡ made agent.now.history + 1) }
{
    let object = Value::Object(agent.next_identity());
    match agent.due() {
        Due::Run(_, command) => giving(agent, command, Answer::Gives(object)),
        Due::Receive { sender, .. } => Ok(Event::Received {
            sender,
            value: object,
        }),
        _ => unreachable!(),
    }
}

/// The receipt of a value that has no identity.
pub fn received(agent: &AgentRecord, value: Value) -> Event
    requires message { (s : ℕ) × (need agent.now ≡ asks_message s) }
    requires plain { identity value ≡ None }
    ensures said { (s : ℕ) × (need agent.now ≡ asks_message s) × (result ≡ Event.Received s value) }
    ensures next { IsNext agent.now result }
{
    match agent.due() {
        Due::Receive { sender, .. } => Event::Received { sender, value },
        _ => unreachable!(),
    }
}

/// The refusal of a message with a buffer, where there is no room for one more identity.
pub fn refused_message(agent: &AgentRecord) -> Event
    requires message { (s : ℕ) × (need agent.now ≡ asks_message s) }
    requires full { nat_lt (made agent.now.history) most_identities ≡ false }
    ensures said { result ≡ Event.Refused Refusal.TooManyValues }
    ensures next { IsNext agent.now result }
{
    Event::Refused {
        code: Refusal::TooManyValues,
    }
}

/// The skip of the job that waits for a message.
pub fn skipped(agent: &AgentRecord) -> Event
    requires { (s : ℕ) × (need agent.now ≡ asks_message s) }
    ensures said { (n s : ℕ) × (due agent.now.plan agent.now.history ≡ receive n s) × (result ≡ Event.Skipped n s) }
    ensures next { IsNext agent.now result }
{
    match agent.due() {
        Due::Receive { job, sender } => Event::Skipped { job, sender },
        _ => unreachable!(),
    }
}

/// The event by which a later collection is opened. It fails for want of memory alone.
pub fn opened(agent: &AgentRecord) -> Result<Event, NoMemory>
    requires { need agent.now ≡ asks_copy }
    ensures said { IfOk result (λ e. e ≡ Event.Did (Command.CollectLater, [], Answer.Nothing)) }
    ensures next { IfOk result (IsNext agent.now) }
{
    match agent.due() {
        Due::Run(_, command) => giving(agent, command, Answer::Nothing),
        _ => unreachable!(),
    }
}

/// The event of the due command, which read nothing and gave this. It fails for want of memory alone.
fn giving(agent: &AgentRecord, command: &Command, answer: Answer) -> Result<Event, NoMemory>
    requires { RunsNow (due agent.now.plan agent.now.history) command.now }
    ensures { IfOk result (λ e. e ≡ Event.Did (command.now, [], answer)) }
{
    let mut done = Done::of(planned(agent)?);
    done.give(agent.alloc(), answer)?;
    Ok(Event::Did(done))
}

/// The due command, as its event has it. It fails for want of memory alone.
#[inline(always)]
pub fn planned(agent: &AgentRecord) -> Result<PlanCommand, NoMemory>
    requires { (c : CommandSaid) × RunsNow (due agent.now.plan agent.now.history) c }
    ensures { IfOk result (λ c. RunsNow (due agent.now.plan agent.now.history) c) }
{
    match agent.due_command()? {
        Some(command) => Ok(command),
        None => unreachable!(),
    }
}
