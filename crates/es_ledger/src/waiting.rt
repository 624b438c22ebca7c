//! Asking for a message: it is there, or the agent waits on, or it skips its job.

ghost use Rattle.std.specs.Prelude.{◌≡◌, ◌≢◌, ◌<◌, ◌≤◌, ◌∷◌, ◌||◌, ◌&&◌, not, ℕ, false, is_some, Some, IfOk, IfSome, OnOk, OnErr, if◌then◌else◌};
ghost use Rattle.es_event.specs.Ledger.{waits, ended};
ghost use Rattle.std.specs.Option.{option_map_or};
ghost use Rattle.es_event.specs.Waiters.{asleep};
ghost use Rattle.es_event.specs.LegalLedger.{has_message, is_stuck, all_stuck, all_ended, is_chosen, skips};
ghost use Rattle.es_ledger.specs.Turns.{told, asked, judged, waits_for};
ghost use Rattle.es_ledger.specs.declared.turn.Turn.TheVariants.{Ready, Stay};

use crate::ledger::{LedgerCore, make_room};
use crate::turn::Turn;
use es_event::{Act, LedgerEvent};
use es_ticket::LedgerName;
use es_value::NoMemory;

impl<L: LedgerName> LedgerCore<L> {
    /// Asks for a message of a sender: whether it is there, or the agent waits on, or skips its job.
    /// Where there is no memory nothing has changed. An agent has one wait at a time: one that waits for
    /// another sender is told that the message is there, where it is, and else to wait on, even where this
    /// sender has ended; and nothing is recorded. So is one that sleeps.
    pub fn await_message(&mut self, agent: usize, sender: usize) -> Result<Turn, NoMemory>
        requires known { (agent < self.old.agents) × (sender < self.old.agents) }
        requires other { agent ≢ sender }
        requires going { ended self.old.history agent ≡ false }
        ensures told { IfOk result (λ t. (t, self.new.history) ≡ told self.old.history self.old.agents agent sender) }
        ensures elsewhere { IfOk result (λ t. (s : ℕ) → waits self.old.history agent ≡ Some s → s ≢ sender → (t ≡ (if has_message self.old.history sender agent then Ready else Stay)) × (self.new.history ≡ self.old.history)) }
        ensures agents { self.new.agents ≡ self.old.agents }
        ensures err { OnErr result (self.new ≡ self.old) }
    {
        if self.has_message(sender, agent) {
            return Ok(Turn::Ready);
        }
        self.ask(agent, sender)?;
        Ok(self.judge(agent, sender))
    }

    /// Whether the port of a sender and a receiver has a message.
    pub fn has_message(&self, sender: usize, receiver: usize) -> bool
        requires { (sender < self.now.agents) × (receiver < self.now.agents) }
        ensures { result ≡ has_message self.now.history sender receiver }
    {
        !self.ports.is_empty(sender, receiver)
    }

    // Records that the agent waits, where it waits for nobody yet and does not sleep.
    fn ask(&mut self, agent: usize, sender: usize) -> Result<(), NoMemory>
        requires known { (agent < self.old.agents) × (sender < self.old.agents) }
        requires other { agent ≢ sender }
        requires going { ended self.old.history agent ≡ false }
        requires empty { has_message self.old.history sender agent ≡ false }
        ensures history { OnOk result (self.new.history ≡ asked self.old.history agent sender) }
        ensures agents { self.new.agents ≡ self.old.agents }
        ensures err { OnErr result (self.new ≡ self.old) }
    {
        if self.rests(agent) {
            return Ok(());
        }
        let agents = self.ended.as_slice().len();
        make_room(&mut self.history, &self.rows, &self.ports, agents, 2)?;
        self.waits[agent] = Some(sender);
        self.history.append(LedgerEvent::Acted {
            agent,
            act: Act::Waiting { sender },
        });
        Ok(())
    }

    // Where its wait stands, by the waits that are recorded.
    fn judge(&mut self, agent: usize, sender: usize) -> Turn
        requires known { (agent < self.old.agents) × (sender < self.old.agents) }
        ensures judged { (result, self.new.history) ≡ judged self.old.history self.old.agents agent sender }
        ensures agents { self.new.agents ≡ self.old.agents }
    {
        if self.waits_for(agent, sender) && self.skips(agent, sender) {
            self.waits[agent] = None;
            self.history.append(LedgerEvent::Acted {
                agent,
                act: Act::Passed { sender },
            });
            Turn::Skip
        } else {
            Turn::Stay
        }
    }

    fn sender_of(&self, agent: usize) -> Option<usize>
        requires { agent < self.now.agents }
        ensures told { result ≡ waits self.now.history agent }
        ensures there { IfSome result (λ s. s < self.now.agents) }
    {
        self.waits[agent]
    }

    // Whether it waits for a message, or sleeps.
    fn rests(&self, agent: usize) -> bool
        requires { agent < self.now.agents }
        ensures { result ≡ (is_some (waits self.now.history agent) || asleep self.now.history agent) }
    {
        self.waits_for_message(agent) || self.is_asleep(agent)
    }

    // Whether it waits for a message.
    pub(crate) fn waits_for_message(&self, agent: usize) -> bool
        requires { agent < self.now.agents }
        ensures { result ≡ is_some (waits self.now.history agent) }
    {
        self.sender_of(agent).is_some()
    }

    fn waits_for(&self, agent: usize, sender: usize) -> bool
        requires { agent < self.now.agents }
        ensures { result ≡ waits_for self.now.history agent sender }
    {
        match self.sender_of(agent) {
            Some(awaited) => awaited == sender,
            None => false,
        }
    }

    fn skips(&self, agent: usize, sender: usize) -> bool
        requires { (agent < self.now.agents) × (sender < self.now.agents) }
        ensures { result ≡ skips self.now.history self.now.agents agent sender }
    {
        !self.has_message(sender, agent) && (self.has_ended(sender) || self.is_chosen(agent))
    }

    pub(crate) fn is_chosen(&self, agent: usize) -> bool
        requires { agent < self.now.agents }
        ensures { result ≡ is_chosen self.now.history self.now.agents agent }
    {
        self.all_stuck(self.ended.len()) && (self.all_ended(agent) && !self.has_ended(agent))
    }

    fn is_stuck(&self, agent: usize) -> bool
        requires { agent < self.now.agents }
        ensures { result ≡ is_stuck self.now.history agent }
    {
        self.is_listed(agent) || self.waits_in_vain(agent)
    }

    fn waits_in_vain(&self, agent: usize) -> bool
        requires { agent < self.now.agents }
        ensures { result ≡ option_map_or (λ s. not (has_message self.now.history s agent) && not (ended self.now.history s)) (waits self.now.history agent) false }
    {
        match self.sender_of(agent) {
            Some(sender) => !self.has_message(sender, agent) && !self.has_ended(sender),
            None => false,
        }
    }

    fn can_not_go_on(&self, agent: usize) -> bool
        requires { agent < self.now.agents }
        ensures { result ≡ (ended self.now.history agent || is_stuck self.now.history agent) }
    {
        self.has_ended(agent) || self.is_stuck(agent)
    }

    fn all_stuck(&self, below: usize) -> bool
        requires { below ≤ self.now.agents }
        ensures { result ≡ all_stuck self.now.history below }
    {
        let mut all = true;
        for i in 0..below {
            all = both(self.can_not_go_on(i), all);
        }
        all
    }

    // Whether each agent below this one has ended.
    pub(crate) fn all_ended(&self, below: usize) -> bool
        requires { below ≤ self.now.agents }
        ensures { result ≡ all_ended self.now.history below }
    {
        let mut all = true;
        for i in 0..below {
            all = both(self.has_ended(i), all);
        }
        all
    }
}

fn both(a: bool, b: bool) -> bool
    ensures { result ≡ (a && b) }
{
    a && b
}
