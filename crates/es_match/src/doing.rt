//! What an event of the ledger is to the agent that does it, and whether it may come.

ghost use Rattle.std.specs.Prelude.{◌≡◌, true};
ghost use Rattle.es_event.specs.Ledger.{Ledger, front, waits};
ghost use Rattle.es_event.specs.Waiters.{asleep};
ghost use Rattle.es_match.specs.Patience.{ends_sleep, ends_wait, may_do, may_stir};
ghost use Rattle.es_match.specs.Deeds.{acting, by_holder, deed, is_wait, sleep_of, taking};
ghost use Rattle.es_match.specs.Orderly.{is_known, may_come};
ghost use Rattle.es_match.specs.DeedsShown.{owned, shown};
ghost use Rattle.es_match.specs.LedgerPass.{Says};

use crate::deed::{Deed, Sleep};
use crate::ledger_pass::LedgerPass;
use crate::lines::holder;
use crate::mail::front;
use es_event::{Act, LedgerEvent};

impl<'a> LedgerPass<'a> {
    /// What the next event is to the agent that does it.
    pub fn deed(&self, event: &'a LedgerEvent) -> Option<(usize, Deed<'a>)>
        ensures { (l : Ledger) → Says l self.now → owned result ≡ deed l event.now }
    {
        match event {
            LedgerEvent::Opened {
                block,
                words,
                serial,
                agent,
            } => Some((
                *agent,
                Deed::Open {
                    block: *block,
                    words: *words,
                    serial: *serial,
                },
            )),
            LedgerEvent::Posted {
                sender,
                receiver,
                body,
            } => Some((
                *sender,
                Deed::Post {
                    receiver: *receiver,
                    body,
                },
            )),
            LedgerEvent::Taken { sender, receiver } => {
                Some((*receiver, self.taking(*sender, *receiver)))
            }
            LedgerEvent::Spent { serial } => self.by_holder(
                *serial,
                Deed::Spend { serial: *serial },
            ),
            LedgerEvent::Accessed {
                serial,
                index,
                change,
                old,
            } => self.by_holder(
                *serial,
                Deed::Access {
                    serial: *serial,
                    index: *index,
                    change: *change,
                    old: *old,
                },
            ),
            LedgerEvent::Acted { agent, act } => Some((*agent, acting(self.sleep(*agent), *act))),
            LedgerEvent::Drained { .. } => None,
        }
    }

    fn by_holder(&self, serial: u64, deed: Deed<'a>) -> Option<(usize, Deed<'a>)>
        ensures { (l : Ledger) → Says l self.now → owned result ≡ by_holder l serial (shown deed.entry) }
    {
        match holder(&self.lines, serial) {
            Some(agent) => Some((agent, deed)),
            None => None,
        }
    }

    fn taking(&self, sender: usize, receiver: usize) -> Deed<'a>
        ensures { (l : Ledger) → Says l self.now → shown result ≡ taking l sender (front l sender receiver) }
    {
        let message = front(&self.mail, sender, receiver);
        let words = match message {
            Some(body) => self.words(body),
            None => 0,
        };
        Deed::Take {
            sender,
            message,
            words,
        }
    }

    /// The sleep of an agent, if it sleeps.
    fn sleep(&self, agent: usize) -> Option<Sleep>
        ensures { (l : Ledger) → Says l self.now → result ≡ sleep_of l agent }
    {
        match self.sleeping.get(&agent) {
            Some(sleep) => *sleep,
            None => None,
        }
    }

    /// Whether an agent sleeps.
    fn is_asleep(&self, agent: usize) -> bool
        ensures { (l : Ledger) → Says l self.now → result ≡ asleep l agent }
    {
        self.sleep(agent).is_some()
    }

    /// The sender that an agent waits for.
    fn waits(&self, agent: usize) -> Option<usize>
        ensures { (l : Ledger) → Says l self.now → result ≡ waits l agent }
    {
        match self.waiting.get(&agent) {
            Some(sender) => *sender,
            None => None,
        }
    }

    /// Whether what an agent does may come next in a cluster of so many agents.
    pub fn may_come(&self, agents: usize, doing: &Option<(usize, Deed<'a>)>) -> bool
        ensures test { (l : Ledger) → Says l self.now → result ≡ may_come agents l (owned doing.now) }
        ensures known { result ≡ true → is_known agents (owned doing.now) ≡ true }
    {
        match doing {
            None => true,
            Some((agent, deed)) => {
                may_do(self.waits(*agent), deed)
                    && may_stir(self.is_asleep(*agent), deed)
                    && !self.drained
                    && (is_wait(deed) || *agent < agents)
            }
        }
    }
}

fn acting<'a>(sleep: Option<Sleep>, act: Act) -> Deed<'a>
    ensures { shown result ≡ acting sleep act }
{
    match act {
        Act::Waiting { sender } => Deed::Wait { sender },
        Act::Passed { sender } => Deed::Pass { sender },
        Act::Ended => Deed::End,
        Act::Slept {
            serial,
            index,
            word,
        } => Deed::Sleep {
            serial,
            index,
            word,
        },
        Act::Notified {
            serial,
            index,
            count,
            taken,
        } => Deed::Notify {
            serial,
            index,
            count,
            taken,
        },
        Act::Woke => Deed::Wake(sleep),
        Act::TimedOut => Deed::TimeOut(sleep),
    }
}

fn may_do(wait: Option<usize>, deed: &Deed<'_>) -> bool
    ensures { result ≡ may_do wait (shown deed.now) }
{
    match wait {
        None => true,
        Some(sender) => ends_wait(sender, deed),
    }
}

fn ends_wait(awaited: usize, deed: &Deed<'_>) -> bool
    ensures { result ≡ ends_wait awaited (shown deed.now) }
{
    match deed {
        Deed::Take { sender, .. } | Deed::Pass { sender } => *sender == awaited,
        _ => false,
    }
}

fn may_stir(asleep: bool, deed: &Deed<'_>) -> bool
    ensures { result ≡ may_stir asleep (shown deed.now) }
{
    !asleep || ends_sleep(deed)
}

fn ends_sleep(deed: &Deed<'_>) -> bool
    ensures { result ≡ ends_sleep (shown deed.now) }
{
    matches!(deed, Deed::Wake(_) | Deed::TimeOut(_))
}

/// Whether the deed is that an agent begins to wait for a message, or to sleep.
pub(crate) fn is_wait(deed: &Deed<'_>) -> bool
    ensures { result ≡ is_wait (shown deed.now) }
{
    matches!(deed, Deed::Wait { .. } | Deed::Sleep { .. })
}
