//! Messages are posted, and taken by their receivers.

ghost use Rattle.std.specs.Prelude.{◌≡◌, ◌≢◌, ◌<◌, ◌+◌, ◌∷◌, false, None, Some, OnOk, OnErr, IfSome, IfNone};
ghost use Rattle.std.specs.List.{Contains};
ghost use Rattle.std.specs.Option.{option_map_or};
ghost use Rattle.es_value.specs.Values.{identity};
ghost use Rattle.es_event.specs.declared.ledger_event.Body.TheVariants.{Plain as PlainBody, Block as BlockBody};
ghost use Rattle.es_event.specs.declared.ledger_event.LedgerEvent.TheVariants.{Posted as PostedEvent, Taken as TakenEvent};
ghost use Rattle.es_event.specs.declared.row.Holder.TheVariants.{Agent};
ghost use Rattle.es_event.specs.Rows.{in_port};
ghost use Rattle.es_event.specs.Ledger.{serials, front, moved_if, serial_in};
ghost use Rattle.es_event.specs.LegalLedger.{has_message};
ghost use Rattle.es_ledger.specs.Letters.{body_of, Received};
ghost use Rattle.es_ledger.specs.Handing.{LiesIn, Handed};

use crate::ledger::{LedgerCore, make_room};
use crate::message::{Letter, Message};
use es_event::{Body, LedgerEvent};
use es_ticket::{LedgerName, Rows, Stake, Ticket};
use es_value::{NoMemory, Value};

impl<L: LedgerName> LedgerCore<L> {
    /// Posts a value without an identity to another agent. Where there is no memory nothing has
    /// changed.
    pub fn post(&mut self, sender: usize, receiver: usize, value: Value) -> Result<(), NoMemory>
        requires known { (sender < self.old.agents) × (receiver < self.old.agents) }
        requires other { sender ≢ receiver }
        requires plain { identity value ≡ None }
        ensures history { OnOk result ((self.new.agents ≡ self.old.agents) × (self.new.history ≡ PostedEvent sender receiver (PlainBody value) ∷ self.old.history)) }
        ensures err { OnErr result (self.new ≡ self.old) }
    {
        let copy = value.copy()?;
        self.ports.reserve(sender, receiver)?;
        let agents = self.ended.as_slice().len();
        make_room(&mut self.history, &self.rows, &self.ports, agents, 2)?;
        self.ports.push(sender, receiver, Letter::Plain(value));
        self.history.append(LedgerEvent::Posted {
            sender,
            receiver,
            body: Body::Plain(copy),
        });
        Ok(())
    }

    /// Posts a Shared Data Block to another agent: the message gets a ticket of its own, and the
    /// sender keeps its own. Where there is no memory nothing has changed.
    pub fn post_buffer(
        &mut self,
        stake: &mut Stake<L>,
        receiver: usize,
        ticket: &Ticket<L>,
    ) -> Result<(), NoMemory>
        requires known { (stake.old.agent < self.old.agents) × (receiver < self.old.agents) }
        requires other { stake.old.agent ≢ receiver }
        requires here { Contains stake.old.rows ticket.now }
        ensures history { OnOk result ((self.new.agents ≡ self.old.agents) × (self.new.history ≡ PostedEvent stake.old.agent receiver (BlockBody ticket.now.block (serials self.old.history + 1)) ∷ self.old.history)) }
        ensures stake { stake.new ≡ stake.old }
        ensures err { OnErr result (self.new ≡ self.old) }
    {
        self.rows.look(stake);
        let sender = stake.number();
        self.ports.reserve(sender, receiver)?;
        let agents = self.ended.as_slice().len();
        make_room(&mut self.history, &self.rows, &self.ports, agents, 3)?;
        let posted = self.rows.post(sender, receiver, ticket)?;
        let (block, serial) = (posted.block(), posted.serial());
        self.blocks.gain(block);
        self.ports.push(sender, receiver, Letter::Block(posted));
        self.history.append(LedgerEvent::Posted {
            sender,
            receiver,
            body: Body::Block { block, serial },
        });
        Ok(())
    }

    /// Takes the oldest message of a sender to the stake's agent; none only where the port is empty.
    /// It takes no memory.
    pub fn take(&mut self, stake: &mut Stake<L>, sender: usize) -> Option<Message<L>>
        requires known { (sender < self.old.agents) × (stake.old.agent < self.old.agents) }
        ensures none { IfNone result ((has_message self.old.history sender stake.old.agent ≡ false) × (self.new ≡ self.old) × (stake.new ≡ stake.old)) }
        ensures history { IfSome result (λ m. (m.sender ≡ sender) × (self.new.agents ≡ self.old.agents) × (self.new.history ≡ TakenEvent sender stake.old.agent ∷ self.old.history)) }
        ensures body { IfSome result (λ m. front self.old.history sender stake.old.agent ≡ Some (body_of m.body)) }
        ensures stake { IfSome result (λ m. Received self.old.history m.body stake.old stake.new) }
    {
        let receiver = stake.number();
        match self.ports.pop(sender, receiver) {
            Some(body) => {
                hand(&mut self.rows, stake, sender, receiver, &body);
                self.waits[receiver] = None;
                self.history.append(LedgerEvent::Taken { sender, receiver });
                Some(Message { sender, body })
            }
            None => None,
        }
    }
}

// The ticket in a letter that was taken out of a port, if there is one, goes to the receiver.
fn hand<L: LedgerName>(
    rows: &mut Rows<L>,
    stake: &mut Stake<L>,
    sender: usize,
    receiver: usize,
    letter: &Letter<L>,
)
    requires { LiesIn (in_port sender receiver rows.old.rows) letter.now }
    ensures table { (rows.new.agents ≡ rows.old.agents) × (rows.new.rows ≡ moved_if (serial_in (body_of letter.now)) (Agent stake.old.agent) rows.old.rows) }
    ensures stake { Handed letter.now stake.old stake.new }
{
    match letter {
        Letter::Plain(_) => (),
        Letter::Block(ticket) => rows.take(stake, sender, receiver, ticket),
    }
}
