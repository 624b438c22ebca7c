//! An agent goes on alone. Where a call finds no memory nothing has changed.

ghost use Rattle.std.specs.Prelude.{◌≡◌, ◌+◌, Bool, count_by};
ghost use Rattle.es_event.specs.declared.row.Row.{Row};
ghost use Rattle.es_ticket.specs.Owned.{Owns};
ghost use Rattle.es_rules.specs.Needs.{need, asks_nobody, asks_marks, asks_copy, asks_late_marks, asks_closing};
ghost use Rattle.es_cluster.specs.Members.{Holds};

use es_agent::{AgentCore, Need};
use es_ledger::LedgerCore;
use es_ticket::{LedgerName, Rack, Stake};
use es_value::NoMemory;

/// The next event of an agent that asks neither the ledger nor for a message.
pub(crate) fn go_on<L: LedgerName>(
    core: &mut AgentCore<L>,
    stake: &mut Stake<L>,
    ledger: &mut LedgerCore<L>,
) -> Result<(), NoMemory>
    requires { Holds core.old stake.old }
    ensures held { Holds core.new stake.new }
    ensures agents { ledger.new.agents ≡ ledger.old.agents }
{
    match core.next() {
        Need::Local => perform(core, stake),
        Need::Collect => collect(core, stake, ledger),
        Need::Later => begin_later(core, stake),
        Need::Finish => finish(core, stake, ledger),
        Need::Close => {
            close(core, stake, ledger);
            Ok(())
        }
        Need::Ledger(_) | Need::Message(_) | Need::Ended => Ok(()),
    }
}

fn perform<L: LedgerName>(core: &mut AgentCore<L>, stake: &Stake<L>) -> Result<(), NoMemory>
    requires due { need core.old ≡ asks_nobody }
    requires held { Holds core.old stake.now }
    ensures { Holds core.new stake.now }
{
    core.perform()?;
    Ok(())
}

fn begin_later<L: LedgerName>(core: &mut AgentCore<L>, stake: &Stake<L>) -> Result<(), NoMemory>
    requires due { need core.old ≡ asks_copy }
    requires held { Holds core.old stake.now }
    ensures { Holds core.new stake.now }
{
    let _copy = core.begin_later()?;
    Ok(())
}

fn collect<L: LedgerName>(
    core: &mut AgentCore<L>,
    stake: &mut Stake<L>,
    ledger: &mut LedgerCore<L>,
) -> Result<(), NoMemory>
    requires due { need core.old ≡ asks_marks }
    requires held { Holds core.old stake.old }
    ensures held { Holds core.new stake.new }
    ensures agents { ledger.new.agents ≡ ledger.old.agents }
{
    let marks = core.marks()?;
    let rack = core.collect(&marks)?;
    spend_all(ledger, stake, rack);
    Ok(())
}

fn finish<L: LedgerName>(
    core: &mut AgentCore<L>,
    stake: &mut Stake<L>,
    ledger: &mut LedgerCore<L>,
) -> Result<(), NoMemory>
    requires due { need core.old ≡ asks_late_marks }
    requires held { Holds core.old stake.old }
    ensures held { Holds core.new stake.new }
    ensures agents { ledger.new.agents ≡ ledger.old.agents }
{
    let marks = core.late_marks()?;
    let rack = core.finish_later(&marks)?;
    spend_all(ledger, stake, rack);
    Ok(())
}

fn close<L: LedgerName>(core: &mut AgentCore<L>, stake: &mut Stake<L>, ledger: &mut LedgerCore<L>)
    requires due { need core.old ≡ asks_closing }
    requires held { Holds core.old stake.old }
    ensures held { Holds core.new stake.new }
    ensures agents { ledger.new.agents ≡ ledger.old.agents }
{
    let rack = core.close();
    spend_all(ledger, stake, rack);
    end_one(ledger, core.number());
}

fn end_one<L: LedgerName>(ledger: &mut LedgerCore<L>, agent: usize)
    ensures { ledger.new.agents ≡ ledger.old.agents }
{
    if agent < ledger.agents() && !ledger.has_ended(agent) {
        ledger.ended(agent);
    }
}

/// Spends all tickets of a rack, the newest buffer object's first. It takes no memory.
pub(crate) fn spend_all<L: LedgerName>(
    ledger: &mut LedgerCore<L>,
    stake: &mut Stake<L>,
    mut rack: Rack<L>,
)
    requires { Owns stake.old.rows rack.tickets }
    ensures agents { ledger.new.agents ≡ ledger.old.agents }
    ensures agent { stake.new.agent ≡ stake.old.agent }
    ensures counts { (p : Row → Bool) → count_by p stake.old.rows ≡ count_by p stake.new.rows + count_by (λ t. p t.1) rack.tickets }
{
    for _place in 0..rack.len() {
        let Some(ticket) = rack.pop() else {
            unreachable!()
        };
        let _ = ledger.spend(stake, ticket);
    }
    rack.end();
}
