//! What has come to an agent from the ledger.

ghost use Rattle.std.specs.Prelude.{◌≡◌, ◌++◌, IfOk, OnOk};
ghost use Rattle.es_match.specs.Meets.{came_after, nothing_came, refused_in, some_if, ticket_in, ticket_under};
ghost use Rattle.es_match.specs.DeedsShown.{all_shown};
ghost use Rattle.es_match.specs.Shown.{asking, listed, said};

use crate::deed::Deed;
use crate::going::{after, one, two};
use crate::tickets::{BufferTickets, object_in};
use crate::want::Want;
use es_event::{Body, Row};
use es_value::{Id, NoMemory, Value};
use std::alloc::Global;
use std::marker::Model;

/// What has come to an agent from the ledger (ECMA-262, Shared Data Blocks), as its history and its part
/// in the ledger's history say it.
#[derive(Drop)]
pub struct Came {
    pub(crate) tickets: BufferTickets,
    ever: Vec<(Id, Row)>,
    refused: Vec<usize>,
}

impl Model for Came {
    ghost use Rattle.es_match.specs.Meets.{Came as CameSaid};

    ghost Value = { CameSaid };

    ghost view = { λ c. record { tickets = c.tickets; ever = c.ever.items; refused = c.refused.items } };
}

impl Came {
    /// Nothing; it takes no memory.
    pub(crate) fn nothing(alloc: Global) -> Came
        ensures { result ≡ nothing_came }
    {
        Came {
            tickets: BufferTickets::new(alloc),
            ever: Vec::new(alloc),
            refused: Vec::new(alloc),
        }
    }

    /// Each buffer object that the agent ever had, emptied ones too, with what its ticket names, the
    /// oldest first.
    pub fn ever(&self) -> &[(Id, Row)]
        ensures { result.now ≡ self.now.ever }
    {
        self.ever.as_slice()
    }

    /// The sender of each message that found no room, counted from 0, the oldest first.
    pub fn refused(&self) -> &[usize]
        ensures { result.now ≡ self.now.refused }
    {
        self.refused.as_slice()
    }

    /// Takes in what comes with the deeds. Whether they are what is wanted.
    pub(crate) fn take_in(
        &mut self,
        alloc: Global,
        want: &Want<'_>,
        deeds: &[Deed<'_>],
    ) -> Result<bool, NoMemory>
        ensures { IfOk result (λ b. some_if b self.new ≡ came_after self.old (asking want.now) (all_shown deeds.now)) }
    {
        let is_met = after(alloc, &mut self.tickets, want, deeds)?;
        if !is_met {
            return Ok(false);
        }
        add_ticket(&mut self.ever, want, deeds)?;
        add_refused(&mut self.refused, want, deeds)?;
        Ok(true)
    }
}

/// Adds the ticket that comes with the deeds, if one does.
fn add_ticket(
    ever: &mut Vec<(Id, Row)>,
    want: &Want<'_>,
    deeds: &[Deed<'_>],
) -> Result<(), NoMemory>
    ensures { OnOk result (ever.new.items ≡ ever.old.items ++ ticket_in (asking want.now) (all_shown deeds.now)) }
{
    if let Some(ticket) = ticket_in(want, deeds) {
        ever.push(ticket)?;
    }
    Ok(())
}

/// Adds the sender of the message that found no room, if one did not.
fn add_refused(
    refused: &mut Vec<usize>,
    want: &Want<'_>,
    deeds: &[Deed<'_>],
) -> Result<(), NoMemory>
    ensures { OnOk result (refused.new.items ≡ refused.old.items ++ refused_in (asking want.now) (all_shown deeds.now)) }
{
    if let Some(sender) = refused_in(want, deeds) {
        refused.push(sender)?;
    }
    Ok(())
}

/// The ticket that comes with deeds that are what is wanted, under its buffer object.
fn ticket_in(want: &Want<'_>, deeds: &[Deed<'_>]) -> Option<(Id, Row)>
    ensures { listed result ≡ ticket_in (asking want.now) (all_shown deeds.now) }
{
    match want {
        Want::Opening { words: _, made } => match one(deeds) {
            Some(
                Deed::Open {
                    block,
                    words,
                    serial,
                },
            ) => ticket_under(
                *made,
                Row {
                    serial,
                    block,
                    words,
                },
            ),
            _ => None,
        },
        Want::Receiving { sender: _, value } => match one(deeds) {
            Some(
                Deed::Take {
                    sender: _,
                    message: Some(Body::Block { block, serial }),
                    words,
                },
            ) => ticket_under(
                Some(value),
                Row {
                    serial: *serial,
                    block: *block,
                    words,
                },
            ),
            _ => None,
        },
        _ => None,
    }
}

fn ticket_under(value: Option<&Value>, row: Row) -> Option<(Id, Row)>
    ensures { listed result ≡ ticket_under (said value.entry) row }
{
    match object_in(value) {
        Some(object) => Some((object, row)),
        None => None,
    }
}

/// The sender of the message that found no room.
fn refused_in(want: &Want<'_>, deeds: &[Deed<'_>]) -> Option<usize>
    ensures { listed result ≡ refused_in (asking want.now) (all_shown deeds.now) }
{
    match want {
        Want::Refusal => match two(deeds) {
            Some(
                (
                    Deed::Take {
                        sender,
                        message: _,
                        words: _,
                    },
                    _,
                ),
            ) => Some(sender),
            _ => None,
        },
        _ => None,
    }
}
