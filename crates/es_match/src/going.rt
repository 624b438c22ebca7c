//! Going through an agent's history and its deeds.

ghost use Rattle.std.specs.Prelude.{◌≡◌, true, take, drop, length, IfOk, OnOk};
ghost use Rattle.std.specs.Option.{option_map};
ghost use Rattle.es_match.specs.Asks.{to_open, to_receive, to_empty, to_close};
ghost use Rattle.es_match.specs.Meets.{after, came_after, gives, is_one, nothing_came, pair, some_if, sole, within, add_ticket};
ghost use Rattle.es_match.specs.Goes.{asked, goes};
ghost use Rattle.es_match.specs.DeedsShown.{all_shown, shown};
ghost use Rattle.es_match.specs.Split.{stretches_said};
ghost use Rattle.es_match.specs.Shown.{asking, meets_one, said};

use crate::came::Came;
use crate::deed::Deed;
use crate::meets::{compares, is_length, is_plain, is_refusal};
use crate::one_deed::OneDeed;
use crate::rest::Rest;
use crate::spending::are_spent;
use crate::stretch::Stretch;
use crate::tickets::{BufferTickets, object_in, serials_of, serials_within};
use crate::want::{Want, asks_nothing, ends_job, want_at};
use es_event::{Body, Event, Row};
use es_value::{Id, IdSet, NoMemory, Value};
use std::alloc::Global;

fn open(
    tickets: &mut BufferTickets,
    words: u32,
    made: Option<&Value>,
    deeds: &[Deed<'_>],
) -> Result<bool, NoMemory>
    ensures { IfOk result (λ b. some_if b tickets.new ≡ after tickets.old (to_open words (said made.entry)) (all_shown deeds.now)) }
{
    match one(deeds) {
        Some(
            Deed::Open {
                block,
                words: opened,
                serial,
            },
        ) => {
            if opened != words {
                return Ok(false);
            }
            add(
                tickets,
                made,
                Row {
                    serial,
                    block,
                    words,
                },
            )
        }
        _ => Ok(false),
    }
}

fn add(tickets: &mut BufferTickets, made: Option<&Value>, row: Row) -> Result<bool, NoMemory>
    ensures { IfOk result (λ b. some_if b tickets.new ≡ add_ticket tickets.old (said made.entry) row) }
{
    match object_in(made) {
        Some(object) => {
            tickets.add(object, row)?;
            Ok(true)
        }
        None => Ok(false),
    }
}

fn take_in(
    tickets: &mut BufferTickets,
    value: &Value,
    body: &Body,
    words: u32,
) -> Result<bool, NoMemory>
    ensures { IfOk result (λ b. some_if b tickets.new ≡ gives tickets.old value.now body.now words) }
{
    match body {
        Body::Plain(other) => Ok(is_plain(Some(value), other)),
        Body::Block { block, serial } => add(
            tickets,
            Some(value),
            Row {
                serial: *serial,
                block: *block,
                words,
            },
        ),
    }
}

fn receive(
    tickets: &mut BufferTickets,
    sender: usize,
    value: &Value,
    deeds: &[Deed<'_>],
) -> Result<bool, NoMemory>
    ensures { IfOk result (λ b. some_if b tickets.new ≡ after tickets.old (to_receive sender value.now) (all_shown deeds.now)) }
{
    match one(deeds) {
        Some(
            Deed::Take {
                sender: from,
                message: Some(body),
                words,
            },
        ) => {
            if from != sender {
                return Ok(false);
            }
            take_in(tickets, value, body, words)
        }
        _ => Ok(false),
    }
}

fn empty(
    alloc: Global,
    tickets: &mut BufferTickets,
    ids: &[Id],
    deeds: &[Deed<'_>],
) -> Result<bool, NoMemory>
    ensures { IfOk result (λ b. some_if b tickets.new ≡ after tickets.old (to_empty ids.now) (all_shown deeds.now)) }
{
    let ids = IdSet::of(ids);
    let serials = serials_within(alloc, &ids, tickets.as_slice())?;
    tickets.empty(alloc, &ids)?;
    are_spent(alloc, false, &serials, deeds)
}

fn close(alloc: Global, tickets: &mut BufferTickets, deeds: &[Deed<'_>]) -> Result<bool, NoMemory>
    ensures { IfOk result (λ b. some_if b tickets.new ≡ after tickets.old to_close (all_shown deeds.now)) }
{
    let serials = serials_of(alloc, tickets.as_slice())?;
    *tickets = BufferTickets::new(alloc);
    are_spent(alloc, true, &serials, deeds)
}

/// Makes of the tickets those after the deeds. Whether the deeds are what is wanted.
pub(crate) fn after(
    alloc: Global,
    tickets: &mut BufferTickets,
    want: &Want<'_>,
    deeds: &[Deed<'_>],
) -> Result<bool, NoMemory>
    ensures { IfOk result (λ b. some_if b tickets.new ≡ after tickets.old (asking want.now) (all_shown deeds.now)) }
{
    match want {
        Want::Nothing => Ok(deeds.is_empty()),
        Want::Opening { words, made } => open(tickets, *words, *made, deeds),
        Want::Length { buffer, answer } => {
            Ok(deeds.is_empty() && is_length(tickets, *buffer, *answer))
        }
        Want::SameBlock {
            left,
            right,
            answer,
        } => Ok(deeds.is_empty() && compares(tickets, *left, *right, *answer)),
        Want::OneDeed(wanted) => match one(deeds) {
            Some(deed) => Ok(wanted.is_met(tickets, &deed)),
            None => Ok(false),
        },
        Want::Receiving { sender, value } => receive(tickets, *sender, value, deeds),
        Want::Refusal => Ok(two(deeds).is_some_and(|p| is_refusal(&p.0, &p.1))),
        Want::Emptying { ids } => empty(alloc, tickets, ids, deeds),
        Want::Closing => close(alloc, tickets, deeds),
    }
}

#[inline(always)]
pub(crate) fn one<'a>(deeds: &[Deed<'a>]) -> Option<Deed<'a>>
    ensures { option_map shown result ≡ sole (all_shown deeds.now) }
{
    if deeds.len() == 1 {
        Some(deeds[0])
    } else {
        None
    }
}

#[inline(always)]
pub(crate) fn two<'a>(deeds: &[Deed<'a>]) -> Option<(Deed<'a>, Deed<'a>)>
    ensures { option_map (λ p. (shown p.0, shown p.1)) result ≡ pair (all_shown deeds.now) }
{
    if deeds.len() == 2 {
        Some((deeds[0], deeds[1]))
    } else {
        None
    }
}

fn count_within(ids: &[Id], tickets: &[(Id, Row)]) -> usize
    ensures { result ≡ length (within ids.now tickets.now) }
{
    let ids = IdSet::of(ids);
    let mut count = 0;
    for (object, _) in tickets {
        if ids.has(*object) {
            count += 1;
        }
    }
    count
}

/// How many deeds are wanted.
fn asked(tickets: &BufferTickets, want: &Want<'_>) -> usize
    ensures { result ≡ asked tickets.now (asking want.now) }
{
    match want {
        Want::Nothing | Want::Length { .. } | Want::SameBlock { .. } => 0,
        Want::Opening { .. } | Want::OneDeed(_) | Want::Receiving { .. } => 1,
        Want::Refusal => 2,
        Want::Emptying { ids } => count_within(ids, tickets.as_slice()),
        Want::Closing => tickets.as_slice().len() + 1,
    }
}

/// Takes so many deeds out of those that are left, as many as there are, in place of these.
fn take_next<'a>(
    deeds: &mut Vec<Deed<'a>>,
    rest: &mut Rest<'a, '_>,
    count: usize,
) -> Result<(), NoMemory>
    ensures taken { OnOk result (all_shown deeds.new.items ≡ take count rest.old) }
    ensures left { OnOk result (rest.new ≡ drop count rest.old) }
{
    deeds.clear();
    for _ in 0..count {
        match rest.next() {
            Some(deed) => deeds.push(deed)?,
            None => return Ok(()),
        }
    }
    Ok(())
}

/// Takes the next deed out of those that are left. Whether there is one, and it meets what is asked.
#[inline(always)]
fn meets_next(tickets: &BufferTickets, wanted: &OneDeed<'_>, rest: &mut Rest<'_, '_>) -> bool
    ensures met { result ≡ is_one (meets_one tickets.now wanted.now) (take 1 rest.old) }
    ensures left { rest.new ≡ drop 1 rest.old }
{
    match rest.next() {
        Some(deed) => wanted.is_met(tickets, &deed),
        None => false,
    }
}

/// Takes the deeds that are wanted out of those that are left, in place of these, and takes in what comes with them. Whether
/// they are what is wanted.
#[inline(never)]
fn take_wanted<'a>(
    alloc: Global,
    came: &mut Came,
    deeds: &mut Vec<Deed<'a>>,
    rest: &mut Rest<'a, '_>,
    want: Want<'_>,
) -> Result<bool, NoMemory>
    ensures met { IfOk result (λ b. some_if b came.new ≡ came_after came.old (asking want.entry) (take (asked came.old.tickets (asking want.entry)) rest.old)) }
    ensures left { OnOk result (rest.new ≡ drop (asked came.old.tickets (asking want.entry)) rest.old) }
{
    take_next(deeds, rest, asked(&came.tickets, &want))?;
    came.take_in(alloc, &want, deeds.as_slice())
}

/// The same. Most events ask for one deed that brings nothing, or for none, which needs no list.
#[inline(always)]
fn go_on<'a>(
    alloc: Global,
    came: &mut Came,
    deeds: &mut Vec<Deed<'a>>,
    rest: &mut Rest<'a, '_>,
    want: Want<'_>,
) -> Result<bool, NoMemory>
    ensures met { IfOk result (λ b. some_if b came.new ≡ came_after came.old (asking want.entry) (take (asked came.old.tickets (asking want.entry)) rest.old)) }
    ensures left { OnOk result (rest.new ≡ drop (asked came.old.tickets (asking want.entry)) rest.old) }
{
    match want {
        Want::OneDeed(wanted) => Ok(meets_next(&came.tickets, &wanted, rest)),
        Want::Length { buffer, answer } => Ok(is_length(&came.tickets, buffer, answer)),
        Want::SameBlock {
            left,
            right,
            answer,
        } => Ok(compares(&came.tickets, left, right, answer)),
        _ => take_wanted(alloc, came, deeds, rest, want),
    }
}

/// What has come to the agent, if the deeds of its part are what the history asks.
pub(crate) fn goes(
    alloc: Global,
    history: &[Event],
    part: &[Stretch<'_>],
) -> Result<Option<Came>, NoMemory>
    ensures { IfOk result (λ o. o ≡ goes true nothing_came history.now (stretches_said part.now)) }
{
    let mut came = Came::nothing(alloc);
    let mut between = true;
    let mut rest = Rest::of(part);
    let mut deeds = Vec::new(alloc);
    for event in history {
        if asks_nothing(event) {
            between = ends_job(event);
            continue;
        }
        let want = want_at(between, event);
        let is_met = go_on(alloc, &mut came, &mut deeds, &mut rest, want)?;
        if !is_met {
            return Ok(None);
        }
        between = ends_job(event);
    }
    match rest.next() {
        Some(_) => Ok(None),
        None => Ok(Some(came)),
    }
}
