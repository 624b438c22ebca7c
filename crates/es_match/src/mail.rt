//! The messages of a ledger's ports.

ghost use Rattle.std.specs.Prelude.{◌≡◌, ◌++◌, ◌∷◌, [], ℕ, OnOk, drop, slice_get, nat_eq, ◌&&◌, if◌then◌else◌};
ghost use Rattle.es_event.specs.Ledger.{queued};
ghost use Rattle.es_match.specs.LedgerPass.{bodies, body_of, port_in};

use crate::lines::put;
use es_event::{Body, LedgerEvent};
use es_value::NoMemory;
use std::alloc::Global;
use std::collections::{HashMap, VecDeque};

/// For each sender and receiver the messages of their port, the oldest first.
pub(crate) type Mail<'a> = HashMap<(usize, usize), VecDeque<&'a Body>>;

/// The oldest message of a port.
pub(crate) fn front<'a>(mail: &Mail<'a>, sender: usize, receiver: usize) -> Option<&'a Body>
    ensures { body_of result ≡ slice_get (port_in mail.now sender receiver) 0 }
{
    match mail.get(&(sender, receiver)) {
        Some(queue) => queue.front().copied(),
        None => None,
    }
}

/// Puts a message last.
fn push<'a>(queue: &mut VecDeque<&'a Body>, body: &'a Body) -> Result<(), NoMemory>
    ensures { OnOk result (bodies queue.new.items ≡ bodies queue.old.items ++ body.now ∷ []) }
{
    queue.push_back(body)?;
    Ok(())
}

/// Takes the oldest message out, if there is one.
fn pop(queue: &mut VecDeque<&Body>)
    ensures { bodies queue.new.items ≡ drop 1 (bodies queue.old.items) }
{
    let _ = queue.pop_front();
}

fn post<'a>(
    alloc: Global,
    mail: &mut Mail<'a>,
    sender: usize,
    receiver: usize,
    body: &'a Body,
) -> Result<(), NoMemory>
    ensures { OnOk result ((s r : ℕ) → port_in mail.new s r ≡ (if nat_eq sender s && nat_eq receiver r then port_in mail.old s r ++ body.now ∷ [] else port_in mail.old s r)) }
{
    let Some(queue) = mail.get_mut(&(sender, receiver)) else {
        return start(alloc, mail, sender, receiver, body);
    };
    push(queue, body)
}

/// Puts a message into a port that has none.
fn start<'a>(
    alloc: Global,
    mail: &mut Mail<'a>,
    sender: usize,
    receiver: usize,
    body: &'a Body,
) -> Result<(), NoMemory>
    requires { port_in mail.old sender receiver ≡ [] }
    ensures { OnOk result ((s r : ℕ) → port_in mail.new s r ≡ (if nat_eq sender s && nat_eq receiver r then port_in mail.old s r ++ body.now ∷ [] else port_in mail.old s r)) }
{
    let mut queue = VecDeque::new(alloc);
    push(&mut queue, body)?;
    put(mail, (sender, receiver), queue)
}

fn take(mail: &mut Mail<'_>, sender: usize, receiver: usize)
    ensures { (s r : ℕ) → port_in mail.new s r ≡ (if nat_eq sender s && nat_eq receiver r then drop 1 (port_in mail.old s r) else port_in mail.old s r) }
{
    if let Some(queue) = mail.get_mut(&(sender, receiver)) {
        pop(queue);
    }
}

/// The ports after an event.
pub(crate) fn note<'a>(
    alloc: Global,
    mail: &mut Mail<'a>,
    event: &'a LedgerEvent,
) -> Result<(), NoMemory>
    ensures { OnOk result ((s r : ℕ) → port_in mail.new s r ≡ queued event.now s r (port_in mail.old s r)) }
{
    match event {
        LedgerEvent::Posted {
            sender,
            receiver,
            body,
        } => post(alloc, mail, *sender, *receiver, body),
        LedgerEvent::Taken { sender, receiver } | LedgerEvent::Drained { sender, receiver } => {
            take(mail, *sender, *receiver);
            Ok(())
        }
        LedgerEvent::Opened { .. }
        | LedgerEvent::Spent { .. }
        | LedgerEvent::Accessed { .. }
        | LedgerEvent::Acted { .. } => Ok(()),
    }
}
