//! What the messages of each port carry.

ghost use Rattle.std.specs.Prelude.{◌≡◌, ℕ, ◌&&◌, ◌++◌, ◌∷◌, [], drop, slice_get, OnOk, nat_eq, if◌then◌else◌};
ghost use Rattle.es_races.specs.Pass.{queue_in};

use crate::clock::Clock;
use crate::maps::put;
use es_value::NoMemory;
use std::alloc::Global;
use std::collections::{HashMap, VecDeque};

/// For each sender and receiver the messages between them that were neither taken nor drained, the oldest first.
pub(crate) type Ports = HashMap<(usize, usize), VecDeque<Message>>;

/// A message: what its sender knew when it posted it, and the serial of the ticket in it, if it has one.
#[derive(Clone, Copy)]
pub(crate) struct Message {
    pub clock: Clock,
    pub serial: Option<u64>,
}

/// Puts a message last into a port.
pub(crate) fn post(
    alloc: Global,
    ports: &mut Ports,
    sender: usize,
    receiver: usize,
    message: Message,
) -> Result<(), NoMemory>
    ensures { OnOk result ((s r : ℕ) → queue_in ports.new s r ≡ (if nat_eq sender s && nat_eq receiver r then queue_in ports.old s r ++ message ∷ [] else queue_in ports.old s r)) }
{
    let Some(queue) = ports.get_mut(&(sender, receiver)) else {
        return start(alloc, ports, sender, receiver, message);
    };
    push(queue, message)
}

/// Puts a message into a port that has none.
fn start(
    alloc: Global,
    ports: &mut Ports,
    sender: usize,
    receiver: usize,
    message: Message,
) -> Result<(), NoMemory>
    requires { queue_in ports.old sender receiver ≡ [] }
    ensures { OnOk result ((s r : ℕ) → queue_in ports.new s r ≡ (if nat_eq sender s && nat_eq receiver r then queue_in ports.old s r ++ message ∷ [] else queue_in ports.old s r)) }
{
    let mut queue = VecDeque::new(alloc);
    push(&mut queue, message)?;
    put(ports, (sender, receiver), queue)
}

/// Puts a message last.
fn push(queue: &mut VecDeque<Message>, message: Message) -> Result<(), NoMemory>
    ensures { OnOk result (queue.new.items ≡ queue.old.items ++ message ∷ []) }
{
    queue.push_back(message)?;
    Ok(())
}

/// Takes the oldest message out of a port, if there is one.
pub(crate) fn take(ports: &mut Ports, sender: usize, receiver: usize) -> Option<Message>
    ensures first { result ≡ slice_get (queue_in ports.old sender receiver) 0 }
    ensures after { (s r : ℕ) → queue_in ports.new s r ≡ (if nat_eq sender s && nat_eq receiver r then drop 1 (queue_in ports.old s r) else queue_in ports.old s r) }
{
    match ports.get_mut(&(sender, receiver)) {
        Some(queue) => pop(queue),
        None => None,
    }
}

/// Takes the oldest message out.
fn pop(queue: &mut VecDeque<Message>) -> Option<Message>
    ensures first { result ≡ slice_get queue.old.items 0 }
    ensures after { queue.new.items ≡ drop 1 queue.old.items }
{
    queue.pop_front()
}
