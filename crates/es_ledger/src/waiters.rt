//! The WaiterLists, as one list of those that sleep and were not taken, in the order in which they began to.

ghost use Rattle.std.specs.Prelude.{◌≡◌, ◌+◌, ◌==◌, filter, not, vec_len};
ghost use Rattle.std.specs.List.{list_any};
ghost use Rattle.es_event.specs.declared.waiter.Waiter.{Waiter as OneWaiter};
ghost use Rattle.es_event.specs.Waiters.{is_at as is_at_said, without_first, without_one};

use es_event::Waiter;

/// Takes the first out that are at an index of a block, so many at most, and answers how many they were (ECMA-262,
/// RemoveWaiters).
pub(crate) fn take_first(waiters: &mut Vec<Waiter>, block: u64, index: usize, count: usize) -> usize
    ensures left { waiters.new.items ≡ without_first block index count waiters.old.items }
    ensures taken { result + vec_len waiters.new ≡ vec_len waiters.old }
{
    let before = waiters.len();
    for _ in 0..count {
        take_one(waiters, block, index);
    }
    before - waiters.len()
}

/// Takes the first out that is at an index of a block, if there is one.
fn take_one(waiters: &mut Vec<Waiter>, block: u64, index: usize)
    ensures { waiters.new.items ≡ without_one block index waiters.old.items }
{
    for place in 0..waiters.len() {
        if is_at(&waiters[place], block, index) {
            waiters.remove(place);
            return;
        }
    }
}

fn is_at(waiter: &Waiter, block: u64, index: usize) -> bool
    ensures { result ≡ is_at_said block index waiter.now }
{
    waiter.block == block && waiter.index == index
}

/// Whether an agent is in a WaiterList.
pub(crate) fn has(waiters: &[Waiter], agent: usize) -> bool
    ensures { result ≡ list_any (λ (w : OneWaiter). w.agent == agent) waiters.now }
{
    waiters.iter().any(|waiter| waiter.agent == agent)
}

/// Takes an agent out of its WaiterList (ECMA-262, RemoveWaiter).
pub(crate) fn leave(waiters: &mut Vec<Waiter>, agent: usize)
    ensures { waiters.new.items ≡ filter (λ (w : OneWaiter). not (w.agent == agent)) waiters.old.items }
{
    waiters.retain(|waiter| waiter.agent != agent);
}
