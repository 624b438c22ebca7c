//! Parting tickets by whether their buffer objects are among some.

ghost use Rattle.std.specs.Prelude.{◌≡◌, ◌≤◌, [], length, vec_capacity};
ghost use Rattle.es_ticket.specs.Stakes.{among, besides};

use crate::kept::Kept;
use crate::ledger_name::LedgerName;
use es_value::IdSet;
use std::alloc::Global;
use std::collections::VecDeque;

/// How many of these tickets are at one of these buffer objects.
pub(crate) fn count_among<L: LedgerName>(kept: &[Kept<L>], ids: &IdSet<'_>) -> usize
    ensures { result ≡ length (among ids.now kept.now) }
{
    kept.iter().filter(|one| ids.has(one.id)).count()
}

/// The tickets at these buffer objects, and the others, both in the order in which they came. It is
/// one pass over them. The vector has room for the first, which go there, and takes no memory then.
pub(crate) fn part<L: LedgerName>(
    kept: Vec<Kept<L>>,
    ids: &IdSet<'_>,
    mut taken: Vec<Kept<L>>,
) -> (Vec<Kept<L>>, Vec<Kept<L>>)
    requires empty { taken.items ≡ [] }
    requires room { length (among ids.now kept.items) ≤ vec_capacity taken }
    ensures taken { result.0.items ≡ among ids.now kept.items }
    ensures rest { result.1.items ≡ besides ids.now kept.items }
{
    let mut queue = VecDeque::from_vec(kept);
    for _ in 0..queue.len() {
        let Some(one) = queue.pop_front() else {
            unreachable!()
        };
        if ids.has(one.id) {
            taken.push_reserved(one);
        } else {
            queue.push_back_reserved(one);
        }
    }
    (taken, queue.into_vec())
}
